use table_rows::{Wrong, parts};

/// A range of one key.
const RANGE: &[u8] =
    b"POST /v3/kv/range HTTP/1.1\r\nHost: h\r\nContent-Length: 14\r\n\r\n{\"key\":\"YQ==\"}";

/// The same at a revision.
const RANGE_AT: &[u8] =
    b"POST /v3/kv/range HTTP/1.1\r\nHost: h\r\nContent-Length: 29\r\n\r\n{\"key\":\"YQ==\",\"revision\":\"9\"}";

/// A put, as curl sends it.
const PUT: &[u8] =
    b"POST /v3/kv/put HTTP/1.1\r\nHost: localhost:23790\r\nUser-Agent: curl/8.5.0\r\nAccept: */*\r\nContent-Length: 32\r\nContent-Type: application/x-www-form-urlencoded\r\n\r\n{\"key\": \"Zm9v\", \"value\": \"YmFy\"}";

/// A watch of one key.
const WATCH: &[u8] =
    b"POST /v3/watch HTTP/1.1\r\nHost: h\r\nContent-Length: 33\r\n\r\n{\"create_request\":{\"key\":\"YQ==\"}}";

const FIRST: &[u8] =
    b"HTTP/1.1 200 OK\r\nContent-Length: 76\r\n\r\n{\"header\":{\"cluster_id\":\"1\",\"member_id\":\"1\",\"raft_term\":\"1\",\"revision\":\"1\"}}";

const SECOND: &[u8] =
    b"HTTP/1.1 200 OK\r\nContent-Length: 76\r\n\r\n{\"header\":{\"cluster_id\":\"1\",\"member_id\":\"2\",\"raft_term\":\"1\",\"revision\":\"1\"}}";

const WRITTEN: &[u8] =
    b"HTTP/1.1 200 OK\r\nContent-Length: 76\r\n\r\n{\"header\":{\"cluster_id\":\"1\",\"member_id\":\"1\",\"raft_term\":\"1\",\"revision\":\"2\"}}";

const NO_JSON: &[u8] = b"HTTP/1.1 200 OK\r\nContent-Length: 1\r\n\r\n{";

const UNAVAILABLE: &[u8] =
    b"HTTP/1.1 503 Service Unavailable\r\nContent-Length: 25\r\n\r\n{\"code\":14,\"message\":\"x\"}";

const FUTURE: &[u8] =
    b"HTTP/1.1 400 Bad Request\r\nContent-Length: 80\r\n\r\n{\"code\":11,\"message\":\"etcdserver: mvcc: required revision is a future revision\"}";

/// What a member's stream gives: that the watch stands, and a put.
pub(crate) const STREAM: &[u8] =
    b"HTTP/1.1 200 OK\r\n\r\n{\"result\":{\"created\":true,\"header\":{\"cluster_id\":\"1\",\"member_id\":\"1\",\"raft_term\":\"1\",\"revision\":\"1\"}}}\n{\"result\":{\"events\":[{\"kv\":{\"create_revision\":\"2\",\"key\":\"YQ==\",\"mod_revision\":\"2\",\"value\":\"Yg==\",\"version\":\"1\"}}],\"header\":{\"cluster_id\":\"1\",\"member_id\":\"1\",\"raft_term\":\"1\",\"revision\":\"2\"}}}\n";

/// How the watch's last message ends.
const LAST: &[u8] = b"\"revision\":\"2\"}}}\n\r\n";

/// What clients ask a server, and what its members answer.
#[derive(Clone, Copy, Debug, PartialEq, Eq)]
pub(crate) enum Plan {
    /// Two clients read, and the first call is answered once the second was.
    Meeting,
    /// A put, answered.
    Put,
    /// A range whose first call fails.
    SecondMember,
    /// A range whose calls all fail.
    NoMember,
    /// A put whose call fails.
    FailedPut,
    /// A put whose answer is no JSON.
    NoJson,
    /// A put that a member refuses for now.
    Unavailable,
    /// A range that the store refuses.
    Future,
    /// A range, of which this read fails.
    FailedRead(u64),
    /// A range whose reply can't be written.
    FailedWrite,
    /// A watch, of whose first stream this read fails.
    BrokenStream(u64),
}

impl Plan {
    /// The plan of this name; which read fails comes after it.
    pub(crate) fn named(row: &str) -> Result<Plan, Wrong> {
        match row {
            "Meeting" => Ok(Plan::Meeting),
            "Put" => Ok(Plan::Put),
            "SecondMember" => Ok(Plan::SecondMember),
            "NoMember" => Ok(Plan::NoMember),
            "FailedPut" => Ok(Plan::FailedPut),
            "NoJson" => Ok(Plan::NoJson),
            "Unavailable" => Ok(Plan::Unavailable),
            "Future" => Ok(Plan::Future),
            "FailedWrite" => Ok(Plan::FailedWrite),
            _ => Plan::with_read(row),
        }
    }

    fn with_read(row: &str) -> Result<Plan, Wrong> {
        let (name, read) = parts(row, " ")?;
        let Ok(read) = read.parse::<u64>() else {
            return Err(Wrong::Word);
        };
        match name {
            "FailedRead" => Ok(Plan::FailedRead(read)),
            "BrokenStream" => Ok(Plan::BrokenStream(read)),
            _ => Err(Wrong::Word),
        }
    }

    /// How many clients come.
    pub(crate) fn clients(self) -> u32 {
        if self == Plan::Meeting { 2 } else { 1 }
    }

    /// What each client asks.
    pub(crate) fn asked(self) -> &'static [u8] {
        match self {
            Plan::Put | Plan::FailedPut | Plan::NoJson | Plan::Unavailable => PUT,
            Plan::Future => RANGE_AT,
            Plan::BrokenStream(_) => WATCH,
            _ => RANGE,
        }
    }

    /// What a call is answered, by its number from 0 on. Nothing where it fails.
    pub(crate) fn answer(self, call: u64) -> Option<&'static [u8]> {
        match self {
            Plan::SecondMember if call == 0 => None,
            Plan::SecondMember => Some(SECOND),
            Plan::NoMember | Plan::FailedPut => None,
            Plan::Put => Some(WRITTEN),
            Plan::NoJson => Some(NO_JSON),
            Plan::Unavailable => Some(UNAVAILABLE),
            Plan::Future => Some(FUTURE),
            _ => Some(FIRST),
        }
    }

    /// Whether what a client was told is all that it will be told, though its connection stays open.
    pub(crate) fn is_told(self, told: &[u8]) -> bool {
        matches!(self, Plan::BrokenStream(_)) && told.ends_with(LAST)
    }
}
