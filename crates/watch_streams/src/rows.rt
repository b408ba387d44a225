ghost use Rattle.std.specs.Prelude.{◌≡◌, ◌<◌, ◌≤◌, ◌+◌, true, length, nat_lt, OnOk};
ghost use Rattle.watch_streams.specs.Rows.{mixed, digest, before, rising, under, with_row, is_other_row, without_row};

use etcd_types::{KeyRange, NoMemory};

// below 2^32, so that no step of a digest passes 2^64
const PRIME: u64 = 4_294_967_291;

/// A stream's number, by the digest of its range. Ranges that share a digest are told apart by themselves.
#[derive(Clone, Copy, Debug, PartialEq, Eq)]
pub struct Row {
    pub digest: u64,
    pub number: u64,
}

/// A number for the range, below 2^32.
#[tactic(auto, unfolding(crate::specs::Rows::digest))]
pub fn digest(range: &KeyRange) -> u64
    ensures value { result ≡ digest range.now }
    ensures bound { result < 4294967291 }
{
    mixed(mixed(0, range.key.as_slice()), range.end.as_slice())
}

fn mixed(from: u64, bytes: &[u8]) -> u64
    requires { from < 4294967291 }
    ensures value { result ≡ mixed from bytes.now }
    ensures bound { result < 4294967291 }
{
    let mut value = from;
    for byte in bytes {
        value = (value * 257 + u64::from(*byte) + 1) % PRIME;
    }
    value
}

/// How many rows have a digest below the limit, where digests don't fall.
pub fn before(limit: u64, rows: &[Row]) -> usize
    ensures bound { result ≤ length rows.now }
    ensures count { rising 0 rows.now ≡ true → result ≡ before limit rows.now }
{
    rows.partition_point(
        |row: &Row| -> bool
            ensures { result ≡ nat_lt row.now.digest limit }
        { row.digest < limit },
    )
}

/// Whether no two rows have this digest, where digests don't fall.
pub fn at_most_one(digest: u64, rows: &[Row]) -> bool
    ensures { rising 0 rows.now ≡ true → result ≡ true → length (under digest rows.now) ≤ 1 }
{
    let next = before(digest, rows) + 1;
    if next >= rows.len() {
        return true;
    }
    rows[next].digest != digest
}

/// The row stands behind those of its digest and of smaller ones, where digests don't fall.
pub fn insert_row(row: Row, rows: &mut Vec<Row>) -> Result<(), NoMemory>
    requires { row.digest < 4294967291 }
    ensures { OnOk result (rising 0 rows.old.items ≡ true → rows.new.items ≡ with_row row rows.old.items) }
{
    let at = before(row.digest + 1, rows);
    rows.insert(at, row)?;
    Ok(())
}

/// The stream's row is gone.
pub fn drop_row(number: u64, rows: &mut Vec<Row>)
    ensures { rows.new.items ≡ without_row number rows.old.items }
{
    rows.retain(
        |row: &Row| -> bool
            ensures { result ≡ is_other_row number row.now }
        { row.number != number },
    );
}
