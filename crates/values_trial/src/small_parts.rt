use crate::held;
use crate::steps::{Step, read_step};
use etcd_types::{Bytes, KeyRange};
use member_order::Members;
use session_keep::Session;
use std::alloc::Global;
use table_rows::{Wrong, parts};
use watch_resume::Upstream;

/// A session, members and a stream.
#[derive(Drop)]
pub struct SmallParts {
    alloc: Global,
    session: Session,
    members: Members,
    stream: Upstream,
}

impl SmallParts {
    pub fn new(alloc: Global) -> Result<SmallParts, Wrong> {
        Ok(SmallParts {
            alloc,
            session: Session::start(0, 0),
            members: Members::new(1),
            stream: Upstream::opened(range(alloc)?, 0),
        })
    }

    /// What comes of a row's case.
    pub fn came_of(&mut self, case: &str) -> Result<String, Wrong> {
        let (part, case) = parts(case, " ")?;
        match part {
            "session" => self.of_session(&read_step(case)?),
            "members" => self.of_members(&read_step(case)?),
            "stream" => self.of_stream(&read_step(case)?),
            _ => held::came_of(self.alloc, case),
        }
    }

    fn of_session(&mut self, step: &Step<'_>) -> Result<String, Wrong> {
        match step.name {
            "start" => self.session = Session::start(step.first, step.second),
            "granted" => self.session.granted(step.first, step.second),
            "renewed" => self.session.renewed(step.first, step.second),
            "end" => self.session.end(),
            "lost" => self.session.lost(),
            _ => return self.session_at(step.first),
        }
        match self.session.deadline() {
            None => self.word("none"),
            Some(deadline) => Ok(format!(in self.alloc; "{deadline}")?),
        }
    }

    fn session_at(&self, now: u64) -> Result<String, Wrong> {
        if !self.session.is_live(now) {
            return self.word("dead");
        }
        self.word(if self.session.due(now) { "due" } else { "live" })
    }

    fn of_members(&mut self, step: &Step<'_>) -> Result<String, Wrong> {
        match step.name {
            "of" => self.members = members(step.first)?,
            "failed" => self.members.failed(member(step.first)?),
            "seen" => self.members.take_seen(step.first),
            _ => return self.checked(step.first, step.second),
        }
        Ok(format!(in self.alloc; "{} {}", self.members.pick(), self.members.seen())?)
    }

    fn checked(&self, sent_at: u64, revision: u64) -> Result<String, Wrong> {
        match self.members.check(sent_at, revision) {
            Ok(()) => self.word("fresh"),
            Err(stale) => Ok(format!(in self.alloc; "stale {} {}", stale.needed, stale.got)?),
        }
    }

    fn of_stream(&mut self, step: &Step<'_>) -> Result<String, Wrong> {
        match step.name {
            "open" => self.stream = Upstream::opened(range(self.alloc)?, step.first),
            "created" => self.stream.created(step.first),
            "advance" => self.stream.advance(step.first),
            "cut" => self.stream.cut(),
            _ => self.stream.cancelled(step.first),
        }
        let stands = if self.stream.is_created() {
            "created"
        } else {
            "cut"
        };
        let start = self.stream.reopen().1;
        match self.stream.known_next() {
            None => Ok(format!(in self.alloc; "{stands} {start} none")?),
            Some(next) => Ok(format!(in self.alloc; "{stands} {start} {next}")?),
        }
    }

    fn word(&self, word: &str) -> Result<String, Wrong> {
        Ok(String::from_str(self.alloc, word)?)
    }
}

/// The range of the ownership keys under the prefix `L/`.
fn range(alloc: Global) -> Result<KeyRange, Wrong> {
    Ok(KeyRange {
        key: Bytes::from_slice(alloc, b"L/")?,
        end: Bytes::from_slice(alloc, b"L0")?,
    })
}

fn member(number: u64) -> Result<u32, Wrong> {
    match u32::try_from(number) {
        Ok(number) => Ok(number),
        Err(_) => Err(Wrong::Word),
    }
}

fn members(count: u64) -> Result<Members, Wrong> {
    let count = member(count)?;
    if count < 1 {
        return Err(Wrong::Word);
    }
    Ok(Members::new(count))
}
