ghost use Rattle.std.specs.Prelude.{◌≡◌};
ghost use Rattle.wait_model.specs.Fits.{is_write};

use etcd_types::{Answer, Bytes, Request};
use message_text::Text;
use revoke_core::{Due, DueKind, Entry, LeaseTable, NotShape, Phase, Settled, Waits};
use std::alloc::Global;
use table_rows::Wrong;
use text_words::{Words, is_word, read_bytes, read_number};

/// Waiting writes and a lease table, and what came of the last step that was tried on them.
#[derive(Drop)]
pub struct Writes {
    alloc: Global,
    waits: Waits,
    table: LeaseTable,
    told: String,
}

impl Writes {
    pub fn new(alloc: Global) -> Result<Writes, Wrong> {
        Ok(Writes {
            alloc,
            waits: Waits::new(alloc, Bytes::from_slice(alloc, b"L/")?),
            table: LeaseTable::new(alloc),
            told: String::new(alloc),
        })
    }

    /// What came of the last step.
    pub fn told(&self) -> &str {
        self.told.as_str()
    }

    /// Takes a step.
    pub fn step(&mut self, line: &str) -> Result<(), Wrong> {
        self.told = String::new(self.alloc);
        let mut words = Words::of(b' ', line.as_bytes());
        self.take_step(&mut words)?;
        words.end()?;
        Ok(())
    }

    fn take_step(&mut self, words: &mut Words) -> Result<(), Wrong> {
        let name = words.take()?;
        if is_word(name, "new") {
            self.waits = Waits::new(self.alloc, Bytes::from_slice(self.alloc, b"L/")?);
            self.table = LeaseTable::new(self.alloc);
            Ok(())
        } else if is_word(name, "hold") {
            self.hold(words)
        } else if is_word(name, "ask") {
            self.ask(words)
        } else if is_word(name, "send") {
            self.send(words)
        } else if is_word(name, "answer") {
            self.answer(words)
        } else {
            self.take_other_step(name, words)
        }
    }

    fn take_other_step(&mut self, name: &[u8], words: &mut Words) -> Result<(), Wrong> {
        if is_word(name, "step") {
            self.waits.begin_step(read_number(words)?);
            Ok(())
        } else if is_word(name, "go") {
            self.waits.proceed(&mut self.table);
            Ok(())
        } else if is_word(name, "lose") {
            let call = read_number(words)?;
            let settled = self.waits.lost(call, &mut self.table);
            self.tell_settled(settled)
        } else if is_word(name, "end") {
            self.waits.end_session(&mut self.table);
            Ok(())
        } else if is_word(name, "give") {
            self.waits.give_all_up(&mut self.table);
            Ok(())
        } else {
            self.take_look(name, words)
        }
    }

    /// A step that changes nothing.
    fn take_look(&mut self, name: &[u8], words: &mut Words) -> Result<(), Wrong> {
        if is_word(name, "entry") {
            let key = read_bytes(self.alloc, words)?;
            self.tell_entry(&key)
        } else if is_word(name, "quiet") {
            let key = read_bytes(self.alloc, words)?;
            write!(self.told, "{}", self.waits.quiet(&key))?;
            Ok(())
        } else if is_word(name, "since") {
            match self.waits.first_place() {
                None => self.told.push_str("none")?,
                Some(place) => write!(self.told, "{}", place.since)?,
            }
            Ok(())
        } else {
            Err(Wrong::Word)
        }
    }

    fn hold(&mut self, words: &mut Words) -> Result<(), Wrong> {
        let key = read_bytes(self.alloc, words)?;
        let create = read_number(words)?;
        self.table.reserve(1)?;
        if self.table.find(&key).is_some() || self.table.spare() < 1 {
            return Err(Wrong::Word);
        }
        let (kv, phase) = (None, Phase::Held);
        self.table.hold(key, Entry { create, kv, phase });
        Ok(())
    }

    fn ask(&mut self, words: &mut Words) -> Result<(), Wrong> {
        let ticket = read_number(words)?;
        let request = Request::read(self.alloc, words)?;
        self.submit(ticket, request)
    }

    fn submit(&mut self, ticket: u64, request: Request) -> Result<(), Wrong> {
        if !is_write(&request) {
            drop(request);
            return Err(Wrong::Word);
        }
        self.waits.submit(ticket, request)?;
        Ok(())
    }

    fn send(&mut self, words: &mut Words) -> Result<(), Wrong> {
        let call = read_number(words)?;
        let due = self.waits.next_job(call, &mut self.table)?;
        let told = tell_due(&mut self.told, &due);
        drop(due);
        told
    }

    fn answer(&mut self, words: &mut Words) -> Result<(), Wrong> {
        let call = read_number(words)?;
        let session = read_number(words)?;
        let now = read_number(words)?;
        let answer = Answer::read(self.alloc, words)?;
        let session = if session == 0 { None } else { Some(session) };
        match self.waits.read_answer(call, answer, &self.table) {
            Err(NotShape::Shape) => {
                self.told.push_str("shape")?;
                Ok(())
            }
            Err(NotShape::NoMemory) => Err(Wrong::NoMemory),
            Ok(read) => {
                let table = &mut self.table;
                let settled = self.waits.take_answer(call, read, session, now, table)?;
                self.tell_settled(settled)
            }
        }
    }

    fn tell_settled(&mut self, settled: Settled) -> Result<(), Wrong> {
        let told = tell(&mut self.told, &settled);
        drop(settled);
        told
    }

    fn tell_entry(&mut self, key: &Bytes) -> Result<(), Wrong> {
        match self.table.find(key) {
            None => self.told.push_str("none")?,
            Some(entry) => write!(self.told, "{} {}", entry.create, phase(entry.phase))?,
        }
        Ok(())
    }
}

fn is_write(request: &Request) -> bool
    ensures { result ≡ is_write request.now }
{
    matches!(
        request,
        Request::Put(_) | Request::Delete(_) | Request::Txn(_)
    )
}

fn tell_due(out: &mut String, due: &Option<Due>) -> Result<(), Wrong> {
    match due {
        None => out.push_str("nothing")?,
        Some(due) => write!(out, "{} {}", kind(due.kind), due.ticket)?,
    }
    Ok(())
}

fn tell(out: &mut String, settled: &Settled) -> Result<(), Wrong> {
    match settled {
        Settled::Nothing => out.push_str("nothing")?,
        Settled::Reply(ticket, _) => write!(out, "reply {ticket}")?,
        Settled::Failed(ticket) => write!(out, "failed {ticket}")?,
    }
    Ok(())
}

fn kind(kind: DueKind) -> &'static str {
    match kind {
        DueKind::Rescind => "rescind",
        DueKind::AskRevoke => "revoke",
        DueKind::Owner => "owner",
        DueKind::Guest => "guest",
        DueKind::Several => "several",
    }
}

fn phase(phase: Phase) -> &'static str {
    match phase {
        Phase::Held => "held",
        Phase::Writing { revoked: false } => "written",
        Phase::Writing { revoked: true } => "marked",
        Phase::Leaving { sent: false } => "leaving",
        Phase::Leaving { sent: true } => "rescinded",
    }
}
