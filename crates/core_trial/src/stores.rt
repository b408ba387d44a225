ghost use Rattle.std.specs.Prelude.{◌<◌, ◌≤◌, ◌^◌, OnOk, IfOk};
ghost use Rattle.store_model.specs.History.{newest};
ghost use Rattle.store_model.specs.State.{State, HasMember};
ghost use Rattle.store_model.specs.Step.{IsExecuted};
ghost use Rattle.store_world.specs.Store.{Stands};

use etcd_types::{Answer, Request, WatchAsk, WatchItem};
use message_text::Text;
use std::alloc::Global;
use store_world::{Store, StoreFault};
use table_rows::Wrong;
use text_words::{Words, is_word, read_number, read_number_within};

const MOST_REVISIONS: u64 = 1_000_000;

const MOST_TIMES: u64 = 10_000;

/// A store, and what came of the last step that was tried on it.
#[derive(Debug, Drop)]
pub struct Stores {
    alloc: Global,
    store: Store,
    told: String,
}

impl Stores {
    pub fn new(alloc: Global) -> Result<Stores, Wrong> {
        Ok(Stores {
            alloc,
            store: Store::new(alloc, 1)?,
            told: String::new(alloc),
        })
    }

    /// What came of the last step: an answer's or a message's text, a watch's number, or why the step was not taken.
    pub fn told(&self) -> &str {
        self.told.as_str().trim_end()
    }

    /// Takes a step.
    pub fn step(&mut self, line: &str) -> Result<(), Wrong> {
        self.told = String::new(self.alloc);
        let mut words = Words::of(b' ', line.as_bytes());
        self.take_step(&mut words)?;
        words.end()?;
        Ok(())
    }

    fn take_step(&mut self, words: &mut Words) -> Result<(), Wrong> {
        let name = words.take()?;
        if is_word(name, "store") {
            self.renew(words)
        } else if is_word(name, "exec") {
            self.execute(words)
        } else if is_word(name, "compact") {
            self.compact(words)
        } else if is_word(name, "open") {
            self.open_watch(words)
        } else if is_word(name, "times") {
            self.execute_and_push(words)
        } else if is_word(name, "kept") {
            self.tell_kept()
        } else {
            self.take_step_with_fault(name, words)
        }
    }

    fn take_step_with_fault(&mut self, name: &[u8], words: &mut Words) -> Result<(), Wrong> {
        if is_word(name, "expire") {
            let lease = read_number(words)?;
            self.check_room()?;
            tell_done(&mut self.told, self.store.expire(lease))
        } else if is_word(name, "apply") {
            let member = read_member(words)?;
            let revision = read_number(words)?;
            tell_done(&mut self.told, self.store.apply(member, revision))
        } else if is_word(name, "push") {
            let watch = read_number(words)?;
            tell_item(&mut self.told, self.store.push(watch))
        } else if is_word(name, "progress") {
            let watch = read_number(words)?;
            tell_item(&mut self.told, self.store.progress(watch))
        } else {
            Err(Wrong::Word)
        }
    }

    fn renew(&mut self, words: &mut Words) -> Result<(), Wrong> {
        let members = read_member(words)?;
        if members == 0 {
            return Err(Wrong::Word);
        }
        self.store = Store::new(self.alloc, members)?;
        Ok(())
    }

    fn execute(&mut self, words: &mut Words) -> Result<(), Wrong> {
        let member = read_member(words)?;
        let request = Request::read(self.alloc, words)?;
        self.execute_at(member, &request)
    }

    fn execute_at(&mut self, member: u32, request: &Request) -> Result<(), Wrong> {
        check_executed(request)?;
        self.check_member(member)?;
        self.check_room()?;
        tell_answer(&mut self.told, self.store.execute_at(member, request)?)
    }

    fn compact(&mut self, words: &mut Words) -> Result<(), Wrong> {
        let revision = read_number(words)?;
        tell_answer(&mut self.told, self.store.compact(revision)?)
    }

    /// Does a request so many times, with a push of the watch after each.
    fn execute_and_push(&mut self, words: &mut Words) -> Result<(), Wrong> {
        let times = read_number_within(words, 0, MOST_TIMES)?;
        let watch = read_number(words)?;
        let member = read_member(words)?;
        let request = Request::read(self.alloc, words)?;
        self.repeat(times, watch, member, &request)
    }

    fn repeat(
        &mut self,
        times: u64,
        watch: u64,
        member: u32,
        request: &Request,
    ) -> Result<(), Wrong> {
        for _ in 0..times {
            self.execute_at(member, request)?;
            self.told = String::new(self.alloc);
            tell_item(&mut self.told, self.store.push(watch))?;
        }
        Ok(())
    }

    /// How many versions the store keeps.
    fn tell_kept(&mut self) -> Result<(), Wrong> {
        let kept = self.store.kept();
        kept.push(&mut self.told)?;
        Ok(())
    }

    fn open_watch(&mut self, words: &mut Words) -> Result<(), Wrong> {
        let member = read_member(words)?;
        let ask = WatchAsk::read(self.alloc, words)?;
        self.open_watch_at(member, &ask)
    }

    fn open_watch_at(&mut self, member: u32, ask: &WatchAsk) -> Result<(), Wrong> {
        self.check_member(member)?;
        let number = self.store.open_watch(member, ask)?;
        number.push(&mut self.told)?;
        Ok(())
    }

    /// The store has this member.
    fn check_member(&self, member: u32) -> Result<(), Wrong>
        ensures { OnOk result ((s : State) → Stands self.now.store s → HasMember s member) }
    {
        if member == 0 || self.store.members() < u64::from(member) {
            return Err(Wrong::Word);
        }
        Ok(())
    }

    /// The store has room for more revisions.
    fn check_room(&self) -> Result<(), Wrong>
        ensures { OnOk result ((s : State) → Stands self.now.store s → newest s.history < 2 ^ 63) }
    {
        if self.store.newest() > MOST_REVISIONS {
            return Err(Wrong::Word);
        }
        Ok(())
    }
}

fn tell_done(told: &mut String, done: Result<(), StoreFault>) -> Result<(), Wrong> {
    match done {
        Ok(()) => told.push_str("done")?,
        Err(fault) => write!(told, "{fault}")?,
    }
    Ok(())
}

fn tell_answer(told: &mut String, answer: Answer) -> Result<(), Wrong> {
    let pushed = answer.push(told);
    drop(answer);
    pushed?;
    Ok(())
}

fn tell_item(told: &mut String, pushed: Result<WatchItem, StoreFault>) -> Result<(), Wrong> {
    match pushed {
        Ok(item) => item.push(told)?,
        Err(fault) => write!(told, "{fault}")?,
    }
    Ok(())
}

/// A member's number, which the store may not have.
fn read_member(words: &mut Words) -> Result<u32, Wrong>
    ensures { IfOk result (λ member. member ≤ 9) }
{
    let member = read_number_within(words, 0, 9)?;
    Ok(member as u32)
}

/// A store executes every request but a watch, which is opened.
fn check_executed(request: &Request) -> Result<(), Wrong>
    ensures { OnOk result (IsExecuted request.now) }
{
    match request {
        Request::Watch(_) => Err(Wrong::Word),
        Request::Range(_)
        | Request::Put(_)
        | Request::Delete(_)
        | Request::Txn(_)
        | Request::Compact { .. }
        | Request::Grant { .. }
        | Request::Revoke { .. }
        | Request::KeepAlive { .. }
        | Request::TimeToLive { .. }
        | Request::Leases => Ok(()),
    }
}
