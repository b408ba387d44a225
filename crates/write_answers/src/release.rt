ghost use Rattle.std.specs.Prelude.{◌≡◌, IfOk};
ghost use Rattle.std.specs.Option.{option_copied};
ghost use Rattle.read_core.specs.Falls.{again_stage};
ghost use Rattle.read_model.specs.PlainRead.{ask_key};
ghost use Rattle.read_model.specs.Release.{names};
ghost use Rattle.revoke_core.specs.Readings.{read_entries};
ghost use Rattle.write_answers.specs.Reach.{at_key};
ghost use Rattle.write_answers.specs.Seen.{what, seen_stage, is_written, waits, stands_by};

use crate::seen::{Seen, Sight, seen_after};
use acquire_rows::Acquires;
use core_model::Acquire;
use etcd_types::{Bytes, Header, NoMemory};
use known_asks::{Asked, Restage, Stage};
use lease_table::LeaseTable;
use read_core::{key_of, shown};
use revoke_core::ReadAnswer;
use std::alloc::Global;
use wait_model::{Sending, Write};

/// A read whose owner write is no more once the answer is taken is decided by what its key has then. The table is as it was before.
#[derive(Drop)]
pub(crate) struct After<'a> {
    pub(crate) header: Header,
    pub(crate) step: u64,
    /// The number of the live session.
    pub(crate) session: Option<u64>,
    pub(crate) read: &'a ReadAnswer,
    /// The write whose own call is answered.
    pub(crate) write: Option<&'a Write>,
    pub(crate) table: &'a LeaseTable,
    pub(crate) acquires: &'a Acquires,
}

impl<'a> Restage for After<'a> {
    ghost stage_of = { λ s. again_stage s.header s.step (read_entries s.session s.read.now (option_copied s.write) s.table.now.entries) s.acquires.now };

    fn stage(&self, alloc: Global, ask: &Asked) -> Result<Option<Stage>, NoMemory> {
        let empty = Bytes::new(alloc);
        let key = key_of(&ask.request, &empty);
        Ok(self.stage_at(alloc, ask, key)?)
    }
}

impl<'a> After<'a> {
    /// The stage that the request comes into, whose key this is; nothing where it stays.
    fn stage_at(&self, alloc: Global, ask: &Asked, key: &Bytes) -> Result<Option<Stage>, NoMemory>
        requires { key.now ≡ ask_key ask.now }
        ensures { IfOk result (λ stage. stage
            ≡ again_stage self.now.header self.now.step
            (read_entries self.now.session self.now.read.now (option_copied self.now.write)
            self.now.table.now.entries)
            self.now.acquires.now ask.now) }
    {
        if !waits(&ask.stage) {
            return Ok(None);
        }
        let seen = seen_after(self.read, self.write, key, self.table);
        if stands_by(ask, seen.sight, self.acquires.find(key)) {
            return Ok(None);
        }
        Ok(Some(seen_stage(alloc, self.header, self.step, seen)?))
    }
}

/// The same of the reads of one key alone.
#[derive(Drop)]
pub(crate) struct AfterAt<'a> {
    pub(crate) key: &'a Bytes,
    pub(crate) after: After<'a>,
}

impl<'a> Restage for AfterAt<'a> {
    ghost stage_of = { λ s. at_key s.key.now (again_stage s.after.header s.after.step
        (read_entries s.after.session s.after.read.now (option_copied s.after.write)
        s.after.table.now.entries)
        s.after.acquires.now) };

    fn stage(&self, alloc: Global, ask: &Asked) -> Result<Option<Stage>, NoMemory> {
        let empty = Bytes::new(alloc);
        let own = key_of(&ask.request, &empty);
        if own != self.key {
            return Ok(None);
        }
        Ok(self.after.stage_at(alloc, ask, own)?)
    }
}

/// Whether it waits for an acquire or an owner write.
fn waits(stage: &Stage) -> bool
    ensures { result ≡ waits stage.now }
{
    matches!(stage, Stage::Acquiring | Stage::Joined | Stage::Behind)
}

/// Whether what the read waits for stands, by what is seen at its key and by the key's acquire.
fn stands_by(ask: &Asked, sight: Sight, acquire: Option<&Acquire>) -> bool
    ensures { result ≡ stands_by ask.now.ticket sight (option_copied acquire.entry) ask.now.stage }
{
    match ask.stage {
        Stage::Acquiring => names(ask.ticket, acquire),
        Stage::Joined => acquire.is_some(),
        Stage::Behind => is_written(sight),
        _ => true,
    }
}

fn names(ticket: u64, acquire: Option<&Acquire>) -> bool
    ensures { result ≡ names ticket (option_copied acquire.entry) }
{
    match acquire {
        Some(acquire) => acquire.ticket == ticket,
        None => false,
    }
}

fn is_written(sight: Sight) -> bool
    ensures { result ≡ is_written sight }
{
    matches!(sight, Sight::Written)
}

/// The stage of a read that sees this.
fn seen_stage(alloc: Global, header: Header, step: u64, seen: Seen) -> Result<Stage, NoMemory>
    ensures { IfOk result (λ stage. stage ≡ seen_stage header step (what seen.entry)) }
{
    match seen.sight {
        Sight::Held => Ok(shown(alloc, header, seen.kv)?),
        Sight::Written => Ok(Stage::Behind),
        Sight::Neither => Ok(Stage::Calling(Sending::Due { since: step })),
    }
}
