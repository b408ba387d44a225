ghost use Rattle.std.specs.Prelude.{◌≡◌, map, IfOk};
ghost use Rattle.std.specs.Option.{option_copied};
ghost use Rattle.known_asks.specs.Changes.{restaged, staged_by};
ghost use Rattle.read_model.specs.Acquires.{acquires_at, told_lost};
ghost use Rattle.read_model.specs.PlainRead.{ask_key, shown};
ghost use Rattle.read_core.specs.Readers.{readers_stage, reading_stage, joined_stage, lost-ticket};

use crate::decisions::called;
use crate::records::shown;
use crate::standing::key_of;
use etcd_types::{Bytes, Header, Kv, NoMemory};
use known_asks::{
    Asked, Asks, Restage, Rule, Stage, change_waiting_at, lose_once, waiting_changes_at,
};
use std::alloc::Global;

/// What the reads of a key come to when its acquire is answered.
#[derive(Drop)]
struct Readers<'a> {
    key: &'a Bytes,
    header: Header,
    kv: Option<&'a Kv>,
    held: Option<Header>,
    step: u64,
}

impl<'a> Restage for Readers<'a> {
    ghost stage_of = { λ s. readers_stage s.key.now (shown s.header (option_copied s.kv)) (joined_stage s.held (option_copied s.kv) s.step) };

    fn stage(&self, alloc: Global, ask: &Asked) -> Result<Option<Stage>, NoMemory> {
        let empty = Bytes::new(alloc);
        if key_of(&ask.request, &empty) != self.key {
            return Ok(None);
        }
        match ask.stage {
            Stage::Acquiring => Ok(Some(shown(alloc, self.header, self.kv)?)),
            Stage::Joined => Ok(Some(self.joined(alloc)?)),
            _ => Ok(None),
        }
    }
}

impl<'a> Readers<'a> {
    /// The stage of a read that joined.
    fn joined(&self, alloc: Global) -> Result<Stage, NoMemory>
        ensures { IfOk result (λ stage. stage ≡ joined_stage self.now.held (option_copied self.now.kv) self.now.step) }
    {
        match self.held {
            Some(header) => Ok(shown(alloc, header, self.kv)?),
            None => Ok(called(self.step)),
        }
    }
}

/// What the reads of the key come to when its acquire is answered, by ticket: the read that it was for is replied with the record that
/// came with this header, or that there is none. The reads that joined are answered with the header `held` where there is one, as the key
/// is held then; else each becomes a call, due since this step. Nothing is changed yet. It looks at the reads of the key alone.
pub fn reader_changes(
    alloc: Global,
    asks: &Asks,
    key: &Bytes,
    header: Header,
    kv: Option<&Kv>,
    held: Option<Header>,
    step: u64,
) -> Result<Vec<(u64, Stage)>, NoMemory>
    ensures { IfOk result (λ changes. restaged changes.items asks.now
        ≡ map (staged_by (readers_stage key.now (shown header (option_copied kv.entry))
        (joined_stage held (option_copied kv.entry) step))) asks.now) }
{
    let readers = Readers {
        key,
        header,
        kv,
        held,
        step,
    };
    Ok(waiting_changes_at(alloc, asks, key, &readers)?)
}

/// The acquire of the key was lost, and with it a call of the read that it was for.
#[derive(Drop)]
struct LostReader<'a> {
    alloc: Global,
    key: &'a Bytes,
    members: u32,
    step: u64,
}

impl<'a> Rule for LostReader<'a> {
    ghost changed = { λ s. told_lost s.members s.step s.key.now };

    fn change(&self, ask: &mut Asked) {
        let empty = Bytes::new(self.alloc);
        if acquires_at(ask, key_of(&ask.request, &empty), self.key) {
            lose_once(ask, self.members, self.step);
        }
    }

    ghost keeps = { λ s a. lost-ticket s.members s.step s.key.now a };
}

/// Whether the acquire of the key is for this read, whose own key is handed in.
fn acquires_at(ask: &Asked, own: &Bytes, key: &Bytes) -> bool
    requires { own.now ≡ ask_key ask.now }
    ensures { result ≡ acquires_at key.now ask.now }
{
    matches!(ask.stage, Stage::Acquiring) && own == key
}

/// The acquire of the key was lost: the read that it was for is due as a call since this step, until one was lost for each member. It
/// looks at the reads of the key alone, and takes no memory.
pub fn lose_reader(alloc: Global, asks: &mut Asks, key: &Bytes, members: u32, step: u64)
    ensures { asks.new ≡ map (told_lost members step key.now) asks.old }
{
    let rule = LostReader {
        alloc,
        key,
        members,
        step,
    };
    change_waiting_at(asks, key, &rule);
}
