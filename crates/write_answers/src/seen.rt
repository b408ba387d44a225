ghost use Rattle.std.specs.Prelude.{◌≡◌, ℕ, ◌&&◌, Option, Some};
ghost use Rattle.std.specs.Option.{option_copied, option_map};
ghost use Rattle.etcd_types.specs.Keys.{same};
ghost use Rattle.proxy_model.specs.Keyed.{at};
ghost use Rattle.proxy_model.specs.LeaseTable.{unwritten, phase_after_write};
ghost use Rattle.revoke_calls.specs.Ends.{all_wrote, wrote_turn};
ghost use Rattle.revoke_calls.specs.Failed.{failed_entries};
ghost use Rattle.wait_model.specs.Phases.{is_of};
ghost use Rattle.revoke_calls.specs.declared.entries.Fate.TheVariants.{Back};
ghost use Rattle.revoke_core.specs.Answers.{rescinded_entries};
ghost use Rattle.revoke_core.specs.Readings.{read_entries, failed_if};
ghost use Rattle.revoke_core.specs.Steps.{settled_if};
ghost use Rattle.write_answers.specs.Seen.{what, what_of, what_in, what_back, neither, is_lost};

use etcd_types::{Bytes, Kv};
use lease_table::{Entry, LeaseTable, Phase};
use proxy_model::Owner;
use revoke_calls::{Lefts, is_gone, is_of, is_single, owns_at};
use revoke_core::ReadAnswer;
use wait_model::Write;

/// What a plain read comes upon at its key.
#[derive(Clone, Copy, Debug, PartialEq, Eq)]
pub enum Sight {
    /// An entry that is held.
    Held,
    /// An owner write.
    Written,
    /// None of both.
    Neither,
}

/// What a plain read comes upon at its key, and the record that it shows where the key is held.
#[derive(Drop)]
pub(crate) struct Seen<'a> {
    pub(crate) sight: Sight,
    pub(crate) kv: Option<&'a Kv>,
}

/// What is seen at the key once the answer that was read is taken. The write is that whose own call it answers.
pub(crate) fn seen_after<'a>(
    read: &'a ReadAnswer,
    write: Option<&Write>,
    key: &Bytes,
    table: &'a LeaseTable,
) -> Seen<'a>
    ensures { (session : Option ℕ) → what result ≡ what_of (at (read_entries session read.now (option_copied write.entry) table.now.entries) key.now) }
{
    match read {
        ReadAnswer::Nothing | ReadAnswer::Asked { .. } | ReadAnswer::AskRefused { .. } => {
            seen_in(table.find(key))
        }
        ReadAnswer::Rescinded { key: own, create } => seen_rescinded(own, *create, key, table),
        ReadAnswer::Refused { .. } => seen_refused(write, key, table),
        ReadAnswer::Wrote { lefts, .. } => seen_wrote(lefts, key, table),
        ReadAnswer::Blocked { owners } => seen_blocked(owners.as_slice(), write, key, table),
    }
}

fn seen_rescinded<'a>(own: &Bytes, create: u64, key: &Bytes, table: &'a LeaseTable) -> Seen<'a>
    ensures { what result ≡ what_of (at (rescinded_entries own.now create table.now.entries) key.now) }
{
    if is_rescinded(own, create, key, table) {
        neither()
    } else {
        seen_in(table.find(key))
    }
}

/// Whether the key is the one that was given up, and its entry of this create revision.
fn is_rescinded(own: &Bytes, create: u64, key: &Bytes, table: &LeaseTable) -> bool
    ensures { result ≡ (same own.now key.now && is_of create (at table.now.entries own.now)) }
{
    own == key && is_of(table.find(own), create)
}

fn seen_refused<'a>(write: Option<&Write>, key: &Bytes, table: &'a LeaseTable) -> Seen<'a>
    ensures { what result ≡ what_of (at (settled_if Back (option_copied write.entry) table.now.entries) key.now) }
{
    match write {
        Some(write) => seen_back(write, key, table),
        None => seen_in(table.find(key)),
    }
}

/// What is seen where the entries that the write compared are held again as they were.
fn seen_back<'a>(write: &Write, key: &Bytes, table: &'a LeaseTable) -> Seen<'a>
    ensures { what result ≡ what_back write.now table.now.entries key.now }
{
    if owns_at(write, key, table) {
        unwritten(table.find(key))
    } else {
        seen_in(table.find(key))
    }
}

fn seen_wrote<'a>(lefts: &'a Lefts, key: &Bytes, table: &'a LeaseTable) -> Seen<'a>
    ensures { what result ≡ what_of (at (all_wrote lefts.now table.now.entries) key.now) }
{
    match lefts.find(key) {
        Some(left) => wrote(left.kv.as_ref(), table.find(key)),
        None => seen_in(table.find(key)),
    }
}

fn seen_blocked<'a>(
    owners: &[Owner],
    write: Option<&Write>,
    key: &Bytes,
    table: &'a LeaseTable,
) -> Seen<'a>
    ensures { (session : Option ℕ) → what result ≡ what_of (at (failed_if session owners.now (option_copied write.entry) table.now.entries) key.now) }
{
    match write {
        Some(write) => seen_failed(owners, write, key, table),
        None => seen_in(table.find(key)),
    }
}

/// What is seen where the write failed, and these owners were shown.
fn seen_failed<'a>(owners: &[Owner], write: &Write, key: &Bytes, table: &'a LeaseTable) -> Seen<'a>
    ensures { (session : Option ℕ) → what result ≡ what_of (at (failed_entries session write.now owners.now table.now.entries) key.now) }
{
    if is_lost(owners, write, key, table) {
        neither()
    } else {
        seen_back(write, key, table)
    }
}

/// Whether the key's entry, which the write compared, is gone: it is the write's only one, or no owner shows it.
fn is_lost(owners: &[Owner], write: &Write, key: &Bytes, table: &LeaseTable) -> bool
    ensures { result ≡ is_lost write.now owners.now table.now.entries key.now }
{
    if is_single(&write.request) {
        owns_at(write, key, table)
    } else {
        is_gone(write, owners, key, table)
    }
}

/// What is seen where nothing is held or written.
fn neither<'a>() -> Seen<'a>
    ensures { what result ≡ neither }
{
    Seen {
        sight: Sight::Neither,
        kv: None,
    }
}

fn seen_in<'a>(entry: Option<&'a Entry>) -> Seen<'a>
    ensures { what result ≡ what_of (option_copied entry.entry) }
{
    match entry {
        Some(entry) => seen_by(entry.phase, entry.kv.as_ref()),
        None => neither(),
    }
}

fn seen_by<'a>(phase: Phase, kv: Option<&'a Kv>) -> Seen<'a>
    ensures { what result ≡ what_in phase (option_copied kv.entry) }
{
    match phase {
        Phase::Held => Seen {
            sight: Sight::Held,
            kv,
        },
        Phase::Writing { .. } => Seen {
            sight: Sight::Written,
            kv: None,
        },
        Phase::Leaving { .. } => neither(),
    }
}

/// What is seen where the entry's owner write is over and wasn't done.
fn unwritten<'a>(entry: Option<&'a Entry>) -> Seen<'a>
    ensures { what result ≡ what_of (option_map unwritten (option_copied entry.entry)) }
{
    match entry {
        Some(entry) => over(entry.phase, entry.kv.as_ref()),
        None => neither(),
    }
}

/// What is seen where the entry's owner write, if it is written, is over and left this record.
fn wrote<'a>(left: Option<&'a Kv>, entry: Option<&'a Entry>) -> Seen<'a>
    ensures { what result ≡ what_of (wrote_turn (option_copied left.entry) (option_copied entry.entry)) }
{
    match entry {
        Some(entry) => wrote_over(left, entry),
        None => neither(),
    }
}

fn wrote_over<'a>(left: Option<&'a Kv>, entry: &'a Entry) -> Seen<'a>
    ensures { what result ≡ what_of (wrote_turn (option_copied left.entry) (Some entry.now)) }
{
    match entry.phase {
        Phase::Writing { .. } => over(entry.phase, left),
        Phase::Held | Phase::Leaving { .. } => seen_by(entry.phase, entry.kv.as_ref()),
    }
}

/// The entry's owner write is over, and its record is this.
fn over<'a>(phase: Phase, kv: Option<&'a Kv>) -> Seen<'a>
    ensures { what result ≡ what_in (phase_after_write phase) (option_copied kv.entry) }
{
    match phase {
        Phase::Held | Phase::Writing { revoked: false } => Seen {
            sight: Sight::Held,
            kv,
        },
        Phase::Writing { revoked: true } | Phase::Leaving { .. } => neither(),
    }
}
