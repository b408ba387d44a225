ghost use Rattle.std.specs.Prelude.{◌≡◌, IsTrue, is_some, []};
ghost use Rattle.std.specs.List.{list_any, list_all};
ghost use Rattle.std.specs.Option.{option_copied};
ghost use Rattle.etcd_types.specs.Keys.{same};
ghost use Rattle.etcd_types.specs.Ranges.{overlaps, is_one, contains};
ghost use Rattle.proxy_model.specs.Keyed.{at};
ghost use Rattle.proxy_model.specs.LeaseTable.{given_up};
ghost use Rattle.wait_model.specs.Covers.{shares, meets, covered, is_by_keys, leases, op_leases, leased};
ghost use Rattle.wait_model.specs.Edits.{each};
ghost use Rattle.wait_model.specs.Passes.{turn_if, goes};
ghost use Rattle.wait_model.specs.Phases.{is_leaving};
ghost use Rattle.wait_model.specs.SeveralKeys.{by_ranges, ranges_begun, given_up_over, spoiled_over, any_covered};
ghost use Rattle.wait_model.specs.SingleKeys.{by_keys, keys_begun, let_go_leased, begun_over, any_key};
ghost use Rattle.wait_model.specs.Stages.{stage_on, is_found_over, is_over, is_waiting};
ghost use Rattle.revoke_core.specs.Keeping.{is_kept};
ghost use Rattle.revoke_core.specs.Steps.{begun_at, let_go_at};

use etcd_types::{Bytes, KeyRange, Op, PutAsk, Request};
use keyed_rows::Rows;
use lease_table::{Entry, LeaseTable, Phase};
use revoke_calls::is_held;
use wait_model::{Asking, Found, Sending, Write, WriteStage};

/// Whether some key is written by both.
pub(crate) fn shares(write: &Write, other: &Write) -> bool
    ensures { result ≡ shares write.now other.now }
{
    let own = write.ranges.as_slice();
    other
        .ranges
        .as_slice()
        .iter()
        .any(|range| meets(own, range))
}

fn meets(ranges: &[KeyRange], range: &KeyRange) -> bool
    ensures { result ≡ meets ranges.now range.now }
{
    ranges.iter().any(|other| range.overlaps(other))
}

/// The write's turn.
pub(crate) fn take_turn(
    write: &mut Write,
    blocked: bool,
    spoiled: &mut Rows<bool>,
    table: &mut LeaseTable,
    step: u64,
)
    ensures write { write.new ≡ (turn_if step blocked table.old.entries spoiled.old write.old).write }
    ensures spoiled { spoiled.new ≡ (turn_if step blocked table.old.entries spoiled.old write.old).spoiled }
    ensures entries { table.new.entries ≡ (turn_if step blocked table.old.entries spoiled.old write.old).entries }
{
    go_back(&mut write.stage);
    if is_waiting(&write.stage) && !blocked {
        go(write, spoiled, table, step);
    }
}

fn go_back(stage: &mut WriteStage)
    ensures { stage.new ≡ stage_on stage.old }
{
    if is_found_over(stage) {
        *stage = WriteStage::Waiting;
    }
}

/// Whether it waits for its turn, or does so from now on.
pub(crate) fn waits_now(stage: &WriteStage) -> bool
    ensures { result ≡ is_waiting (stage_on stage.now) }
{
    is_waiting(stage) || is_found_over(stage)
}

pub(crate) fn is_found_over(stage: &WriteStage) -> bool
    ensures { result ≡ is_found_over stage.now }
{
    match stage {
        WriteStage::Finds { found } => are_over(found.as_slice()),
        _ => false,
    }
}

fn are_over(found: &[Found]) -> bool
    ensures { result ≡ list_all is_over found.now }
{
    found.iter().all(|one| is_over(one))
}

fn is_over(found: &Found) -> bool
    ensures { result ≡ is_over found.now }
{
    found.gone && !matches!(found.revoke, Asking::Out { .. })
}

pub(crate) fn is_waiting(stage: &WriteStage) -> bool
    ensures { result ≡ is_waiting stage.now }
{
    matches!(stage, WriteStage::Waiting)
}

fn go(write: &mut Write, spoiled: &mut Rows<bool>, table: &mut LeaseTable, step: u64)
    ensures write { write.new ≡ (goes step table.old.entries spoiled.old write.old).write }
    ensures spoiled { spoiled.new ≡ (goes step table.old.entries spoiled.old write.old).spoiled }
    ensures entries { table.new.entries ≡ (goes step table.old.entries spoiled.old write.old).entries }
{
    if is_by_keys(write) {
        by_keys(write, spoiled, table, step);
    } else {
        by_ranges(write, spoiled, table, step);
    }
}

fn is_by_keys(write: &Write) -> bool
    ensures { result ≡ is_by_keys write.now }
{
    write.ranges.as_slice().iter().all(|range| range.is_one())
}

/// Whether it waits, and its turn changes nothing whatever earlier writes there are: an acquire of a key of its own is due or out, or an
/// entry of one leaves, and it gives none up.
pub(crate) fn is_kept(write: &Write, spoiled: &Rows<bool>, table: &LeaseTable) -> bool
    ensures { result ≡ is_kept table.now.entries spoiled.now write.now }
{
    waits_now(&write.stage)
        && is_by_keys(write)
        && (is_claimed(write, spoiled) || (is_left(write, table) && !is_any_leased(write)))
}

/// Whether it puts a key of its own with a lease.
fn is_any_leased(write: &Write) -> bool
    ensures { result ≡ any_key write.now (leased write.now.request) }
{
    write
        .ranges
        .as_slice()
        .iter()
        .any(|range| is_leased(&write.request, &range.key))
}

fn by_keys(write: &mut Write, spoiled: &Rows<bool>, table: &mut LeaseTable, step: u64)
    requires { IsTrue (is_by_keys write.old) }
    ensures write { write.new ≡ (by_keys step table.old.entries spoiled.now write.old).write }
    ensures entries { table.new.entries ≡ (by_keys step table.old.entries spoiled.now write.old).entries }
{
    if !is_claimed(write, spoiled) {
        let_go(write, table);
        begin_keys(write, table, step);
    }
}

fn begin_keys(write: &mut Write, table: &mut LeaseTable, step: u64)
    requires { IsTrue (is_by_keys write.old) }
    ensures write { write.new ≡ (keys_begun step table.old.entries [] write.old).write }
    ensures entries { table.new.entries ≡ (keys_begun step table.old.entries [] write.old).entries }
{
    if !is_left(write, table) {
        let owner = has_entry(write, table);
        begin(write, table);
        let since = step;
        write.stage = WriteStage::Sends {
            owner,
            sending: Sending::Due { since },
        };
    }
}

/// Whether an acquire of a key that it writes is due or out.
fn is_claimed(write: &Write, spoiled: &Rows<bool>) -> bool
    ensures { result ≡ any_key write.now (λ k. is_some (at spoiled.now k)) }
{
    write
        .ranges
        .as_slice()
        .iter()
        .any(|range| spoiled.find(&range.key).is_some())
}

fn is_left(write: &Write, table: &LeaseTable) -> bool
    ensures { result ≡ any_key write.now (λ k. is_leaving (at table.now.entries k)) }
{
    write
        .ranges
        .as_slice()
        .iter()
        .any(|range| is_leaving(table.find(&range.key)))
}

fn has_entry(write: &Write, table: &LeaseTable) -> bool
    ensures { result ≡ any_key write.now (λ k. is_some (at table.now.entries k)) }
{
    write
        .ranges
        .as_slice()
        .iter()
        .any(|range| table.find(&range.key).is_some())
}

fn is_leaving(entry: Option<&Entry>) -> bool
    ensures { result ≡ is_leaving (option_copied entry.entry) }
{
    match entry {
        Some(
            Entry {
                phase: Phase::Leaving { .. },
                ..
            },
        ) => true,
        _ => false,
    }
}

/// Gives up what is held of the keys that it puts with a lease.
fn let_go(write: &Write, table: &mut LeaseTable)
    requires { IsTrue (is_by_keys write.now) }
    ensures { table.new.entries ≡ each (let_go_leased write.now) table.old.entries }
{
    for range in write.ranges.as_slice() {
        let_go_key(&write.request, &range.key, table);
    }
}

fn let_go_key(request: &Request, key: &Bytes, table: &mut LeaseTable)
    ensures { table.new.entries ≡ each (let_go_at request.now key.now) table.old.entries }
{
    // For the prover: the entries are in the order of their keys.
    let _count = table.len();
    if is_held(table.find(key)) && is_leased(request, key) {
        table.leave(key);
    }
}

/// Writes what is held of its keys.
fn begin(write: &Write, table: &mut LeaseTable)
    requires { IsTrue (is_by_keys write.now) }
    ensures { table.new.entries ≡ each (begun_over write.now) table.old.entries }
{
    for range in write.ranges.as_slice() {
        begin_key(&range.key, table);
    }
}

fn begin_key(key: &Bytes, table: &mut LeaseTable)
    ensures { table.new.entries ≡ each (begun_at key.now) table.old.entries }
{
    // For the prover: the entries are in the order of their keys.
    let _count = table.len();
    if is_held(table.find(key)) {
        table.begin_write(key);
    }
}

fn is_leased(request: &Request, key: &Bytes) -> bool
    ensures { result ≡ leased request.now key.now }
{
    match request {
        Request::Put(ask) => leases(key, ask),
        Request::Txn(txn) => {
            any_leases(key, txn.success.as_slice()) || any_leases(key, txn.failure.as_slice())
        }
        _ => false,
    }
}

fn any_leases(key: &Bytes, ops: &[Op]) -> bool
    ensures { result ≡ list_any (op_leases key.now) ops.now }
{
    ops.iter().any(|op| op_leases(key, op))
}

fn op_leases(key: &Bytes, op: &Op) -> bool
    ensures { result ≡ op_leases key.now op.now }
{
    match op {
        Op::Put(ask) => leases(key, ask),
        _ => false,
    }
}

fn leases(key: &Bytes, ask: &PutAsk) -> bool
    ensures { result ≡ leases key.now ask.now }
{
    ask.lease != 0 && ask.key == *key
}

fn by_ranges(write: &mut Write, spoiled: &mut Rows<bool>, table: &mut LeaseTable, step: u64)
    ensures write { write.new ≡ (by_ranges step table.old.entries spoiled.old write.old).write }
    ensures spoiled { spoiled.new ≡ (by_ranges step table.old.entries spoiled.old write.old).spoiled }
    ensures entries { table.new.entries ≡ (by_ranges step table.old.entries spoiled.old write.old).entries }
{
    give_up(write, table);
    spoil(write, spoiled);
    if !has_any(write, table) && !has_claims(write, spoiled) {
        let since = step;
        write.stage = WriteStage::Sends {
            owner: false,
            sending: Sending::Due { since },
        };
    }
}

fn give_up(write: &Write, table: &mut LeaseTable)
    ensures { table.new.entries ≡ each (given_up_over write.now) table.old.entries }
{
    for range in write.ranges.as_slice() {
        table.leave_range(range);
    }
}

fn spoil(write: &Write, spoiled: &mut Rows<bool>)
    ensures { spoiled.new ≡ each (spoiled_over write.now) spoiled.old }
{
    spoiled.raise_in(write.ranges.as_slice());
}

/// Whether the write covers the key.
pub(crate) fn covers(write: &Write, key: &Bytes) -> bool
    ensures { result ≡ covered write.now.ranges key.now }
{
    write
        .ranges
        .as_slice()
        .iter()
        .any(|range| range.contains(key))
}

/// Whether a key that it writes has an entry. It looks at the ends of its ranges alone.
fn has_any(write: &Write, table: &LeaseTable) -> bool
    ensures { result ≡ any_covered write.now table.now.entries }
{
    is_any_in(write.ranges.as_slice(), table)
}

fn is_any_in(ranges: &[KeyRange], table: &LeaseTable) -> bool
    ensures { result ≡ list_any (λ r. list_any (λ e. contains r e.0) table.now.entries) ranges.now }
{
    ranges.iter().any(|range| table.has_in(range))
}

fn has_claims(write: &Write, spoiled: &Rows<bool>) -> bool
    ensures { result ≡ any_covered write.now spoiled.now }
{
    spoiled.as_slice().iter().any(|row| covers(write, &row.0))
}
