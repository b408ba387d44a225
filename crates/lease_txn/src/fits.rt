ghost use Rattle.std.specs.Prelude.{◌≡◌, None, Some, MatchOption};
ghost use Rattle.std.specs.List.{list_all};
ghost use Rattle.std.specs.Option.{option_copied};
ghost use Rattle.etcd_types.specs.Ranges.{contains};
ghost use Rattle.proxy_model.specs.Fits.{branch_of, fits, fits_all, fits_txn, fits_range, are_records_of, is_put, is_delete};
ghost use Rattle.proxy_model.specs.Readings.{record_of, records_of, first_of};

use etcd_types::{Body, KeyRange, Kv, List, Op, TxnAsk};

/// Which branch of a transaction ran, with its bodies.
#[tactic(auto, using(proxy_model::proofs::FitsLaws::of_fits))]
pub(crate) fn branch_of(body: &Body) -> Option<(bool, &[Body])>
    ensures { MatchOption result (branch_of body.now ≡ None) (λ ran. branch_of body.now ≡ Some (ran.0, ran.1.now)) }
{
    match body {
        Body::Txn { succeeded, bodies } => Some((*succeeded, bodies.as_slice())),
        _ => None,
    }
}

/// Whether the body is one that a range request of this range can have.
pub(crate) fn fits_range(range: &KeyRange, body: &Body) -> bool
    ensures { result ≡ fits_range range.now body.now }
{
    match body {
        Body::Range { kvs, .. } => are_records_of(range, kvs.as_slice()),
        _ => false,
    }
}

fn are_records_of(range: &KeyRange, kvs: &[Kv]) -> bool
    ensures { result ≡ are_records_of range.now kvs.now }
{
    let few = !range.is_one() || kvs.len() <= 1;
    few && all_in(range, kvs)
}

fn all_in(range: &KeyRange, kvs: &[Kv]) -> bool
    ensures { result ≡ list_all (λ kv. contains range.now kv.key) kvs.now }
{
    kvs.iter().all(|kv| range.contains(&kv.key))
}

pub(crate) fn is_put(body: &Body) -> bool
    ensures { result ≡ is_put body.now }
{
    match body {
        Body::Put { .. } => true,
        _ => false,
    }
}

pub(crate) fn is_delete(body: &Body) -> bool
    ensures { result ≡ is_delete body.now }
{
    match body {
        Body::Delete { .. } => true,
        _ => false,
    }
}

/// Whether the body is one that the transaction can have.
#[cycle(fits)]
pub(crate) fn fits_txn(txn: &TxnAsk, body: &Body) -> bool
    ensures { result ≡ fits_txn txn.now body.now }
{
    match branch_of(body) {
        None => false,
        Some((true, bodies)) => fits_all(&txn.success, bodies),
        Some((false, bodies)) => fits_all(&txn.failure, bodies),
    }
}

#[cycle(fits)]
#[tactic(auto, using(proxy_model::proofs::FitsLaws::of_fits))]
fn fits_op(op: &Op, body: &Body) -> bool
    ensures { result ≡ fits op.now body.now }
{
    match op {
        Op::Range(ask) => fits_range(&ask.range, body),
        Op::Put(_) => is_put(body),
        Op::Delete(_) => is_delete(body),
        Op::Txn(txn) => fits_txn(txn, body),
    }
}

#[cycle(fits)]
#[tactic(auto, using(crate::proofs::Uneven::of_lengths))]
fn fits_all(ops: &List<Op>, bodies: &[Body]) -> bool
    ensures { result ≡ fits_all ops.now bodies.now }
{
    if ops.len() != bodies.len() {
        return false;
    }
    for (at, op) in ops.as_slice().iter().enumerate() {
        if !fits_op(op, &bodies[at]) {
            return false;
        }
    }
    true
}

/// The first record of the body at this place.
pub(crate) fn record_of(bodies: &[Body], at: usize) -> Option<&Kv>
    ensures { option_copied result ≡ record_of bodies.now at }
{
    match bodies.get(at) {
        None => None,
        Some(body) => first_record(body),
    }
}

fn first_record(body: &Body) -> Option<&Kv>
    ensures { option_copied result ≡ first_of (records_of body.now) }
{
    match body {
        Body::Range { kvs, .. } => kvs.as_slice().first(),
        _ => None,
    }
}
