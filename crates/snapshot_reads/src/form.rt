ghost use Rattle.std.specs.Prelude.{◌≡◌};
ghost use Rattle.std.specs.List.{list_all};
ghost use Rattle.proxy_model.specs.Snapshot.{is_snapshot, names_nothing, is_plain, is_plain_read, compares_one, is_unsorted};

use etcd_types::{Compare, List, Op, RangeAsk, Sort, TxnAsk};

/// The most compares or operations of one list.
const LIST_LIMIT: usize = 128;

/// Whether the transaction is of reads and compares of single keys as they are now, and no list is too long.
pub(crate) fn is_snapshot(txn: &TxnAsk) -> bool
    ensures { result ≡ is_snapshot txn.now }
{
    txn.compare.len() <= LIST_LIMIT
        && txn.success.len() <= LIST_LIMIT
        && txn.failure.len() <= LIST_LIMIT
        && compare_ones(&txn.compare)
        && are_plain_reads(&txn.success)
        && are_plain_reads(&txn.failure)
}

pub(crate) fn names_nothing(txn: &TxnAsk) -> bool
    ensures { result ≡ names_nothing txn.now }
{
    txn.compare.len() == 0 && txn.success.len() == 0 && txn.failure.len() == 0
}

fn compare_ones(compares: &List<Compare>) -> bool
    ensures { result ≡ list_all compares_one compares.now }
{
    compares
        .as_slice()
        .iter()
        .all(|compare| compare.range.is_one())
}

fn are_plain_reads(ops: &List<Op>) -> bool
    ensures { result ≡ list_all is_plain_read ops.now }
{
    ops.as_slice().iter().all(|op| is_plain_read(op))
}

fn is_plain_read(op: &Op) -> bool
    ensures { result ≡ is_plain_read op.now }
{
    match op {
        Op::Range(ask) => is_plain(ask),
        _ => false,
    }
}

/// Whether it reads one key as it is now, and shows the whole record.
pub fn is_plain(ask: &RangeAsk) -> bool
    ensures { result ≡ is_plain ask.now }
{
    ask.range.is_one()
        && ask.revision == 0
        && !ask.serializable
        && !ask.keys_only
        && !ask.count_only
        && is_unsorted(ask.sort)
}

fn is_unsorted(sort: Sort) -> bool
    ensures { result ≡ is_unsorted sort }
{
    sort.order == 0
        && sort.target == 0
        && sort.min_mod == 0
        && sort.max_mod == 0
        && sort.min_create == 0
        && sort.max_create == 0
}
