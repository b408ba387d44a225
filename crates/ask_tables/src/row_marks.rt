ghost use Rattle.std.specs.Prelude.{◌≡◌, true, if◌then◌else◌, Some, None};
ghost use Rattle.std.specs.Option.{option_copied};
ghost use Rattle.ask_tables.specs.Marks.{is_narrow};
ghost use Rattle.ask_tables.specs.RowMarks.{row_mark, has_key, by_group, by_time, group_kind, marks_of};

use crate::key_marks::key_mark;
use crate::marks::mark_of;
use crate::stages::is_replied;
use etcd_types::Request;
use mark_rows::Mark;
use read_model::{Asked, Stage};
use wait_model::Sending;

/// The marks that a request is found by.
#[derive(Debug, Drop)]
pub struct RowMarks {
    /// What it waits for.
    pub wait: Mark,
    /// The key at which it waits as a read.
    pub key: Mark,
    /// The lease whose next call it waits for.
    pub group: Mark,
    /// When it was asked, while it has no reply.
    pub time: Mark,
}

/// The marks of the request under this number.
pub fn marks_of(ask: &Asked, number: u64) -> RowMarks
    ensures marks { result ≡ marks_of number ask.now }
    ensures narrow { is_narrow ask.now ≡ true }
{
    RowMarks {
        wait: mark_of(ask),
        key: key_mark(ask),
        group: group_mark(ask, number),
        time: time_mark(ask, number),
    }
}

/// Keepalives whose group is due come first, then those that wait for the next one, each by their lease.
pub(crate) fn group_mark(ask: &Asked, number: u64) -> Mark
    ensures { result ≡ row_mark by_group number ask.now }
{
    match &ask.request {
        Request::KeepAlive { lease } => Mark::new(group_kind(&ask.stage), *lease, number),
        _ => Mark::new(NO_GROUP, 0, number),
    }
}

/// Of keepalives whose group is due.
pub const GROUP_DUE: u64 = 0;

/// Of keepalives that wait for the next call of their group.
pub const GROUP_NEXT: u64 = 1;

/// Of all other requests.
const NO_GROUP: u64 = 2;

fn group_kind(stage: &Stage) -> u64
    ensures { result ≡ group_kind stage.now }
{
    match stage {
        Stage::Grouped(None) => GROUP_NEXT,
        Stage::Grouped(Some(Sending::Due { .. })) => GROUP_DUE,
        _ => NO_GROUP,
    }
}

/// Those without a reply come first, by the time of asking.
pub(crate) fn time_mark(ask: &Asked, number: u64) -> Mark
    ensures { result ≡ row_mark by_time number ask.now }
{
    if is_replied(&ask.stage) {
        Mark::new(1, 0, number)
    } else {
        Mark::new(0, ask.asked, number)
    }
}

/// The request, where it is a keepalive of this kind and lease.
pub fn only_keyed(ask: &Asked, kind: u64, lease: u64) -> Option<&Asked>
    ensures { option_copied result ≡ (if has_key by_group kind lease ask.now then Some ask.now else None) }
{
    if is_keyed(ask, kind, lease) {
        Some(ask)
    } else {
        None
    }
}

fn is_keyed(ask: &Asked, kind: u64, lease: u64) -> bool
    ensures { result ≡ has_key by_group kind lease ask.now }
{
    match &ask.request {
        Request::KeepAlive { lease: number } => group_kind(&ask.stage) == kind && *number == lease,
        _ => NO_GROUP == kind && 0 == lease,
    }
}
