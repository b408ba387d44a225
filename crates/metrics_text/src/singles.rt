// Families of one sample each.
ghost use Rattle.std.specs.Prelude.{◌≡◌, ◌++◌, OnOk};
ghost use Rattle.metrics_text.specs.Series as spec;

use crate::figures::{ClientFigures, MachineFigures, WorkFigures};
use crate::series::{push_counter, push_gauge, push_seconds};
use etcd_types::NoMemory;
use std::alloc::Global;

#[tactic(auto, unfolding(crate::specs::Series::open_series))]
pub(crate) fn push_open(
    alloc: Global,
    text: &mut Vec<u8>,
    figures: &ClientFigures,
) -> Result<(), NoMemory>
    ensures { OnOk result (text.new.items ≡ text.old.items ++ spec.open_series figures.now) }
{
    push_gauge(
        alloc,
        text,
        b"etcd_proxy_connections",
        b"Connections of clients that are open.",
        figures.open,
    )
}

#[tactic(auto, unfolding(crate::specs::Series::opened_series))]
pub(crate) fn push_opened(
    alloc: Global,
    text: &mut Vec<u8>,
    figures: &ClientFigures,
) -> Result<(), NoMemory>
    ensures { OnOk result (text.new.items ≡ text.old.items ++ spec.opened_series figures.now) }
{
    push_counter(
        alloc,
        text,
        b"etcd_proxy_connections_opened_total",
        b"Connections of clients that were opened.",
        figures.opened,
    )
}

#[tactic(auto, unfolding(crate::specs::Series::watches_series))]
pub(crate) fn push_watches(
    alloc: Global,
    text: &mut Vec<u8>,
    figures: &ClientFigures,
) -> Result<(), NoMemory>
    ensures { OnOk result (text.new.items ≡ text.old.items ++ spec.watches_series figures.now) }
{
    push_gauge(
        alloc,
        text,
        b"etcd_proxy_watches",
        b"Watches that are being served.",
        figures.watches,
    )
}

#[tactic(auto, unfolding(crate::specs::Series::messages_series))]
pub(crate) fn push_messages(
    alloc: Global,
    text: &mut Vec<u8>,
    figures: &ClientFigures,
) -> Result<(), NoMemory>
    ensures { OnOk result (text.new.items ≡ text.old.items ++ spec.messages_series figures.now) }
{
    push_counter(
        alloc,
        text,
        b"etcd_proxy_watch_messages_total",
        b"Messages that watches were sent.",
        figures.messages,
    )
}

#[tactic(auto, unfolding(crate::specs::Series::events_series))]
pub(crate) fn push_events(
    alloc: Global,
    text: &mut Vec<u8>,
    figures: &ClientFigures,
) -> Result<(), NoMemory>
    ensures { OnOk result (text.new.items ≡ text.old.items ++ spec.events_series figures.now) }
{
    push_counter(
        alloc,
        text,
        b"etcd_proxy_watch_events_total",
        b"Events that watches were sent.",
        figures.events,
    )
}

#[tactic(auto, unfolding(crate::specs::Series::cached_series))]
pub(crate) fn push_cached(
    alloc: Global,
    text: &mut Vec<u8>,
    figures: &ClientFigures,
) -> Result<(), NoMemory>
    ensures { OnOk result (text.new.items ≡ text.old.items ++ spec.cached_series figures.now) }
{
    push_counter(
        alloc,
        text,
        b"etcd_proxy_cached_reads_total",
        b"Reads that were answered from memory.",
        figures.cached,
    )
}

#[tactic(auto, unfolding(crate::specs::Series::owned_series))]
pub(crate) fn push_owned(
    alloc: Global,
    text: &mut Vec<u8>,
    figures: &MachineFigures,
) -> Result<(), NoMemory>
    ensures { OnOk result (text.new.items ≡ text.old.items ++ spec.owned_series figures.now) }
{
    push_gauge(
        alloc,
        text,
        b"etcd_proxy_owned_keys",
        b"Keys that the proxy owns.",
        figures.owned,
    )
}

#[tactic(auto, unfolding(crate::specs::Series::waiting_series))]
pub(crate) fn push_waiting(
    alloc: Global,
    text: &mut Vec<u8>,
    figures: &MachineFigures,
) -> Result<(), NoMemory>
    ensures { OnOk result (text.new.items ≡ text.old.items ++ spec.waiting_series figures.now) }
{
    push_gauge(
        alloc,
        text,
        b"etcd_proxy_requests_waiting",
        b"Requests that have no reply yet.",
        figures.waiting,
    )
}

#[tactic(auto, unfolding(crate::specs::Series::steps_series))]
pub(crate) fn push_steps(
    alloc: Global,
    text: &mut Vec<u8>,
    figures: &MachineFigures,
) -> Result<(), NoMemory>
    ensures { OnOk result (text.new.items ≡ text.old.items ++ spec.steps_series figures.now) }
{
    push_counter(
        alloc,
        text,
        b"etcd_proxy_steps_total",
        b"Steps of the proxy.",
        figures.steps,
    )
}

#[tactic(auto, unfolding(crate::specs::Series::revision_series))]
pub(crate) fn push_revision(
    alloc: Global,
    text: &mut Vec<u8>,
    figures: &MachineFigures,
) -> Result<(), NoMemory>
    ensures { OnOk result (text.new.items ≡ text.old.items ++ spec.revision_series figures.now) }
{
    push_gauge(
        alloc,
        text,
        b"etcd_proxy_revision",
        b"Highest revision of the store that the proxy was told.",
        figures.revision,
    )
}

#[tactic(auto, unfolding(crate::specs::Series::session_series))]
pub(crate) fn push_session(
    alloc: Global,
    text: &mut Vec<u8>,
    figures: &MachineFigures,
) -> Result<(), NoMemory>
    ensures { OnOk result (text.new.items ≡ text.old.items ++ spec.session_series figures.now) }
{
    push_seconds(
        alloc,
        text,
        b"etcd_proxy_session_remaining_seconds",
        b"Time until the proxy's session ends.",
        figures.session,
    )
}

#[tactic(auto, unfolding(crate::specs::Series::workers_series))]
pub(crate) fn push_workers(
    alloc: Global,
    text: &mut Vec<u8>,
    figures: &WorkFigures,
) -> Result<(), NoMemory>
    ensures { OnOk result (text.new.items ≡ text.old.items ++ spec.workers_series figures.now) }
{
    push_gauge(
        alloc,
        text,
        b"etcd_proxy_workers",
        b"Workers that make calls.",
        figures.workers,
    )
}

#[tactic(auto, unfolding(crate::specs::Series::busy_series))]
pub(crate) fn push_busy(
    alloc: Global,
    text: &mut Vec<u8>,
    figures: &WorkFigures,
) -> Result<(), NoMemory>
    ensures { OnOk result (text.new.items ≡ text.old.items ++ spec.busy_series figures.now) }
{
    push_gauge(
        alloc,
        text,
        b"etcd_proxy_workers_busy",
        b"Workers that are inside a call.",
        figures.busy,
    )
}

#[tactic(auto, unfolding(crate::specs::Series::streams_series))]
pub(crate) fn push_streams(
    alloc: Global,
    text: &mut Vec<u8>,
    figures: &WorkFigures,
) -> Result<(), NoMemory>
    ensures { OnOk result (text.new.items ≡ text.old.items ++ spec.streams_series figures.now) }
{
    push_gauge(
        alloc,
        text,
        b"etcd_proxy_member_streams",
        b"Streams of members that are followed.",
        figures.streams,
    )
}

#[tactic(auto, unfolding(crate::specs::Series::untaken_series))]
pub(crate) fn push_untaken(
    alloc: Global,
    text: &mut Vec<u8>,
    figures: &WorkFigures,
) -> Result<(), NoMemory>
    ensures { OnOk result (text.new.items ≡ text.old.items ++ spec.untaken_series figures.now) }
{
    push_counter(
        alloc,
        text,
        b"etcd_proxy_calls_untaken_total",
        b"Calls that no member took.",
        figures.untaken,
    )
}
