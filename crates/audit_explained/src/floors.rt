// Sessions that expire too early.

use crate::said::{Said, tell};
use audit_past::{Trace, last, mark_at, proxy_at};
use etcd_types::NoMemory;
use script_text::Item;
use std::alloc::Global;

/// Where the call was sent that is executed at the place.
fn sent_for(items: &[Item], executed: Option<usize>) -> Option<usize> {
    match mark_at(items, executed) {
        Some(mark) => last(Trace::Sends(mark.number), items),
        None => None,
    }
}

/// A session that expires before its floor. Both readings are in milliseconds.
pub(crate) fn early_said(
    alloc: Global,
    items: &[Item],
    lease: u64,
    clock: u64,
    floor: u64,
) -> Result<Said, NoMemory> {
    let granted = last(Trace::Grants(lease), items);
    let kept = last(Trace::Keeps(lease), items);
    let sent = sent_for(items, granted);
    let proxy = proxy_at(items, sent).unwrap_or(0);
    tell(
        alloc,
        "the clock of proxy # reads # ms, and the session of lease # lives until # ms at the least",
        &[proxy, clock, lease, floor],
        &[
            sent,
            granted,
            sent_for(items, kept),
            kept,
            last(Trace::Clock(proxy), items),
        ],
    )
}
