//! How many rescinds are to be sent, and where the first of them stands, kept up as rows change.

ghost use Rattle.std.specs.Prelude.{◌≡◌, ◌<◌, ◌≤◌, ◌+◌, ◌^◌, length};
ghost use Rattle.lease_table.specs.Dues.{one_if, due_count, first_due_from, first_of_changed, first_of_added, first_of_removed};

use crate::turns::is_rescind_due;
use proxy_model::Entry;
use slot_rows::SlotRows;

/// The number after one row was changed: `was` and `is` say whether its rescind is to be sent.
pub(crate) fn count_changed(due: usize, was: bool, is: bool) -> usize
    requires counted { one_if was ≤ due }
    requires room { due + one_if is < 2 ^ 64 }
    ensures { result + one_if was ≡ due + one_if is }
{
    match (was, is) {
        (true, false) => due - 1,
        (false, true) => due + 1,
        _ => due,
    }
}

/// The first one after the row at this place was changed.
pub(crate) fn first_of_changed(
    rows: &SlotRows<Entry>,
    due: usize,
    first: usize,
    place: usize,
    is: bool,
) -> usize
    requires counted { due ≡ due_count rows.now.rows }
    requires in_range { place < length rows.now.rows }
    ensures { result ≡ first_of_changed rows.now.rows first place is }
{
    if is {
        if place < first { place } else { first }
    } else if place == first {
        next_due(rows, due, place)
    } else {
        first
    }
}

/// The first one after a row was added at this place.
pub(crate) fn first_of_added(first: usize, place: usize, is: bool) -> usize
    requires room { first + 1 < 2 ^ 64 }
    ensures { result ≡ first_of_added first place is }
{
    if first < place {
        first
    } else if is {
        place
    } else {
        first + 1
    }
}

/// The first one after the row at this place was taken out.
pub(crate) fn first_of_removed(
    rows: &SlotRows<Entry>,
    due: usize,
    first: usize,
    place: usize,
) -> usize
    requires counted { due ≡ due_count rows.now.rows }
    requires in_range { place ≤ length rows.now.rows }
    ensures { result ≡ first_of_removed rows.now.rows first place }
{
    if place < first {
        first - 1
    } else if place == first {
        next_due(rows, due, place)
    } else {
        first
    }
}

/// The first one from this place on. Where no rescind is to be sent it looks at no row.
fn next_due(rows: &SlotRows<Entry>, due: usize, from: usize) -> usize
    requires counted { due ≡ due_count rows.now.rows }
    requires in_range { from ≤ length rows.now.rows }
    ensures { result ≡ first_due_from rows.now.rows from }
{
    if due == 0 {
        rows.len()
    } else {
        seek_due(rows, from)
    }
}

fn seek_due(rows: &SlotRows<Entry>, from: usize) -> usize
    requires { from ≤ length rows.now.rows }
    ensures { result ≡ first_due_from rows.now.rows from }
{
    for place in from..rows.len() {
        if is_rescind_due(&rows.row(place).1) {
            return place;
        }
    }
    rows.len()
}
