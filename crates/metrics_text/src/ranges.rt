// The table of the ranges whose streams brought the most messages.
ghost use Rattle.std.specs.Prelude.{◌≡◌, ◌++◌, OnOk, codes, flat_map};
ghost use Rattle.std.specs.Fmt.{decimal};
ghost use Rattle.metrics_text.specs.Page as spec;

use crate::figures::RangeFigure;
use crate::fronts::{host_front, ranges_front};
use crate::pieces::{push, push_shown};
use crate::rows::push_cell;
use etcd_types::NoMemory;
use std::alloc::Global;

/// Appends the cells with a range's keys.
#[tactic(auto, unfolding(crate::specs::Page::keys))]
fn push_keys(text: &mut Vec<u8>, figure: &RangeFigure) -> Result<(), NoMemory>
    ensures { OnOk result (text.new.items ≡ text.old.items ++ spec.keys figure.now) }
{
    push(text, b"<tr><td>")?;
    push_shown(text, figure.first.as_slice())?;
    push(text, b"</td>")?;
    push(text, host_front())?;
    push_shown(text, figure.end.as_slice())?;
    push(text, b"</td>")
}

/// Appends the row of a range.
#[tactic(auto, unfolding(crate::specs::Page::range))]
fn push_range_row(alloc: Global, text: &mut Vec<u8>, figure: &RangeFigure) -> Result<(), NoMemory>
    ensures { OnOk result (text.new.items ≡ text.old.items ++ spec.range figure.now) }
{
    push_keys(text, figure)?;
    push_cell(alloc, text, figure.messages)?;
    push(text, b"</tr>\n")
}

fn push_range_rows(alloc: Global, text: &mut Vec<u8>, all: &[RangeFigure]) -> Result<(), NoMemory>
    ensures { OnOk result (text.new.items ≡ text.old.items ++ flat_map spec.range all.now) }
{
    for figure in all {
        push_range_row(alloc, text, figure)?;
    }
    Ok(())
}

/// Appends the table.
#[tactic(auto, unfolding(crate::specs::Page::ranges))]
pub(crate) fn push_ranges(
    alloc: Global,
    text: &mut Vec<u8>,
    all: &[RangeFigure],
) -> Result<(), NoMemory>
    ensures { OnOk result (text.new.items ≡ text.old.items ++ spec.ranges all.now) }
{
    push(text, ranges_front())?;
    push_range_rows(alloc, text, all)?;
    push(text, b"</table>\n")
}
