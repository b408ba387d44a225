ghost use Rattle.std.specs.Prelude.{◌≡◌, ◌++◌, OnOk, codes};
ghost use Rattle.std.specs.Fmt.{decimal};
ghost use Rattle.metrics_text.specs.Pieces.{fraction};
ghost use Rattle.metrics_text.specs.Page as spec;

use crate::figures::{MemberFigure, ReplyFigure};
use crate::fronts::{host_front, state_front};
use crate::names::{path_of, state_text};
use crate::pieces::{push, push_fraction, push_number, push_shown};
use etcd_types::NoMemory;
use std::alloc::Global;

/// Appends a number with its name.
#[tactic(auto, unfolding(crate::specs::Page::tile))]
pub(crate) fn push_tile(
    alloc: Global,
    text: &mut Vec<u8>,
    name: &[u8],
    value: u64,
) -> Result<(), NoMemory>
    ensures { OnOk result (text.new.items ≡ text.old.items ++ spec.tile name.now (decimal value)) }
{
    push(text, b"<div><b>")?;
    push_number(alloc, text, value)?;
    push(text, b"</b>")?;
    push(text, name)?;
    push(text, b"</div>\n")
}

/// Appends a part of a whole with its name.
#[tactic(auto, unfolding(crate::specs::Page::tile))]
pub(crate) fn push_share_tile(
    alloc: Global,
    text: &mut Vec<u8>,
    name: &[u8],
    part: u64,
    whole: u64,
) -> Result<(), NoMemory>
    ensures { OnOk result (text.new.items ≡ text.old.items ++ spec.tile name.now (spec.share part whole)) }
{
    push(text, b"<div><b>")?;
    push_number(alloc, text, part)?;
    push(text, b" of ")?;
    push_number(alloc, text, whole)?;
    push(text, b"</b>")?;
    push(text, name)?;
    push(text, b"</div>\n")
}

/// Appends so many milliseconds in seconds, with their name.
#[tactic(auto, unfolding(crate::specs::Page::tile))]
pub(crate) fn push_session_tile(
    alloc: Global,
    text: &mut Vec<u8>,
    name: &[u8],
    millis: u64,
) -> Result<(), NoMemory>
    ensures { OnOk result (text.new.items ≡ text.old.items ++ spec.tile name.now (fraction 1000 millis)) }
{
    push(text, b"<div><b>")?;
    push_fraction(alloc, text, 1_000, millis)?;
    push(text, b"</b>")?;
    push(text, name)?;
    push(text, b"</div>\n")
}

/// Appends a cell of a table that has a number.
#[tactic(auto, unfolding(crate::specs::Page::cell))]
pub(crate) fn push_cell(alloc: Global, text: &mut Vec<u8>, value: u64) -> Result<(), NoMemory>
    ensures { OnOk result (text.new.items ≡ text.old.items ++ spec.cell (decimal value)) }
{
    push(text, b"<td>")?;
    push_number(alloc, text, value)?;
    push(text, b"</td>")
}

/// Appends the cell that tells how long a call to a member takes in the mean.
#[tactic(auto, unfolding(crate::specs::Page::cell))]
fn push_mean(alloc: Global, text: &mut Vec<u8>, member: &MemberFigure) -> Result<(), NoMemory>
    ensures { OnOk result (text.new.items ≡ text.old.items ++ spec.cell (spec.mean member.now)) }
{
    push(text, b"<td>")?;
    push_fraction(alloc, text, 1_000, member.micros / member.made.max(1))?;
    push(text, b"</td>")
}

/// Appends the cells that tell which member it is, and how it is.
#[tactic(auto, unfolding(crate::specs::Page::who))]
fn push_who(alloc: Global, text: &mut Vec<u8>, member: &MemberFigure) -> Result<(), NoMemory>
    ensures { OnOk result (text.new.items ≡ text.old.items ++ spec.who member.now) }
{
    push_cell(alloc, text, member.number as u64)?;
    push(text, host_front())?;
    push_shown(text, member.host.as_slice())?;
    push(text, state_front())?;
    push(text, state_text(member.state))?;
    push(text, b"\">")?;
    push(text, state_text(member.state))?;
    push(text, b"</td>")
}

/// Appends the row of a member.
#[tactic(auto, unfolding(crate::specs::Page::member))]
pub(crate) fn push_member_row(
    alloc: Global,
    text: &mut Vec<u8>,
    member: &MemberFigure,
) -> Result<(), NoMemory>
    ensures { OnOk result (text.new.items ≡ text.old.items ++ spec.member member.now) }
{
    push(text, b"<tr>")?;
    push_who(alloc, text, member)?;
    push_cell(alloc, text, member.made)?;
    push_cell(alloc, text, member.lost)?;
    push_mean(alloc, text, member)?;
    push(text, b"</tr>\n")
}

/// Appends the row of what had a path and a status.
#[tactic(auto, unfolding(crate::specs::Page::reply))]
pub(crate) fn push_reply_row(
    alloc: Global,
    text: &mut Vec<u8>,
    figure: &ReplyFigure,
) -> Result<(), NoMemory>
    ensures { OnOk result (text.new.items ≡ text.old.items ++ spec.reply figure.now) }
{
    push(text, b"<tr><td>")?;
    push(text, path_of(figure.kind))?;
    push(text, b"</td>")?;
    push_cell(alloc, text, figure.status as u64)?;
    push_cell(alloc, text, figure.count)?;
    push(text, b"</tr>\n")
}
