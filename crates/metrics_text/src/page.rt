ghost use Rattle.std.specs.Prelude.{◌≡◌, ◌++◌, OnOk, IfOk, codes, flat_map};
ghost use Rattle.std.specs.Fmt.{decimal};
ghost use Rattle.metrics_text.specs.Page as spec;

use crate::figures::{Figures, MemberFigure, ReplyFigure};
use crate::fronts::{members_front, page_front, replies_front, tiles_front};
use crate::pieces::{push, push_shown};
use crate::ranges::push_ranges;
use crate::rows::{push_member_row, push_reply_row, push_session_tile, push_share_tile, push_tile};
use etcd_types::NoMemory;
use std::alloc::Global;

#[tactic(auto, unfolding(crate::specs::Page::read_tiles))]
fn push_read_tiles(alloc: Global, text: &mut Vec<u8>, figures: &Figures) -> Result<(), NoMemory>
    ensures { OnOk result (text.new.items ≡ text.old.items ++ spec.read_tiles figures.now) }
{
    let Figures {
        clients,
        machine,
        ..
    } = figures;
    push_tile(alloc, text, b"owned keys", machine.owned)?;
    push_tile(alloc, text, b"reads from memory", clients.cached)?;
    push_tile(alloc, text, b"requests that wait", machine.waiting)
}

#[tactic(auto, unfolding(crate::specs::Page::connections_tile))]
fn push_connections_tile(
    alloc: Global,
    text: &mut Vec<u8>,
    figures: &Figures,
) -> Result<(), NoMemory>
    ensures { OnOk result (text.new.items ≡ text.old.items ++ spec.connections_tile figures.now) }
{
    push_tile(alloc, text, b"connections", figures.clients.open)
}

#[tactic(auto, unfolding(crate::specs::Page::watches_tile))]
fn push_watches_tile(alloc: Global, text: &mut Vec<u8>, figures: &Figures) -> Result<(), NoMemory>
    ensures { OnOk result (text.new.items ≡ text.old.items ++ spec.watches_tile figures.now) }
{
    push_tile(alloc, text, b"watches", figures.clients.watches)
}

#[tactic(auto, unfolding(crate::specs::Page::messages_tile))]
fn push_messages_tile(alloc: Global, text: &mut Vec<u8>, figures: &Figures) -> Result<(), NoMemory>
    ensures { OnOk result (text.new.items ≡ text.old.items ++ spec.messages_tile figures.now) }
{
    push_tile(
        alloc,
        text,
        b"messages of watches",
        figures.clients.messages,
    )
}

#[tactic(auto, unfolding(crate::specs::Page::events_tile))]
fn push_events_tile(alloc: Global, text: &mut Vec<u8>, figures: &Figures) -> Result<(), NoMemory>
    ensures { OnOk result (text.new.items ≡ text.old.items ++ spec.events_tile figures.now) }
{
    push_tile(alloc, text, b"events of watches", figures.clients.events)
}

#[tactic(auto, unfolding(crate::specs::Page::client_tiles))]
fn push_client_tiles(alloc: Global, text: &mut Vec<u8>, figures: &Figures) -> Result<(), NoMemory>
    ensures { OnOk result (text.new.items ≡ text.old.items ++ spec.client_tiles figures.now) }
{
    push_connections_tile(alloc, text, figures)?;
    push_watches_tile(alloc, text, figures)?;
    push_messages_tile(alloc, text, figures)?;
    push_events_tile(alloc, text, figures)
}

#[tactic(auto, unfolding(crate::specs::Page::other_tiles))]
fn push_other_tiles(alloc: Global, text: &mut Vec<u8>, figures: &Figures) -> Result<(), NoMemory>
    ensures { OnOk result (text.new.items ≡ text.old.items ++ spec.other_tiles figures.now) }
{
    let Figures { machine, work, .. } = figures;
    push_tile(alloc, text, b"streams of members", work.streams)?;
    push_share_tile(
        alloc,
        text,
        b"workers inside calls",
        work.busy,
        work.workers,
    )?;
    push_session_tile(alloc, text, b"seconds of the session left", machine.session)?;
    push_tile(alloc, text, b"revision", machine.revision)?;
    push_tile(alloc, text, b"steps", machine.steps)?;
    push_tile(alloc, text, b"calls that no member took", work.untaken)
}

#[tactic(auto, unfolding(crate::specs::Page::tiles))]
fn push_tiles(alloc: Global, text: &mut Vec<u8>, figures: &Figures) -> Result<(), NoMemory>
    ensures { OnOk result (text.new.items ≡ text.old.items ++ spec.tiles figures.now) }
{
    push(text, tiles_front())?;
    push_read_tiles(alloc, text, figures)?;
    push_client_tiles(alloc, text, figures)?;
    push_other_tiles(alloc, text, figures)?;
    push(text, b"</div>\n")
}

fn push_member_rows(alloc: Global, text: &mut Vec<u8>, all: &[MemberFigure]) -> Result<(), NoMemory>
    ensures { OnOk result (text.new.items ≡ text.old.items ++ flat_map spec.member all.now) }
{
    for member in all {
        push_member_row(alloc, text, member)?;
    }
    Ok(())
}

#[tactic(auto, unfolding(crate::specs::Page::members))]
fn push_members(alloc: Global, text: &mut Vec<u8>, all: &[MemberFigure]) -> Result<(), NoMemory>
    ensures { OnOk result (text.new.items ≡ text.old.items ++ spec.members all.now) }
{
    push(text, members_front())?;
    push_member_rows(alloc, text, all)?;
    push(text, b"</table>\n")
}

fn push_reply_rows(alloc: Global, text: &mut Vec<u8>, all: &[ReplyFigure]) -> Result<(), NoMemory>
    ensures { OnOk result (text.new.items ≡ text.old.items ++ flat_map spec.reply all.now) }
{
    for figure in all {
        push_reply_row(alloc, text, figure)?;
    }
    Ok(())
}

#[tactic(auto, unfolding(crate::specs::Page::replies))]
fn push_replies(alloc: Global, text: &mut Vec<u8>, all: &[ReplyFigure]) -> Result<(), NoMemory>
    ensures { OnOk result (text.new.items ≡ text.old.items ++ spec.replies all.now) }
{
    push(text, replies_front())?;
    push_reply_rows(alloc, text, all)?;
    push(text, b"</table>\n")
}

/// What a proxy of this version tells of itself, as a page that a browser loads anew each two seconds.
pub fn page_text(alloc: Global, version: &[u8], figures: &Figures) -> Result<Vec<u8>, NoMemory>
    ensures { IfOk result (λ text. text.items ≡ spec.page_text version.now figures.now) }
{
    let mut text = Vec::new(alloc);
    push(&mut text, page_front())?;
    push_shown(&mut text, version)?;
    push(&mut text, b"</h1>\n")?;
    push_tiles(alloc, &mut text, figures)?;
    push_members(alloc, &mut text, figures.members.as_slice())?;
    push_replies(alloc, &mut text, figures.replies.as_slice())?;
    push_ranges(alloc, &mut text, figures.ranges.as_slice())?;
    push(&mut text, b"</body></html>\n")?;
    Ok(text)
}
