ghost use Rattle.std.specs.Prelude.{◌≡◌, ◌++◌, OnOk, IfOk, codes, flat_map};
ghost use Rattle.metrics_text.specs.Series as spec;

use crate::figures::{ClientFigures, Figures, MachineFigures, ReplyFigure, WorkFigures};
use crate::fronts::build_front;
use crate::members::push_members;
use crate::pieces::{push, push_label};
use crate::series::{push_family, push_reply};
use crate::singles::{
    push_busy, push_cached, push_events, push_messages, push_open, push_opened, push_owned,
    push_revision, push_session, push_steps, push_streams, push_untaken, push_waiting,
    push_watches, push_workers,
};
use etcd_types::NoMemory;
use std::alloc::Global;

/// What stands before the version.
#[tactic(auto, unfolding(crate::specs::Series::build_family))]
fn push_build_family(text: &mut Vec<u8>) -> Result<(), NoMemory>
    ensures { OnOk result (text.new.items ≡ text.old.items ++ spec.build_family) }
{
    push_family(
        text,
        b"etcd_proxy_build_info",
        b"gauge",
        b"The version of the proxy.",
    )
}

#[tactic(auto, unfolding(crate::specs::Series::build))]
fn push_build(text: &mut Vec<u8>, version: &[u8]) -> Result<(), NoMemory>
    ensures { OnOk result (text.new.items ≡ text.old.items ++ spec.build version.now) }
{
    push_build_family(text)?;
    push(text, build_front())?;
    push_label(text, version)?;
    push(text, b"\"} 1\n")
}

#[tactic(auto, unfolding(crate::specs::Series::clients))]
fn push_clients(alloc: Global, text: &mut Vec<u8>, figures: &ClientFigures) -> Result<(), NoMemory>
    ensures { OnOk result (text.new.items ≡ text.old.items ++ spec.clients figures.now) }
{
    push_open(alloc, text, figures)?;
    push_opened(alloc, text, figures)?;
    push_watches(alloc, text, figures)?;
    push_messages(alloc, text, figures)?;
    push_events(alloc, text, figures)?;
    push_cached(alloc, text, figures)
}

#[tactic(auto, unfolding(crate::specs::Series::machine))]
fn push_machine(alloc: Global, text: &mut Vec<u8>, figures: &MachineFigures) -> Result<(), NoMemory>
    ensures { OnOk result (text.new.items ≡ text.old.items ++ spec.machine figures.now) }
{
    push_owned(alloc, text, figures)?;
    push_waiting(alloc, text, figures)?;
    push_steps(alloc, text, figures)?;
    push_revision(alloc, text, figures)?;
    push_session(alloc, text, figures)
}

#[tactic(auto, unfolding(crate::specs::Series::work))]
fn push_work(alloc: Global, text: &mut Vec<u8>, figures: &WorkFigures) -> Result<(), NoMemory>
    ensures { OnOk result (text.new.items ≡ text.old.items ++ spec.work figures.now) }
{
    push_workers(alloc, text, figures)?;
    push_busy(alloc, text, figures)?;
    push_streams(alloc, text, figures)?;
    push_untaken(alloc, text, figures)
}

/// What stands before the replies.
#[tactic(auto, unfolding(crate::specs::Series::replies_family))]
fn push_replies_family(text: &mut Vec<u8>) -> Result<(), NoMemory>
    ensures { OnOk result (text.new.items ≡ text.old.items ++ spec.replies_family) }
{
    push_family(
        text,
        b"etcd_proxy_requests_total",
        b"counter",
        b"Requests of clients that were replied to, by path and status.",
    )
}

fn push_each_reply(alloc: Global, text: &mut Vec<u8>, all: &[ReplyFigure]) -> Result<(), NoMemory>
    ensures { OnOk result (text.new.items ≡ text.old.items ++ flat_map spec.reply all.now) }
{
    for figure in all {
        push_reply(alloc, text, figure)?;
    }
    Ok(())
}

#[tactic(auto, unfolding(crate::specs::Series::replies))]
fn push_replies(alloc: Global, text: &mut Vec<u8>, all: &[ReplyFigure]) -> Result<(), NoMemory>
    ensures { OnOk result (text.new.items ≡ text.old.items ++ spec.replies all.now) }
{
    push_replies_family(text)?;
    push_each_reply(alloc, text, all)
}

/// What a proxy of this version tells of itself, in the text format of Prometheus.
pub fn metrics_text(alloc: Global, version: &[u8], figures: &Figures) -> Result<Vec<u8>, NoMemory>
    ensures { IfOk result (λ text. text.items ≡ spec.metrics_text version.now figures.now) }
{
    let mut text = Vec::new(alloc);
    push_build(&mut text, version)?;
    push_clients(alloc, &mut text, &figures.clients)?;
    push_machine(alloc, &mut text, &figures.machine)?;
    push_work(alloc, &mut text, &figures.work)?;
    push_replies(alloc, &mut text, figures.replies.as_slice())?;
    push_members(alloc, &mut text, figures.members.as_slice())?;
    Ok(text)
}
