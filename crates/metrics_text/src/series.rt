ghost use Rattle.std.specs.Prelude.{◌≡◌, ◌++◌, OnOk, codes, flat_map};
ghost use Rattle.std.specs.Fmt.{decimal};
ghost use Rattle.metrics_text.specs.Pieces.{fraction};
ghost use Rattle.metrics_text.specs.Series as spec;

use crate::figures::{MemberFigure, ReplyFigure};
use crate::fronts::{endpoint_front, reply_front, up_front};
use crate::names::{is_up, path_of};
use crate::pieces::{push, push_fraction, push_label, push_number};
use etcd_types::NoMemory;
use std::alloc::Global;

/// Appends what stands before the samples of a family.
#[tactic(auto, unfolding(crate::specs::Series::family))]
pub(crate) fn push_family(
    text: &mut Vec<u8>,
    name: &[u8],
    kind: &[u8],
    help: &[u8],
) -> Result<(), NoMemory>
    ensures { OnOk result (text.new.items ≡ text.old.items ++ spec.family name.now kind.now help.now) }
{
    push(text, b"# HELP ")?;
    push(text, name)?;
    push(text, b" ")?;
    push(text, help)?;
    push(text, b"\n# TYPE ")?;
    push(text, name)?;
    push(text, b" ")?;
    push(text, kind)?;
    push(text, b"\n")
}

/// Appends a family whose one sample is a number.
#[tactic(auto, unfolding(crate::specs::Series::single))]
fn push_single(
    alloc: Global,
    text: &mut Vec<u8>,
    name: &[u8],
    kind: &[u8],
    help: &[u8],
    value: u64,
) -> Result<(), NoMemory>
    ensures { OnOk result (text.new.items ≡ text.old.items ++ spec.single name.now kind.now help.now (decimal value)) }
{
    push_family(text, name, kind, help)?;
    push(text, name)?;
    push(text, b" ")?;
    push_number(alloc, text, value)?;
    push(text, b"\n")
}

#[tactic(auto, unfolding(crate::specs::Series::gauge))]
pub(crate) fn push_gauge(
    alloc: Global,
    text: &mut Vec<u8>,
    name: &[u8],
    help: &[u8],
    value: u64,
) -> Result<(), NoMemory>
    ensures { OnOk result (text.new.items ≡ text.old.items ++ spec.gauge name.now help.now value) }
{
    push_single(alloc, text, name, b"gauge", help, value)
}

#[tactic(auto, unfolding(crate::specs::Series::counter))]
pub(crate) fn push_counter(
    alloc: Global,
    text: &mut Vec<u8>,
    name: &[u8],
    help: &[u8],
    value: u64,
) -> Result<(), NoMemory>
    ensures { OnOk result (text.new.items ≡ text.old.items ++ spec.counter name.now help.now value) }
{
    push_single(alloc, text, name, b"counter", help, value)
}

/// Appends a family whose one sample is so many milliseconds in seconds.
#[tactic(auto, unfolding(crate::specs::Series::single))]
pub(crate) fn push_seconds(
    alloc: Global,
    text: &mut Vec<u8>,
    name: &[u8],
    help: &[u8],
    millis: u64,
) -> Result<(), NoMemory>
    ensures { OnOk result (text.new.items ≡ text.old.items ++ spec.single name.now (codes "gauge") help.now (fraction 1000 millis)) }
{
    push_family(text, name, b"gauge", help)?;
    push(text, name)?;
    push(text, b" ")?;
    push_fraction(alloc, text, 1_000, millis)?;
    push(text, b"\n")
}

/// Appends how many requests of a kind had a status.
#[tactic(auto, unfolding(crate::specs::Series::reply))]
pub(crate) fn push_reply(
    alloc: Global,
    text: &mut Vec<u8>,
    figure: &ReplyFigure,
) -> Result<(), NoMemory>
    ensures { OnOk result (text.new.items ≡ text.old.items ++ spec.reply figure.now) }
{
    push(text, reply_front())?;
    push(text, path_of(figure.kind))?;
    push(text, b"\",code=\"")?;
    push_number(alloc, text, figure.status as u64)?;
    push(text, b"\"} ")?;
    push_number(alloc, text, figure.count)?;
    push(text, b"\n")
}

/// Appends what stands before the value in a member's sample.
#[tactic(auto, unfolding(crate::specs::Series::labelled))]
fn push_member(
    alloc: Global,
    text: &mut Vec<u8>,
    name: &[u8],
    member: &MemberFigure,
) -> Result<(), NoMemory>
    ensures { OnOk result (text.new.items ≡ text.old.items ++ spec.labelled name.now member.now) }
{
    push(text, name)?;
    push(text, b"{member=\"")?;
    push_number(alloc, text, member.number as u64)?;
    push(text, b"\"} ")
}

/// Appends which member it is whose state is told.
#[tactic(auto, unfolding(crate::specs::Series::up_of))]
fn push_up_of(alloc: Global, text: &mut Vec<u8>, member: &MemberFigure) -> Result<(), NoMemory>
    ensures { OnOk result (text.new.items ≡ text.old.items ++ spec.up_of member.now) }
{
    push(text, up_front())?;
    push_number(alloc, text, member.number as u64)?;
    push(text, endpoint_front())?;
    push_label(text, member.host.as_slice())
}

#[tactic(auto, unfolding(crate::specs::Series::up))]
pub(crate) fn push_up(
    alloc: Global,
    text: &mut Vec<u8>,
    member: &MemberFigure,
) -> Result<(), NoMemory>
    ensures { OnOk result (text.new.items ≡ text.old.items ++ spec.up member.now) }
{
    push_up_of(alloc, text, member)?;
    push(text, b"\"} ")?;
    push_number(alloc, text, is_up(member.state))?;
    push(text, b"\n")
}

#[tactic(auto, unfolding(crate::specs::Series::made, crate::specs::Series::sample))]
pub(crate) fn push_made(
    alloc: Global,
    text: &mut Vec<u8>,
    member: &MemberFigure,
) -> Result<(), NoMemory>
    ensures { OnOk result (text.new.items ≡ text.old.items ++ spec.made member.now) }
{
    push_member(alloc, text, b"etcd_proxy_member_calls_total", member)?;
    push_number(alloc, text, member.made)?;
    push(text, b"\n")
}

#[tactic(auto, unfolding(crate::specs::Series::seconds, crate::specs::Series::sample))]
pub(crate) fn push_took(
    alloc: Global,
    text: &mut Vec<u8>,
    member: &MemberFigure,
) -> Result<(), NoMemory>
    ensures { OnOk result (text.new.items ≡ text.old.items ++ spec.seconds member.now) }
{
    push_member(alloc, text, b"etcd_proxy_member_call_seconds_total", member)?;
    push_fraction(alloc, text, 1_000_000, member.micros)?;
    push(text, b"\n")
}

#[tactic(auto, unfolding(crate::specs::Series::lost, crate::specs::Series::sample))]
pub(crate) fn push_lost(
    alloc: Global,
    text: &mut Vec<u8>,
    member: &MemberFigure,
) -> Result<(), NoMemory>
    ensures { OnOk result (text.new.items ≡ text.old.items ++ spec.lost member.now) }
{
    push_member(alloc, text, b"etcd_proxy_member_calls_lost_total", member)?;
    push_number(alloc, text, member.lost)?;
    push(text, b"\n")
}
