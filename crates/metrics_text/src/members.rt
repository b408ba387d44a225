ghost use Rattle.std.specs.Prelude.{◌≡◌, ◌++◌, OnOk, codes, flat_map};
ghost use Rattle.metrics_text.specs.Series as spec;

use crate::figures::MemberFigure;
use crate::series::{push_family, push_lost, push_made, push_took, push_up};
use etcd_types::NoMemory;
use std::alloc::Global;

fn push_each_up(alloc: Global, text: &mut Vec<u8>, all: &[MemberFigure]) -> Result<(), NoMemory>
    ensures { OnOk result (text.new.items ≡ text.old.items ++ flat_map spec.up all.now) }
{
    for member in all {
        push_up(alloc, text, member)?;
    }
    Ok(())
}

fn push_each_made(alloc: Global, text: &mut Vec<u8>, all: &[MemberFigure]) -> Result<(), NoMemory>
    ensures { OnOk result (text.new.items ≡ text.old.items ++ flat_map spec.made all.now) }
{
    for member in all {
        push_made(alloc, text, member)?;
    }
    Ok(())
}

fn push_each_took(alloc: Global, text: &mut Vec<u8>, all: &[MemberFigure]) -> Result<(), NoMemory>
    ensures { OnOk result (text.new.items ≡ text.old.items ++ flat_map spec.seconds all.now) }
{
    for member in all {
        push_took(alloc, text, member)?;
    }
    Ok(())
}

fn push_each_lost(alloc: Global, text: &mut Vec<u8>, all: &[MemberFigure]) -> Result<(), NoMemory>
    ensures { OnOk result (text.new.items ≡ text.old.items ++ flat_map spec.lost all.now) }
{
    for member in all {
        push_lost(alloc, text, member)?;
    }
    Ok(())
}

/// What stands before the members that are up.
#[tactic(auto, unfolding(crate::specs::Series::up_family))]
fn push_up_family(text: &mut Vec<u8>) -> Result<(), NoMemory>
    ensures { OnOk result (text.new.items ≡ text.old.items ++ spec.up_family) }
{
    push_family(
        text,
        b"etcd_proxy_member_up",
        b"gauge",
        b"Whether calls go to a member.",
    )
}

/// What stands before the calls.
#[tactic(auto, unfolding(crate::specs::Series::made_family))]
fn push_made_family(text: &mut Vec<u8>) -> Result<(), NoMemory>
    ensures { OnOk result (text.new.items ≡ text.old.items ++ spec.made_family) }
{
    push_family(
        text,
        b"etcd_proxy_member_calls_total",
        b"counter",
        b"Calls to a member that ended.",
    )
}

/// What stands before the times.
#[tactic(auto, unfolding(crate::specs::Series::seconds_family))]
fn push_took_family(text: &mut Vec<u8>) -> Result<(), NoMemory>
    ensures { OnOk result (text.new.items ≡ text.old.items ++ spec.seconds_family) }
{
    push_family(
        text,
        b"etcd_proxy_member_call_seconds_total",
        b"counter",
        b"Time that calls to a member took.",
    )
}

/// What stands before the lost calls.
#[tactic(auto, unfolding(crate::specs::Series::lost_family))]
fn push_lost_family(text: &mut Vec<u8>) -> Result<(), NoMemory>
    ensures { OnOk result (text.new.items ≡ text.old.items ++ spec.lost_family) }
{
    push_family(
        text,
        b"etcd_proxy_member_calls_lost_total",
        b"counter",
        b"Calls to a member whose answer was lost.",
    )
}

#[tactic(auto, unfolding(crate::specs::Series::first_families))]
fn push_first_families(
    alloc: Global,
    text: &mut Vec<u8>,
    all: &[MemberFigure],
) -> Result<(), NoMemory>
    ensures { OnOk result (text.new.items ≡ text.old.items ++ spec.first_families all.now) }
{
    push_up_family(text)?;
    push_each_up(alloc, text, all)?;
    push_made_family(text)?;
    push_each_made(alloc, text, all)
}

#[tactic(auto, unfolding(crate::specs::Series::other_families))]
fn push_other_families(
    alloc: Global,
    text: &mut Vec<u8>,
    all: &[MemberFigure],
) -> Result<(), NoMemory>
    ensures { OnOk result (text.new.items ≡ text.old.items ++ spec.other_families all.now) }
{
    push_took_family(text)?;
    push_each_took(alloc, text, all)?;
    push_lost_family(text)?;
    push_each_lost(alloc, text, all)
}

/// Appends what is told of members.
#[tactic(auto, unfolding(crate::specs::Series::members))]
pub(crate) fn push_members(
    alloc: Global,
    text: &mut Vec<u8>,
    all: &[MemberFigure],
) -> Result<(), NoMemory>
    ensures { OnOk result (text.new.items ≡ text.old.items ++ spec.members all.now) }
{
    push_first_families(alloc, text, all)?;
    push_other_families(alloc, text, all)
}
