ghost use Rattle.std.specs.Prelude.{◌≡◌, List, ℕ};
ghost use Rattle.std.specs.Option.{option_copied};
ghost use Rattle.write_answers.specs.Reach.{reaches, reached, write_reaches, ranges_reach, lefts_reach};

use etcd_types::{Bytes, KeyRange};
use revoke_calls::Left;
use revoke_core::ReadAnswer;
use wait_model::Write;

/// At which keys a plain read can come upon something else once what was read of an answer is taken.
#[derive(Drop)]
pub(crate) enum Reach<'a> {
    Nowhere,
    At(&'a Bytes),
    Anywhere,
}

/// At which keys what was read is about entries. The write is that whose own call it answers.
pub(crate) fn reach_of<'a>(read: &'a ReadAnswer, write: Option<&'a Write>) -> Reach<'a>
    ensures { (k : List ℕ) → reaches result k ≡ reached read.now (option_copied write.entry) k }
{
    match read {
        ReadAnswer::Nothing | ReadAnswer::Asked { .. } | ReadAnswer::AskRefused { .. } => {
            Reach::Nowhere
        }
        ReadAnswer::Rescinded { key, .. } => Reach::At(key),
        ReadAnswer::Wrote { lefts, .. } => reach_of_lefts(lefts.as_slice()),
        ReadAnswer::Refused { .. } | ReadAnswer::Blocked { .. } => reach_of_write(write),
    }
}

fn reach_of_lefts<'a>(lefts: &'a [Left]) -> Reach<'a>
    ensures { (k : List ℕ) → reaches result k ≡ lefts_reach lefts.now k }
{
    match lefts {
        [] => Reach::Nowhere,
        [left] => Reach::At(&left.key),
        _ => Reach::Anywhere,
    }
}

fn reach_of_write<'a>(write: Option<&'a Write>) -> Reach<'a>
    ensures { (k : List ℕ) → reaches result k ≡ write_reaches (option_copied write.entry) k }
{
    match write {
        Some(write) => reach_of_ranges(write.ranges.as_slice()),
        None => Reach::Nowhere,
    }
}

/// Where a write of these ranges is about entries: at its key, where it is one.
fn reach_of_ranges<'a>(ranges: &'a [KeyRange]) -> Reach<'a>
    ensures { (k : List ℕ) → reaches result k ≡ ranges_reach ranges.now k }
{
    match ranges {
        [range] if range.is_one() => Reach::At(&range.key),
        _ => Reach::Anywhere,
    }
}
