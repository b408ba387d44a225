ghost use Rattle.std.specs.Prelude.{◌≡◌, ◌++◌, ◌∷◌, [], decimal, OnOk, string_bytes};
ghost use Rattle.text_model.specs.Forms.{both};
ghost use Rattle.text_model.specs.Words.{number};
ghost use Rattle.text_model.specs.Texts.{written};
ghost use Rattle.text_words.specs.Reading.{Gives};
ghost use Rattle.message_text.specs.Answers.{branch, branch_word, range_body, delete_body, timetolive_body, leases_body};

use crate::text::{push_list, read_list};
use crate::times::{push_ttl, read_ttl};
use etcd_types::{Bytes, Kv, List, NoMemory};
use std::alloc::Global;
use text_words::{
    ReadError, Words, is_word, push_flag, push_number, push_word, read_flag, read_number,
};

pub(crate) fn read_branch(words: &mut Words) -> Result<bool, ReadError>
    ensures { Gives (λ b. (b, words.new)) result (branch.read words.old) }
{
    let word = words.take()?;
    if is_word(word, "t") {
        Ok(true)
    } else if is_word(word, "f") {
        Ok(false)
    } else {
        Err(words.wrong())
    }
}

#[tactic(auto, unfolding(crate::specs::Answers::range_body))]
pub(crate) fn read_range_body(
    alloc: Global,
    words: &mut Words,
) -> Result<(u64, bool, List<Kv>), ReadError>
    ensures { Gives (λ x. ((x.0, (x.1, x.2)), words.new)) result (range_body.read words.old) }
{
    let count = read_number(words)?;
    let more = read_flag(words, b'm')?;
    let kvs = read_list(alloc, words)?;
    Ok((count, more, kvs))
}

#[tactic(auto, unfolding(crate::specs::Answers::delete_body))]
pub(crate) fn read_delete_body(
    alloc: Global,
    words: &mut Words,
) -> Result<(u64, List<Kv>), ReadError>
    ensures { Gives (λ x. (x, words.new)) result (delete_body.read words.old) }
{
    let deleted = read_number(words)?;
    let prevs = read_list(alloc, words)?;
    Ok((deleted, prevs))
}

/// What a reply says of a lease's time to live.
#[derive(Drop)]
pub(crate) struct LeaseTimes {
    pub lease: u64,
    pub ttl: i64,
    pub granted: u64,
    pub keys: List<Bytes>,
}

#[tactic(auto, unfolding(crate::specs::Answers::timetolive_body))]
pub(crate) fn read_timetolive_body(
    alloc: Global,
    words: &mut Words,
) -> Result<LeaseTimes, ReadError>
    ensures { Gives (λ x. ((x.lease, (x.ttl, (x.granted, x.keys))), words.new)) result (timetolive_body.read words.old) }
{
    let lease = read_number(words)?;
    let ttl = read_ttl(words)?;
    let granted = read_number(words)?;
    let keys = read_list(alloc, words)?;
    Ok(LeaseTimes {
        lease,
        ttl,
        granted,
        keys,
    })
}

#[tactic(auto, unfolding(crate::specs::Answers::leases_body))]
pub(crate) fn read_leases_body(alloc: Global, words: &mut Words) -> Result<List<u64>, ReadError>
    ensures { Gives (λ ls. (ls, words.new)) result (leases_body.read words.old) }
{
    Ok(read_list(alloc, words)?)
}

pub(crate) fn read_two_numbers(words: &mut Words) -> Result<(u64, u64), ReadError>
    ensures { Gives (λ x. (x, words.new)) result ((both number number).read words.old) }
{
    let first = read_number(words)?;
    let second = read_number(words)?;
    Ok((first, second))
}

/// The word that says which branch of a transaction ran.
pub(crate) fn branch_name(succeeded: bool) -> &'static str
    ensures { result.now ≡ branch_word succeeded }
{
    if succeeded { "t" } else { "f" }
}

#[tactic(auto, using(text_model::proofs::TextLaws::in_turn), unfolding(crate::specs::Answers::range_body))]
pub(crate) fn push_range_body(
    out: &mut String,
    count: u64,
    more: bool,
    kvs: &List<Kv>,
) -> Result<(), NoMemory>
    ensures { OnOk result (string_bytes out.new ≡ string_bytes out.old ++ written 32 (range_body.spell (count, (more, kvs.now)))) }
{
    push_number(out, count)?;
    push_flag(out, "m", more)?;
    push_list(out, kvs)?;
    Ok(())
}

#[tactic(auto, using(text_model::proofs::TextLaws::in_turn), unfolding(crate::specs::Answers::delete_body))]
pub(crate) fn push_delete_body(
    out: &mut String,
    deleted: u64,
    prevs: &List<Kv>,
) -> Result<(), NoMemory>
    ensures { OnOk result (string_bytes out.new ≡ string_bytes out.old ++ written 32 (delete_body.spell (deleted, prevs.now))) }
{
    push_number(out, deleted)?;
    push_list(out, prevs)?;
    Ok(())
}

#[tactic(auto, using(text_model::proofs::TextLaws::in_turn), unfolding(crate::specs::Answers::timetolive_body, crate::specs::Answers::ttl))]
pub(crate) fn push_timetolive_body(
    out: &mut String,
    lease: u64,
    ttl: i64,
    granted: u64,
    keys: &List<Bytes>,
) -> Result<(), NoMemory>
    ensures { OnOk result (string_bytes out.new ≡ string_bytes out.old
        ++ written 32 (timetolive_body.spell (lease, (ttl, (granted, keys.now))))) }
{
    push_number(out, lease)?;
    push_ttl(out, ttl)?;
    push_number(out, granted)?;
    push_list(out, keys)?;
    Ok(())
}

#[tactic(auto, unfolding(crate::specs::Answers::leases_body))]
pub(crate) fn push_leases_body(out: &mut String, leases: &List<u64>) -> Result<(), NoMemory>
    ensures { OnOk result (string_bytes out.new ≡ string_bytes out.old ++ written 32 (leases_body.spell leases.now)) }
{
    push_list(out, leases)?;
    Ok(())
}

#[tactic(auto, using(text_model::proofs::TextLaws::in_turn))]
pub(crate) fn push_two_numbers(out: &mut String, first: u64, second: u64) -> Result<(), NoMemory>
    ensures { OnOk result (string_bytes out.new ≡ string_bytes out.old ++ written 32 (decimal first ∷ decimal second ∷ [])) }
{
    push_number(out, first)?;
    push_number(out, second)?;
    Ok(())
}
