ghost use Rattle.std.specs.Prelude.{◌≡◌, ◌++◌, OnOk, string_bytes, if◌then◌else◌};
ghost use Rattle.text_model.specs.Texts.{written};
ghost use Rattle.text_words.specs.Reading.{Gives};
ghost use Rattle.message_text.specs.Requests.{range, range_ask_words, plain, sort as sort_form, is_unsorted, least_last};

use etcd_types::{NoMemory, RangeAsk, Sort};
use text_words::{
    MAX_NUMBER, ReadError, Words, push_bytes, push_flags, push_number, push_word, read_number,
    read_number_within,
};

/// Reads the six fields of a sort, which aren't all 0.
#[tactic(auto, unfolding(crate::specs::Requests::sort))]
pub(crate) fn read_sort(words: &mut Words) -> Result<Sort, ReadError>
    ensures { Gives (λ s. (s, words.new)) result (sort_form.read words.old) }
{
    let order = read_number_within(words, 0, 2)?;
    let target = read_number_within(words, 0, 4)?;
    let min_mod = read_number(words)?;
    let max_mod = read_number(words)?;
    let min_create = read_number(words)?;
    let least = least_last(order, target, min_mod, max_mod, min_create);
    let max_create = read_number_within(words, least, MAX_NUMBER)?;
    Ok(Sort {
        order: order as u8,
        target: target as u8,
        min_mod,
        max_mod,
        min_create,
        max_create,
    })
}

/// The least last field: where all before it are 0 it isn't 0.
fn least_last(order: u64, target: u64, min_mod: u64, max_mod: u64, min_create: u64) -> u64
    ensures { result ≡ least_last (order, (target, (min_mod, (max_mod, min_create)))) }
{
    if order == 0 && target == 0 && min_mod == 0 && max_mod == 0 && min_create == 0 {
        1
    } else {
        0
    }
}

fn is_unsorted(sort: &Sort) -> bool
    ensures { result ≡ is_unsorted sort.now }
{
    sort.order == 0
        && sort.target == 0
        && sort.min_mod == 0
        && sort.max_mod == 0
        && sort.min_create == 0
        && sort.max_create == 0
}

/// Appends a range request with its name.
#[tactic(auto, using(text_model::proofs::TextLaws::in_turn))]
pub(crate) fn push_range_ask(out: &mut String, ask: &RangeAsk) -> Result<(), NoMemory>
    ensures { OnOk result (string_bytes out.new ≡ string_bytes out.old ++ written 32 (range_ask_words ask.now)) }
{
    if is_unsorted(&ask.sort) {
        push_word(out, "range")?;
        push_plain(out, ask)?;
    } else {
        push_word(out, "rangex")?;
        push_plain(out, ask)?;
        push_sort(out, &ask.sort)?;
    }
    Ok(())
}

#[tactic(auto, using(text_model::proofs::TextLaws::in_turn), unfolding(crate::specs::Requests::range))]
fn push_plain(out: &mut String, ask: &RangeAsk) -> Result<(), NoMemory>
    ensures { OnOk result (string_bytes out.new ≡ string_bytes out.old ++ written 32 (range.spell (plain ask.now))) }
{
    push_bytes(out, &ask.range.key)?;
    push_bytes(out, &ask.range.end)?;
    push_number(out, ask.revision)?;
    push_number(out, ask.limit)?;
    push_flags(
        out,
        &[
            (b's', ask.serializable),
            (b'k', ask.keys_only),
            (b'c', ask.count_only),
        ],
    )?;
    Ok(())
}

#[tactic(auto, using(text_model::proofs::TextLaws::in_turn), unfolding(crate::specs::Requests::sort))]
fn push_sort(out: &mut String, sort: &Sort) -> Result<(), NoMemory>
    ensures { OnOk result (string_bytes out.new ≡ string_bytes out.old ++ written 32 (sort_form.spell sort.now)) }
{
    push_number(out, u64::from(sort.order))?;
    push_number(out, u64::from(sort.target))?;
    push_number(out, sort.min_mod)?;
    push_number(out, sort.max_mod)?;
    push_number(out, sort.min_create)?;
    push_number(out, sort.max_create)?;
    Ok(())
}
