ghost use Rattle.std.specs.Prelude.{◌≡◌, ◌∷◌, [], ◌++◌, true, if◌then◌else◌, bytes_eq, nat_lt, OnOk, string_bytes};
ghost use Rattle.std.specs.List.{list_any, list_all};
ghost use Rattle.text_model.specs.Texts.{written};
ghost use Rattle.text_model.specs.Words.{has, flag, letters, flags_word, two_flags, three_flags, four_flags};
ghost use Rattle.text_words.specs.Reading.{Gives};

use crate::fault::ReadError;
use crate::words::Words;
use crate::write_words::push_word;
use etcd_types::NoMemory;

/// Reads a flag: `-`, or this letter where it is set.
pub fn read_flag(words: &mut Words, letter: u8) -> Result<bool, ReadError>
    ensures { Gives (λ f. (f, words.new)) result ((flag letter).read words.old) }
{
    let word = words.take()?;
    let on = has(word, letter);
    if is_flag(word, letter, on) {
        Ok(on)
    } else {
        Err(words.wrong())
    }
}

fn is_flag(word: &[u8], letter: u8, on: bool) -> bool
    ensures { result ≡ bytes_eq word.now (if on then letter ∷ [] else 45 ∷ []) }
{
    word == [if on { letter } else { b'-' }].as_slice()
}

/// Appends a flag's word: `-`, or this letter where it is set.
pub fn push_flag(out: &mut String, letter: &str, on: bool) -> Result<(), NoMemory>
    ensures { OnOk result (string_bytes out.new ≡ string_bytes out.old ++ written 32 ((if on then letter.now else 45 ∷ []) ∷ [])) }
{
    push_word(out, if on { letter } else { "-" })?;
    Ok(())
}

/// Appends the word of these flags, the letters of those that are set, in this order, or `-` where none is, and a space.
pub fn push_flags(out: &mut String, flags: &[(u8, bool)]) -> Result<(), NoMemory>
    requires { list_all (λ flag. nat_lt flag.0 128) flags.now ≡ true }
    ensures { OnOk result (string_bytes out.new ≡ string_bytes out.old ++ written 32 (flags_word flags.now ∷ [])) }
{
    push_flags_word(out, flags)?;
    out.push(' ')?;
    Ok(())
}

#[tactic(auto, using(crate::proofs::FlagWords::worded))]
fn push_flags_word(out: &mut String, flags: &[(u8, bool)]) -> Result<(), NoMemory>
    requires { list_all (λ flag. nat_lt flag.0 128) flags.now ≡ true }
    ensures { OnOk result (string_bytes out.new ≡ string_bytes out.old ++ flags_word flags.now) }
{
    if is_any_set(flags) {
        Ok(push_letters(out, flags)?)
    } else {
        Ok(out.push('-')?)
    }
}

fn push_letters(out: &mut String, flags: &[(u8, bool)]) -> Result<(), NoMemory>
    requires { list_all (λ flag. nat_lt flag.0 128) flags.now ≡ true }
    ensures { OnOk result (string_bytes out.new ≡ string_bytes out.old ++ letters flags.now) }
{
    for (letter, on) in flags {
        if *on {
            out.push(char::from(*letter))?;
        }
    }
    Ok(())
}

fn is_any_set(flags: &[(u8, bool)]) -> bool
    ensures { result ≡ list_any (λ flag. flag.1) flags.now }
{
    flags.iter().any(|flag| flag.1)
}

/// Whether the word is the word of these flags.
#[tactic(auto, using(crate::proofs::FlagWords::worded))]
fn is_flags(word: &[u8], flags: &[(u8, bool)]) -> bool
    ensures { result ≡ bytes_eq word.now (flags_word flags.now) }
{
    if is_any_set(flags) {
        has_letters(word, flags)
    } else {
        word == b"-".as_slice()
    }
}

/// Whether the word has just the letters of the flags that are set, in their order.
fn has_letters(word: &[u8], flags: &[(u8, bool)]) -> bool
    ensures { result ≡ bytes_eq word.now (letters flags.now) }
{
    match flags {
        [] => word.is_empty(),
        [(letter, true), rest @ ..] => match word {
            [] => false,
            [first, others @ ..] => first == letter && has_letters(others, rest),
        },
        [(_, false), rest @ ..] => has_letters(word, rest),
    }
}

/// Reads the flags of a put: `p` and `i`.
pub fn read_put_flags(words: &mut Words) -> Result<(bool, bool), ReadError>
    ensures { Gives (λ f. (f, words.new)) result ((two_flags 112 105).read words.old) }
{
    let word = words.take()?;
    let prev_kv = has(word, b'p');
    let ignore_lease = has(word, b'i');
    if is_flags(word, &[(b'p', prev_kv), (b'i', ignore_lease)]) {
        Ok((prev_kv, ignore_lease))
    } else {
        Err(words.wrong())
    }
}

/// The flags of a range.
#[derive(Debug, Clone, Copy, PartialEq, Eq)]
pub struct RangeFlags {
    pub serializable: bool,
    pub keys_only: bool,
    pub count_only: bool,
}

/// Reads the flags of a range: `s`, `k` and `c`.
pub fn read_range_flags(words: &mut Words) -> Result<RangeFlags, ReadError>
    ensures { Gives (λ f. ((f.serializable, f.keys_only, f.count_only), words.new)) result ((three_flags 115 107 99).read words.old) }
{
    let word = words.take()?;
    let serializable = has(word, b's');
    let keys_only = has(word, b'k');
    let count_only = has(word, b'c');
    if is_flags(
        word,
        &[(b's', serializable), (b'k', keys_only), (b'c', count_only)],
    ) {
        Ok(RangeFlags {
            serializable,
            keys_only,
            count_only,
        })
    } else {
        Err(words.wrong())
    }
}

/// The flags of a watch.
#[derive(Debug, Clone, Copy, PartialEq, Eq)]
pub struct WatchFlags {
    pub prev_kv: bool,
    pub no_put: bool,
    pub no_delete: bool,
    pub progress: bool,
}

/// Reads the flags of a watch: `p`, `u`, `d` and `n`.
pub fn read_watch_flags(words: &mut Words) -> Result<WatchFlags, ReadError>
    ensures { Gives (λ f. ((f.prev_kv, f.no_put, f.no_delete, f.progress), words.new)) result ((four_flags 112 117 100 110).read words.old) }
{
    let word = words.take()?;
    let prev_kv = has(word, b'p');
    let no_put = has(word, b'u');
    let no_delete = has(word, b'd');
    let progress = has(word, b'n');
    if is_flags(
        word,
        &[
            (b'p', prev_kv),
            (b'u', no_put),
            (b'd', no_delete),
            (b'n', progress),
        ],
    ) {
        Ok(WatchFlags {
            prev_kv,
            no_put,
            no_delete,
            progress,
        })
    } else {
        Err(words.wrong())
    }
}

fn has(word: &[u8], letter: u8) -> bool
    ensures { result ≡ has letter word.now }
{
    word.contains(&letter)
}

/// Whether the word is this one.
pub fn is_word(word: &[u8], other: &str) -> bool
    ensures { result ≡ bytes_eq word.now other.now }
{
    word == other.as_bytes()
}
