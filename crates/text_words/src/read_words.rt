ghost use Rattle.std.specs.Prelude.{◌≡◌, ℕ, ◌<◌, ◌≤◌, ◌^◌, Some, IfSome, IfErr, decimal, bytes_eq, IfOk, true, ◌∷◌, []};
ghost use Rattle.std.specs.List.{list_all};
ghost use Rattle.std.specs.Str.Parse.{digits_value};
ghost use Rattle.text_model.specs.Forms.{Form, respelled};
ghost use Rattle.text_model.specs.Words.{is_within, number, number_within, bytes, bytes_word, bytes_guess, are_bytes, is_plain};
ghost use Rattle.text_words.specs.Plain.{is_plain_word};
ghost use Rattle.text_words.specs.Reading.{Gives, IsWrong};

use crate::fault::ReadError;
use crate::words::Words;
use crate::write_words::push_bytes_word;
use etcd_types::{Bytes, NoMemory};
use itoa::Buffer;
use percent_encoding::percent_decode;
use std::alloc::Global;

/// The greatest number of a text.
pub const MAX_NUMBER: u64 = 0x7fff_ffff_ffff_ffff;

/// Reads a number in canonical decimal, up to `MAX_NUMBER`.
pub fn read_number(words: &mut Words) -> Result<u64, ReadError>
    ensures wrong { IfErr result IsWrong }
    ensures value { Gives (λ n. (n, words.new)) result (number.read words.old) }
{
    Ok(read_number_within(words, 0, MAX_NUMBER)?)
}

/// Reads a number in canonical decimal, from `low` to `high`.
pub fn read_number_within(words: &mut Words, low: u64, high: u64) -> Result<u64, ReadError>
    ensures bound { IfOk result (λ n. n ≤ high) }
    ensures wrong { IfErr result IsWrong }
    ensures value { Gives (λ n. (n, words.new)) result ((number_within low high).read words.old) }
{
    let word = words.take()?;
    match number_of(word, low, high) {
        None => Err(words.wrong()),
        Some(number) => Ok(number),
    }
}

pub fn number_of(word: &[u8], low: u64, high: u64) -> Option<u64>
    ensures bound { IfSome result (λ n. n ≤ high) }
    ensures value { result ≡ respelled decimal (digits_value 10) (is_within low high) word.now }
{
    let number = guessed_number(word);
    if low <= number && number <= high && is_decimal(word, number) {
        Some(number)
    } else {
        None
    }
}

/// The number that a word spells. Of a word that spells none it says nothing.
fn guessed_number(word: &[u8]) -> u64
    ensures { (n : ℕ) → n < 2 ^ 64 → word.now ≡ decimal n → result ≡ n }
{
    let mut number = 0u64;
    for byte in word {
        let digit = u64::from(byte.wrapping_sub(b'0'));
        number = number.wrapping_mul(10).wrapping_add(digit);
    }
    number
}

fn is_decimal(word: &[u8], number: u64) -> bool
    ensures { result ≡ bytes_eq word.now (decimal number) }
{
    let mut buffer = Buffer::new();
    word == buffer.format(number).as_bytes()
}

/// Reads bytes: `~` for none, or letters, digits, `-`, `.`, `_` and `/` for themselves and `%` and two upper-case
/// hexadecimal digits for each other byte.
#[tactic(auto, unfolding(text_model::specs::Words::bytes))]
pub fn read_bytes(alloc: Global, words: &mut Words) -> Result<Bytes, ReadError>
    ensures { Gives (λ b. (b, words.new)) result (bytes.read words.old) }
{
    let word = words.take()?;
    match bytes_of(alloc, word)? {
        None => Err(words.wrong()),
        Some(bytes) => Ok(bytes),
    }
}

/// The bytes that a word spells, if it spells some.
fn bytes_of(alloc: Global, word: &[u8]) -> Result<Option<Bytes>, NoMemory>
    ensures { IfOk result (λ r. r ≡ respelled bytes_word bytes_guess are_bytes word.now) }
{
    if is_tilde(word) {
        return Ok(Some(Bytes::new(alloc)));
    }
    if is_plain_word(word) {
        // Most words spell themselves.
        return Ok(Some(Bytes::from_slice(alloc, word)?));
    }
    Ok(respelled(alloc, word)?)
}

/// Whether the word has a byte, and each of them stands for itself.
fn is_plain_word(word: &[u8]) -> bool
    ensures { result ≡ is_plain_word word.now }
{
    !word.is_empty() && are_plain(word)
}

fn are_plain(bytes: &[u8]) -> bool
    ensures { result ≡ list_all is_plain bytes.now }
{
    bytes.iter().all(|b| is_plain(*b))
}

/// Whether the byte stands for itself.
fn is_plain(byte: u8) -> bool
    ensures { result ≡ is_plain byte }
{
    byte.is_ascii_alphanumeric() || byte == b'-' || byte == b'.' || byte == b'_' || byte == b'/'
}

/// The bytes are guessed, and the word has to be their spelling.
fn respelled(alloc: Global, word: &[u8]) -> Result<Option<Bytes>, NoMemory>
    ensures { IfOk result (λ r. r ≡ respelled bytes_word bytes_guess are_bytes word.now) }
{
    let bytes = guessed(alloc, word)?;
    let mut again = String::new(alloc);
    push_bytes_word(&mut again, bytes.as_slice())?;
    if word == again.as_bytes() {
        Ok(Some(bytes))
    } else {
        Ok(None)
    }
}

#[tactic(auto, using(crate::proofs::BytesWords::are_bytes_from_all))]
fn guessed(alloc: Global, word: &[u8]) -> Result<Bytes, NoMemory>
    ensures value { IfOk result (λ b. b ≡ bytes_guess word.now) }
    ensures small { IfOk result (λ b. are_bytes b ≡ true) }
{
    if is_tilde(word) {
        return Ok(Bytes::new(alloc));
    }
    let mut bytes = Vec::new(alloc);
    percent_decode(word).append_to(&mut bytes)?;
    Ok(Bytes::from_vec(bytes))
}

fn is_tilde(word: &[u8]) -> bool
    ensures { result ≡ bytes_eq word.now (126 ∷ []) }
{
    word == b"~".as_slice()
}
