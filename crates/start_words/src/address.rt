ghost use Rattle.std.specs.Prelude.{◌≡◌, ◌<◌, ◌≤◌, ◌==◌, Ok, Err, IfSome, MatchResult, length};
ghost use Rattle.std.specs.List.{list_all, position};
ghost use Rattle.start_words.specs.Values as spec;

use crate::fault::Cause;
use text_words::number_of;

/// The number that a word is in canonical decimal, from `low` to `high`.
pub(crate) fn number_in(word: &[u8], low: u64, high: u64) -> Option<u64>
    ensures bound { IfSome result (λ n. n ≤ high) }
    ensures value { result ≡ spec.number_in low high word.now }
{
    number_of(word, low, high)
}

pub(crate) fn is_port(word: &[u8]) -> bool
    ensures { result ≡ spec.is_port word.now }
{
    number_in(word, 1, 65_535).is_some()
}

pub(crate) fn is_host_byte(byte: u8) -> bool
    ensures { result ≡ spec.is_host_byte byte }
{
    byte.is_ascii_alphanumeric() || byte == b'-' || byte == b'.'
}

fn are_host_bytes(word: &[u8]) -> bool
    ensures { result ≡ list_all spec.is_host_byte word.now }
{
    word.iter().all(|byte| is_host_byte(*byte))
}

fn is_host(word: &[u8]) -> bool
    ensures { result ≡ spec.is_host word.now }
{
    !word.is_empty() && are_host_bytes(word)
}

/// Where the first colon of a word stands.
pub(crate) fn colon(word: &[u8]) -> Option<usize>
    ensures within { IfSome result (λ end. end < length word.now) }
    ensures place { result ≡ position (λ b. b == 58) word.now }
{
    word.iter().position(|byte| *byte == b':')
}

/// Whether a word is `host:port`, with a host of letters, digits, `.` and `-` and a port from 1 to 65,535.
pub fn is_address(word: &[u8]) -> bool
    ensures { result ≡ spec.is_address word.now }
{
    match colon(word) {
        None => false,
        Some(end) => is_host(&word[..end]) && is_port(&word[end + 1..]),
    }
}

/// Whether a word begins with these bytes.
pub(crate) fn begins(front: &[u8], word: &[u8]) -> bool
    ensures { result ≡ spec.begins front.now word.now }
{
    word.starts_with(front)
}

/// The word without this front, where it has it.
fn without<'a>(front: &[u8], word: &'a [u8]) -> &'a [u8]
    ensures { result.now ≡ spec.without front.now word.entry.now }
{
    if begins(front, word) {
        &word[front.len()..]
    } else {
        word
    }
}

/// The address of an endpoint, before which `http://` may stand.
pub(crate) fn endpoint_of(word: &[u8]) -> Result<&[u8], Cause>
    ensures { MatchResult result (λ address. spec.endpoint_of word.now ≡ Ok address.now) (λ cause. spec.endpoint_of word.now ≡ Err cause) }
{
    if begins(b"https://".as_slice(), word) {
        return Err(Cause::IsSecure);
    }
    let address = without(b"http://".as_slice(), word);
    if is_address(address) {
        Ok(address)
    } else {
        Err(Cause::NotAnAddress)
    }
}
