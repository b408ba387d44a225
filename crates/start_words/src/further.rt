// Forms of addresses that are taken beside `host:port`.
ghost use Rattle.std.specs.Prelude.{◌≡◌, ◌<◌, ◌==◌, Ok, Err, IfSome, MatchResult, length};
ghost use Rattle.std.specs.List.{list_all, position};
ghost use Rattle.start_words.specs.Further as spec;

use crate::address::{begins, colon, is_host_byte, is_port};
use crate::fault::Cause;

fn is_name_byte(byte: u8) -> bool
    ensures { result ≡ spec.is_name_byte byte }
{
    is_host_byte(byte) || byte == b'_'
}

fn are_name_bytes(word: &[u8]) -> bool
    ensures { result ≡ list_all spec.is_name_byte word.now }
{
    word.iter().all(|byte| is_name_byte(*byte))
}

fn is_name(word: &[u8]) -> bool
    ensures { result ≡ spec.is_name word.now }
{
    !word.is_empty() && are_name_bytes(word)
}

/// Whether a word is `host:port`, with a host that may also have `_`.
fn is_named(word: &[u8]) -> bool
    ensures { result ≡ spec.is_named word.now }
{
    match colon(word) {
        None => false,
        Some(end) => is_name(&word[..end]) && is_port(&word[end + 1..]),
    }
}

fn is_six_byte(byte: u8) -> bool
    ensures { result ≡ spec.is_six_byte byte }
{
    byte.is_ascii_hexdigit() || byte == b':' || byte == b'.'
}

fn are_six_bytes(word: &[u8]) -> bool
    ensures { result ≡ list_all spec.is_six_byte word.now }
{
    word.iter().all(|byte| is_six_byte(*byte))
}

fn is_six(word: &[u8]) -> bool
    ensures { result ≡ spec.is_six word.now }
{
    !word.is_empty() && are_six_bytes(word)
}

/// Whether a word is `:port`.
fn is_port_alone(word: &[u8]) -> bool
    ensures { result ≡ spec.is_port_alone word.now }
{
    begins(b":".as_slice(), word) && is_port(&word[1..])
}

/// Where the first closing bracket of a word stands.
fn bracket(word: &[u8]) -> Option<usize>
    ensures within { IfSome result (λ end. end < length word.now) }
    ensures place { result ≡ position (λ b. b == 93) word.now }
{
    word.iter().position(|byte| *byte == b']')
}

/// Whether a word is `address]:port`.
fn is_closed(word: &[u8]) -> bool
    ensures { result ≡ spec.is_closed word.now }
{
    match bracket(word) {
        None => false,
        Some(end) => is_six(&word[..end]) && is_port_alone(&word[end + 1..]),
    }
}

/// Whether a word is `[address]:port`, with an address of IPv6.
fn is_bracketed(word: &[u8]) -> bool
    ensures { result ≡ spec.is_bracketed word.now }
{
    begins(b"[".as_slice(), word) && is_closed(&word[1..])
}

fn is_further(word: &[u8]) -> bool
    ensures { result ≡ spec.is_further word.now }
{
    is_named(word) || is_bracketed(word)
}

/// The word without the slash at its end, where it has one.
fn without_slash(word: &[u8]) -> &[u8]
    ensures { result.now ≡ spec.without_slash word.entry.now }
{
    let end = word.len().saturating_sub(1);
    if &word[end..] == b"/".as_slice() {
        &word[..end]
    } else {
        word
    }
}

/// An URL without its scheme and the slash at its end; any other word as it is.
fn trimmed(word: &[u8]) -> &[u8]
    ensures { result.now ≡ spec.trimmed word.entry.now }
{
    if begins(b"http://".as_slice(), word) {
        without_slash(&word[7..])
    } else {
        word
    }
}

/// The address of an endpoint that isn't `host:port`.
pub(crate) fn further_endpoint_of(word: &[u8]) -> Result<&[u8], Cause>
    ensures { MatchResult result (λ address. spec.further_endpoint_of word.now ≡ Ok address.now)
        (λ cause. spec.further_endpoint_of word.now ≡ Err cause) }
{
    let address = trimmed(word);
    if is_further(address) {
        Ok(address)
    } else {
        Err(Cause::NotAnAddress)
    }
}

/// Whether clients can be served at an address that isn't `host:port`.
pub(crate) fn is_further_listen(word: &[u8]) -> bool
    ensures { result ≡ spec.is_further_listen word.now }
{
    is_further(word) || is_port_alone(word)
}
