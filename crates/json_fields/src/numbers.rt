ghost use Rattle.std.specs.Prelude.{◌≡◌, ◌^◌, ◌+◌, pos, true, false, drop, option_and_then, IsTrue};
ghost use Rattle.std.specs.Char.{is_ascii_digit};
ghost use Rattle.std.specs.List.{list_all};
ghost use Rattle.std.specs.Str.Parse.{starts_with_minus};
ghost use Rattle.json_model.specs.Numbers.{begins_well, is_canonical, decimal_of, signed_of, negative_of, unless_zero, below};

use json_model::NUMBER_MAX;

fn begins_well(text: &[u8]) -> bool
    ensures { result ≡ begins_well text.now }
{
    match text {
        [] => false,
        [_] => true,
        [first, ..] => *first != b'0',
    }
}

fn all_digits(text: &[u8]) -> bool
    ensures { result ≡ list_all is_ascii_digit text.now }
{
    text.iter().all(|b| b.is_ascii_digit())
}

/// Digits without a leading zero.
fn is_canonical(text: &[u8]) -> bool
    ensures { result ≡ is_canonical text.now }
{
    begins_well(text) && all_digits(text)
}

/// The number that the text writes, to 2^64 - 1.
pub(crate) fn wide_decimal(text: &str) -> Option<u64>
    ensures { result ≡ decimal_of (2 ^ 64) text.now }
{
    if !is_canonical(text.as_bytes()) {
        return None;
    }
    text.parse::<u64>().ok()
}

pub(crate) fn in_range(n: u64) -> Option<u64>
    ensures { result ≡ below (2 ^ 63) n }
{
    if n <= NUMBER_MAX { Some(n) } else { None }
}

/// The number that the text writes, to 2^63 - 1.
pub(crate) fn decimal(text: &str) -> Option<u64>
    ensures { result ≡ decimal_of (2 ^ 63) text.now }
{
    match wide_decimal(text) {
        Some(n) => in_range(n),
        None => None,
    }
}

fn unless_zero(n: Option<i64>) -> Option<i64>
    ensures { result ≡ option_and_then unless_zero n }
{
    match n {
        Some(n) if n != 0 => Some(n),
        _ => None,
    }
}

fn without_first(text: &[u8]) -> &[u8]
    ensures { result.now ≡ drop 1 text.now }
{
    match text {
        [] => &[],
        [_, rest @ ..] => rest,
    }
}

/// The number that the text writes, which begins with a minus. Zero has none.
fn negative(text: &str) -> Option<i64>
    requires { IsTrue (starts_with_minus text.now) }
    ensures { result ≡ option_and_then negative_of (decimal_of (2 ^ 63 + 1) (drop 1 text.now)) }
{
    if !is_canonical(without_first(text.as_bytes())) {
        return None;
    }
    unless_zero(text.parse::<i64>().ok())
}

fn is_negative(text: &[u8]) -> bool
    ensures { result ≡ starts_with_minus text.now }
{
    !text.is_empty() && text[0] == b'-'
}

/// The number of 64 bits with a sign that the text writes.
pub(crate) fn signed_decimal(text: &str) -> Option<i64>
    ensures { result ≡ signed_of text.now }
{
    if is_negative(text.as_bytes()) {
        return negative(text);
    }
    match decimal(text) {
        Some(n) => Some(n as i64),
        None => None,
    }
}
