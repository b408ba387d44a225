ghost use Rattle.std.specs.Prelude.{◌≡◌, if◌then◌else◌, Some, None};
ghost use Rattle.std.specs.Option.{option_copied};
ghost use Rattle.read_model.specs.PlainRead.{key_of};
ghost use Rattle.ask_tables.specs.KeyMarks.{mixed, key_number, by_key, ticket_mark};
ghost use Rattle.ask_tables.specs.RowMarks.{has_key};
ghost use Rattle.ask_tables.specs.Waiting.{waits_at_key};

use etcd_types::Request;
use mark_rows::Mark;
use read_model::{Asked, Stage};

/// The factor and the first number of the hash FNV-1a of 64 bits; the bytes are added here.
const FACTOR: u64 = 1099511628211;

const FIRST: u64 = 14695981039346656037;

/// Reads that wait at a key come first, by the number of their key.
pub(crate) fn key_mark(ask: &Asked) -> Mark
    ensures { result ≡ ticket_mark by_key ask.now }
{
    if waits_at_key(&ask.stage) {
        Mark::new(0, request_number(&ask.request), ask.ticket)
    } else {
        Mark::new(1, 0, ask.ticket)
    }
}

/// The request, where it is a read that waits at a key of this number.
pub fn only_at_key(ask: &Asked, number: u64) -> Option<&Asked>
    ensures { option_copied result ≡ (if has_key by_key 0 number ask.now then Some ask.now else None) }
{
    if is_at_key(ask, number) {
        Some(ask)
    } else {
        None
    }
}

fn is_at_key(ask: &Asked, number: u64) -> bool
    ensures { result ≡ has_key by_key 0 number ask.now }
{
    waits_at_key(&ask.stage) && request_number(&ask.request) == number
}

/// Whether a read at this stage waits at its key.
fn waits_at_key(stage: &Stage) -> bool
    ensures { result ≡ waits_at_key stage.now }
{
    matches!(stage, Stage::Acquiring | Stage::Joined | Stage::Behind)
}

/// The number of the request's own key.
fn request_number(request: &Request) -> u64
    ensures { result ≡ key_number (key_of request.now) }
{
    match request {
        Request::Range(ask) => key_number(ask.range.key.as_slice()),
        _ => FIRST,
    }
}

/// The number of the key.
pub fn key_number(key: &[u8]) -> u64
    ensures { result ≡ key_number key.now }
{
    let mut number = FIRST;
    for byte in key {
        number = mixed(number, *byte);
    }
    number
}

fn mixed(number: u64, byte: u8) -> u64
    ensures { result ≡ mixed number byte }
{
    number.wrapping_mul(FACTOR).wrapping_add(u64::from(byte))
}
