ghost use Rattle.std.specs.Prelude.{◌≡◌, ◌≤◌, IfOk, Ok, Err, MatchResult, length};
ghost use Rattle.start_words.specs.Start as spec;
ghost use Rattle.start_words.specs.Values.{endpoint_of};

use crate::address::{endpoint_of, is_address, number_in};
use crate::fault::{Cause, StartOption};
use crate::further::{further_endpoint_of, is_further_listen};
use crate::wrong::{ValueFault, Wrong};
use etcd_types::{Bytes, List, NoMemory};
use std::alloc::Global;
use text_words::Words;

/// The most endpoints that are taken.
const MOST: usize = 9;

/// The fault that the word of an option is.
pub(crate) fn wrong(alloc: Global, option: StartOption, word: &[u8], cause: Cause) -> ValueFault
    ensures { spec.IsFault (spec.wrong option word.now cause) result }
{
    match Bytes::from_slice(alloc, word) {
        Ok(word) => ValueFault::Wrong(Wrong {
            option,
            word,
            cause,
        }),
        Err(NoMemory) => ValueFault::NoMemory,
    }
}

/// The address of an endpoint, `host:port` or of another form that is taken.
#[tactic(auto, unfolding(crate::specs::Start::endpoint_or_further))]
fn address_of(word: &[u8]) -> Result<&[u8], Cause>
    ensures { MatchResult result (λ address. spec.endpoint_or_further word.now (endpoint_of word.now) ≡ Ok address.now)
        (λ cause. spec.endpoint_or_further word.now (endpoint_of word.now) ≡ Err cause) }
{
    match endpoint_of(word) {
        Ok(address) => Ok(address),
        Err(Cause::NotAnAddress) => match further_endpoint_of(word) {
            Ok(address) => Ok(address),
            Err(cause) => Err(cause),
        },
        Err(cause) => Err(cause),
    }
}

/// The address of one endpoint.
fn endpoint(alloc: Global, word: &[u8]) -> Result<Bytes, ValueFault>
    ensures { spec.Gives result (spec.endpoint word.now) }
{
    match address_of(word) {
        Ok(address) => Ok(Bytes::from_slice(alloc, address)?),
        Err(cause) => Err(wrong(alloc, StartOption::Endpoints, word, cause)),
    }
}

/// The addresses of endpoints.
fn each_endpoint(alloc: Global, parts: &mut Words) -> Result<List<Bytes>, ValueFault>
    ensures count { IfOk result (λ all. length all ≡ length parts.old) }
    ensures value { spec.Gives result (spec.each_endpoint parts.old) }
{
    let mut endpoints = List::new(alloc);
    while let Ok(part) = parts.take() {
        endpoints.push(endpoint(alloc, part)?)?;
    }
    Ok(endpoints)
}

/// The addresses of endpoints with commas between them, 1 to 9.
#[tactic(auto, using(text_words::proofs::Cuts::counted))]
pub(crate) fn endpoints_of(alloc: Global, word: &[u8]) -> Result<List<Bytes>, ValueFault>
    ensures count { IfOk result (λ all. (1 ≤ length all) × (length all ≤ 9)) }
    ensures value { spec.Gives result (spec.endpoints_of word.now) }
{
    let mut parts = Words::of(b',', word);
    if parts.len() > MOST {
        return Err(wrong(alloc, StartOption::Endpoints, word, Cause::TooMany));
    }
    Ok(each_endpoint(alloc, &mut parts)?)
}

/// The address on which clients are served.
pub(crate) fn listen_of(alloc: Global, word: &[u8]) -> Result<Bytes, ValueFault>
    ensures { spec.Gives result (spec.listen_of word.now) }
{
    if is_address(word) || is_further_listen(word) {
        Ok(Bytes::from_slice(alloc, word)?)
    } else {
        Err(wrong(alloc, StartOption::ListenAddr, word, Cause::NotAnAddress))
    }
}

/// The number that the word of an option is.
pub(crate) fn number_of(
    alloc: Global,
    option: StartOption,
    low: u64,
    high: u64,
    word: &[u8],
) -> Result<u64, ValueFault>
    ensures bound { IfOk result (λ n. n ≤ high) }
    ensures value { spec.Gives result (spec.number_of option low high word.now) }
{
    match number_in(word, low, high) {
        Some(number) => Ok(number),
        None => Err(wrong(alloc, option, word, Cause::NotANumber { low, high })),
    }
}
