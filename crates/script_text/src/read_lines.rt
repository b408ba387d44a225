ghost use Rattle.std.specs.Prelude.{◌≡◌, ◌∷◌};
ghost use Rattle.text_model.specs.Forms.{into, both};
ghost use Rattle.text_model.specs.Words.{bytes};
ghost use Rattle.message_text.specs.Requests.{request};
ghost use Rattle.text_words.specs.Reading.{Gives};
ghost use Rattle.script_text.specs.Lines.{proxy, ticket, world, other_line, other_to, later_line, later_to, line_form};

use crate::line::Line;
use etcd_types::{Bytes, Request};
use message_text::Text;
use std::alloc::Global;
use text_words::{
    MAX_NUMBER, ReadError, Words, is_word, read_bytes, read_number, read_number_within,
};

/// Reads the line with this number. The first line is `world`, and no later one is.
#[tactic(auto, using(text_model::proofs::Laws::bind_assoc), unfolding(crate::specs::Lines::line_form))]
pub(crate) fn read_line_words(
    alloc: Global,
    number: u64,
    words: &mut Words,
) -> Result<Line, ReadError>
    ensures { Gives (λ l. (l, words.new)) result ((line_form number).read words.old) }
{
    if number != 1 {
        return Ok(read_later_line(alloc, words)?);
    }
    let name = words.take()?;
    if is_word(name, "world") {
        let (members, namespace, leasing) = read_world(alloc, words)?;
        Ok(Line::World {
            members,
            namespace,
            leasing,
        })
    } else {
        Err(words.wrong())
    }
}

#[tactic(auto, using(text_model::proofs::Laws::bind_assoc), unfolding(crate::specs::Lines::later_line))]
fn read_later_line(alloc: Global, words: &mut Words) -> Result<Line, ReadError>
    ensures { Gives (λ l. (l, words.new)) result (into later_to (later_line.read words.old)) }
{
    let name = words.take()?;
    if is_word(name, "start") {
        let proxy = read_proxy(words)?;
        Ok(Line::Start { proxy })
    } else if is_word(name, "clock") {
        let proxy = read_proxy(words)?;
        let millis = read_number(words)?;
        Ok(Line::Clock { proxy, millis })
    } else if is_word(name, "ask") {
        let (proxy, ticket, request) = read_ask(alloc, words)?;
        Ok(Line::Ask {
            proxy,
            ticket,
            request,
        })
    } else if is_word(name, "post") {
        let (proxy, ticket, path, body) = read_post(alloc, words)?;
        Ok(Line::Post {
            proxy,
            ticket,
            path,
            body,
        })
    } else if is_word(name, "tick") {
        let proxy = read_proxy(words)?;
        Ok(Line::Tick { proxy })
    } else if is_word(name, "send") {
        let proxy = read_proxy(words)?;
        Ok(Line::Send { proxy })
    } else if is_word(name, "take") {
        let (proxy, ticket) = read_place(words)?;
        Ok(Line::Take { proxy, ticket })
    } else if is_word(name, "leave") {
        let (proxy, ticket) = read_place(words)?;
        Ok(Line::Leave { proxy, ticket })
    } else {
        Ok(read_other_line(name, words)?)
    }
}

/// Reads a line of a call, a stream or the store, of which the name was taken.
#[tactic(auto, unfolding(crate::specs::Lines::other_line))]
fn read_other_line(name: &[u8], words: &mut Words) -> Result<Line, ReadError>
    ensures { Gives (λ l. (l, words.new)) result (into other_to (other_line.read (name.now ∷ words.old))) }
{
    if is_word(name, "exec") {
        let call = read_number(words)?;
        Ok(Line::Exec { call })
    } else if is_word(name, "answer") {
        let call = read_number(words)?;
        Ok(Line::Answer { call })
    } else if is_word(name, "lose") {
        let call = read_number(words)?;
        Ok(Line::Lose { call })
    } else if is_word(name, "push") {
        let stream = read_number(words)?;
        Ok(Line::Push { stream })
    } else if is_word(name, "deliver") {
        let stream = read_number(words)?;
        Ok(Line::Deliver { stream })
    } else if is_word(name, "cut") {
        let stream = read_number(words)?;
        Ok(Line::Cut { stream })
    } else if is_word(name, "expire") {
        let lease = read_number(words)?;
        Ok(Line::Expire { lease })
    } else if is_word(name, "apply") {
        let member = read_number(words)?;
        let revision = read_number(words)?;
        Ok(Line::Apply { member, revision })
    } else if is_word(name, "progress") {
        let stream = read_number(words)?;
        Ok(Line::Progress { stream })
    } else {
        Err(words.wrong())
    }
}

/// Reads a proxy's number, from 1 to 64.
pub(crate) fn read_proxy(words: &mut Words) -> Result<u64, ReadError>
    ensures { Gives (λ n. (n, words.new)) result (proxy.read words.old) }
{
    Ok(read_number_within(words, 1, 64)?)
}

/// Reads a ticket, from 1 on.
pub(crate) fn read_ticket(words: &mut Words) -> Result<u64, ReadError>
    ensures { Gives (λ n. (n, words.new)) result (ticket.read words.old) }
{
    Ok(read_number_within(words, 1, MAX_NUMBER)?)
}

/// Reads a proxy and a ticket.
pub(crate) fn read_place(words: &mut Words) -> Result<(u64, u64), ReadError>
    ensures { Gives (λ x. (x, words.new)) result ((both proxy ticket).read words.old) }
{
    let proxy = read_proxy(words)?;
    let ticket = read_ticket(words)?;
    Ok((proxy, ticket))
}

#[tactic(auto, unfolding(crate::specs::Lines::world))]
pub(crate) fn read_world(alloc: Global, words: &mut Words) -> Result<(u64, Bytes, Bytes), ReadError>
    ensures { Gives (λ x. ((x.0, (x.1, x.2)), words.new)) result (world.read words.old) }
{
    let members = read_number_within(words, 1, 9)?;
    let namespace = read_bytes(alloc, words)?;
    let leasing = read_bytes(alloc, words)?;
    Ok((members, namespace, leasing))
}

pub(crate) fn read_ask(alloc: Global, words: &mut Words) -> Result<(u64, u64, Request), ReadError>
    ensures { Gives (λ x. ((x.0, (x.1, x.2)), words.new)) result ((both proxy (both ticket request)).read words.old) }
{
    let proxy = read_proxy(words)?;
    let ticket = read_ticket(words)?;
    let request = Request::read(alloc, words)?;
    Ok((proxy, ticket, request))
}

pub(crate) fn read_post(
    alloc: Global,
    words: &mut Words,
) -> Result<(u64, u64, Bytes, Bytes), ReadError>
    ensures { Gives (λ x. ((x.0, (x.1, (x.2, x.3))), words.new)) result ((both proxy (both ticket (both bytes bytes))).read words.old) }
{
    let proxy = read_proxy(words)?;
    let ticket = read_ticket(words)?;
    let path = read_bytes(alloc, words)?;
    let body = read_bytes(alloc, words)?;
    Ok((proxy, ticket, path, body))
}
