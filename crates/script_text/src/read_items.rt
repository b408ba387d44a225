ghost use Rattle.std.specs.Prelude.{◌≡◌, ◌∷◌};
ghost use Rattle.text_model.specs.Forms.{into, both};
ghost use Rattle.text_model.specs.Words.{number, bytes};
ghost use Rattle.text_words.specs.Reading.{Gives};
ghost use Rattle.message_text.specs.Requests.{request};
ghost use Rattle.script_text.specs.Lines.{proxy, ticket};
ghost use Rattle.script_text.specs.Items.{other_item, other_to, stream_item, stream_to, item_words, item_form};

use crate::item::Item;
use crate::read_lines::{read_ask, read_place, read_post, read_proxy, read_ticket, read_world};
use etcd_types::{Answer, Bytes, Request, WatchItem};
use message_text::Text;
use std::alloc::Global;
use text_words::{ReadError, Words, is_word, read_bytes, read_number};

#[tactic(auto, using(text_model::proofs::Laws::bind_assoc), unfolding(crate::specs::Items::item_form, crate::specs::Items::item_words))]
pub(crate) fn read_item_words(alloc: Global, words: &mut Words) -> Result<Item, ReadError>
    ensures { Gives (λ i. (i, words.new)) result (item_form.read words.old) }
{
    let name = words.take()?;
    if is_word(name, "world") {
        let (members, namespace, leasing) = read_world(alloc, words)?;
        Ok(Item::World {
            members,
            namespace,
            leasing,
        })
    } else if is_word(name, "started") {
        let proxy = read_proxy(words)?;
        Ok(Item::Started { proxy })
    } else if is_word(name, "restarted") {
        let proxy = read_proxy(words)?;
        Ok(Item::Restarted { proxy })
    } else if is_word(name, "clock") {
        let (proxy, millis) = read_of_proxy(words)?;
        Ok(Item::Clock { proxy, millis })
    } else if is_word(name, "asked") {
        let (proxy, ticket, request) = read_ask(alloc, words)?;
        Ok(Item::Asked {
            proxy,
            ticket,
            request,
        })
    } else if is_word(name, "posted") {
        let (proxy, ticket, path, body) = read_post(alloc, words)?;
        Ok(Item::Posted {
            proxy,
            ticket,
            path,
            body,
        })
    } else if is_word(name, "ticked") {
        let proxy = read_proxy(words)?;
        Ok(Item::Ticked { proxy })
    } else if is_word(name, "sent") {
        let sent = read_sent(alloc, words)?;
        Ok(Item::Sent {
            proxy: sent.proxy,
            call: sent.call,
            member: sent.member,
            ticket: sent.ticket,
            request: sent.request,
        })
    } else {
        Ok(read_stream_item(alloc, name, words)?)
    }
}

/// Reads another item of a proxy, of which the name was taken.
#[tactic(auto, using(text_model::proofs::Laws::bind_assoc), unfolding(crate::specs::Items::stream_item))]
fn read_stream_item(alloc: Global, name: &[u8], words: &mut Words) -> Result<Item, ReadError>
    ensures { Gives (λ i. (i, words.new)) result (into stream_to (stream_item.read (name.now ∷ words.old))) }
{
    if is_word(name, "opened") {
        let opened = read_opened(alloc, words)?;
        Ok(Item::Opened {
            proxy: opened.proxy,
            stream: opened.stream,
            member: opened.member,
            request: opened.request,
        })
    } else if is_word(name, "closed") {
        let (proxy, stream) = read_of_proxy(words)?;
        Ok(Item::Closed { proxy, stream })
    } else if is_word(name, "taken") {
        let proxy = read_proxy(words)?;
        let ticket = read_ticket(words)?;
        let item = WatchItem::read(alloc, words)?;
        Ok(Item::Taken {
            proxy,
            ticket,
            item,
        })
    } else if is_word(name, "pending") {
        let (proxy, ticket) = read_place(words)?;
        Ok(Item::Pending { proxy, ticket })
    } else if is_word(name, "left") {
        let (proxy, ticket) = read_place(words)?;
        Ok(Item::Left { proxy, ticket })
    } else if is_word(name, "reply") {
        let proxy = read_proxy(words)?;
        let ticket = read_ticket(words)?;
        let answer = Answer::read(alloc, words)?;
        Ok(Item::Reply {
            proxy,
            ticket,
            answer,
        })
    } else if is_word(name, "body") {
        let body = read_body(alloc, words)?;
        Ok(Item::Body {
            proxy: body.proxy,
            ticket: body.ticket,
            status: body.status,
            text: body.text,
        })
    } else {
        Ok(read_other_item(alloc, name, words)?)
    }
}

/// Reads an item of a call, a stream or the store, of which the name was taken.
#[tactic(auto, unfolding(crate::specs::Items::other_item))]
fn read_other_item(alloc: Global, name: &[u8], words: &mut Words) -> Result<Item, ReadError>
    ensures { Gives (λ i. (i, words.new)) result (into other_to (other_item.read (name.now ∷ words.old))) }
{
    if is_word(name, "executed") {
        let call = read_number(words)?;
        let answer = Answer::read(alloc, words)?;
        Ok(Item::Executed { call, answer })
    } else if is_word(name, "answered") {
        let call = read_number(words)?;
        Ok(Item::Answered { call })
    } else if is_word(name, "lost") {
        let call = read_number(words)?;
        Ok(Item::Lost { call })
    } else if is_word(name, "pushed") {
        let stream = read_number(words)?;
        let item = WatchItem::read(alloc, words)?;
        Ok(Item::Pushed { stream, item })
    } else if is_word(name, "delivered") {
        let stream = read_number(words)?;
        Ok(Item::Delivered { stream })
    } else if is_word(name, "cut") {
        let stream = read_number(words)?;
        Ok(Item::Cut { stream })
    } else if is_word(name, "expired") {
        let lease = read_number(words)?;
        Ok(Item::Expired { lease })
    } else if is_word(name, "applied") {
        let member = read_number(words)?;
        let revision = read_number(words)?;
        Ok(Item::Applied { member, revision })
    } else {
        Err(words.wrong())
    }
}

/// Reads a proxy and a number.
fn read_of_proxy(words: &mut Words) -> Result<(u64, u64), ReadError>
    ensures { Gives (λ x. (x, words.new)) result ((both proxy number).read words.old) }
{
    let proxy = read_proxy(words)?;
    let number = read_number(words)?;
    Ok((proxy, number))
}

/// A call that was sent.
#[derive(Drop)]
struct Sent {
    proxy: u64,
    call: u64,
    member: u64,
    ticket: u64,
    request: Request,
}

fn read_sent(alloc: Global, words: &mut Words) -> Result<Sent, ReadError>
    ensures { Gives (λ x. ((x.proxy, (x.call, (x.member, (x.ticket, x.request)))), words.new)) result
        ((both proxy (both number (both number (both number request)))).read words.old) }
{
    let proxy = read_proxy(words)?;
    let call = read_number(words)?;
    let member = read_number(words)?;
    let ticket = read_number(words)?;
    let request = Request::read(alloc, words)?;
    Ok(Sent {
        proxy,
        call,
        member,
        ticket,
        request,
    })
}

/// A stream that was opened.
#[derive(Drop)]
struct Opened {
    proxy: u64,
    stream: u64,
    member: u64,
    request: Request,
}

fn read_opened(alloc: Global, words: &mut Words) -> Result<Opened, ReadError>
    ensures { Gives (λ x. ((x.proxy, (x.stream, (x.member, x.request))), words.new)) result
        ((both proxy (both number (both number request))).read words.old) }
{
    let proxy = read_proxy(words)?;
    let stream = read_number(words)?;
    let member = read_number(words)?;
    let request = Request::read(alloc, words)?;
    Ok(Opened {
        proxy,
        stream,
        member,
        request,
    })
}

/// The status and the text of an answer.
#[derive(Drop)]
struct Body {
    proxy: u64,
    ticket: u64,
    status: u64,
    text: Bytes,
}

fn read_body(alloc: Global, words: &mut Words) -> Result<Body, ReadError>
    ensures { Gives (λ x. ((x.proxy, (x.ticket, (x.status, x.text))), words.new)) result
        ((both proxy (both ticket (both number bytes))).read words.old) }
{
    let proxy = read_proxy(words)?;
    let ticket = read_ticket(words)?;
    let status = read_number(words)?;
    let text = read_bytes(alloc, words)?;
    Ok(Body {
        proxy,
        ticket,
        status,
        text,
    })
}
