ghost use Rattle.std.specs.Prelude.{◌≡◌, ◌++◌, ◌∷◌, [], OnOk, string_bytes, codes, decimal};
ghost use Rattle.text_model.specs.Texts.{written};
ghost use Rattle.text_model.specs.Words.{bytes};
ghost use Rattle.message_text.specs.Requests.{request as request_form};
ghost use Rattle.script_text.specs.Lines.{world};
ghost use Rattle.script_text.specs.Items.{item_form};

use crate::item::Item;
use etcd_types::{Bytes, NoMemory, Request};
use message_text::{Text, push_named};
use text_words::{push_bytes, push_number, push_word};

/// Appends an item's words, each with a space behind it.
#[tactic(auto, using(text_model::proofs::TextLaws::in_turn), unfolding(crate::specs::Items::item_form, crate::specs::Items::item_words, crate::specs::Items::stream_item, crate::specs::Items::other_item))]
pub(crate) fn push_item(out: &mut String, item: &Item) -> Result<(), NoMemory>
    ensures { OnOk result (string_bytes out.new ≡ string_bytes out.old ++ written 32 (item_form.spell item.now)) }
{
    match item {
        Item::World {
            members,
            namespace,
            leasing,
        } => push_world(out, *members, namespace, leasing)?,
        Item::Started { proxy } => push_named(out, "started", proxy)?,
        Item::Restarted { proxy } => push_named(out, "restarted", proxy)?,
        Item::Clock { proxy, millis } => push_two(out, "clock", *proxy, *millis)?,
        Item::Asked {
            proxy,
            ticket,
            request,
        } => push_three(out, "asked", *proxy, *ticket, request)?,
        Item::Posted {
            proxy,
            ticket,
            path,
            body,
        } => push_posted(out, *proxy, *ticket, path, body)?,
        Item::Ticked { proxy } => push_named(out, "ticked", proxy)?,
        Item::Sent {
            proxy,
            call,
            member,
            ticket,
            request,
        } => {
            push_two(out, "sent", *proxy, *call)?;
            push_number(out, *member)?;
            push_number(out, *ticket)?;
            request.push(out)?;
        }
        Item::Opened {
            proxy,
            stream,
            member,
            request,
        } => {
            push_two(out, "opened", *proxy, *stream)?;
            push_number(out, *member)?;
            request.push(out)?;
        }
        Item::Closed { proxy, stream } => push_two(out, "closed", *proxy, *stream)?,
        Item::Executed { call, answer } => {
            push_named(out, "executed", call)?;
            answer.push(out)?;
        }
        Item::Answered { call } => push_named(out, "answered", call)?,
        Item::Lost { call } => push_named(out, "lost", call)?,
        Item::Pushed { stream, item } => {
            push_named(out, "pushed", stream)?;
            item.push(out)?;
        }
        Item::Delivered { stream } => push_named(out, "delivered", stream)?,
        Item::Cut { stream } => push_named(out, "cut", stream)?,
        Item::Taken {
            proxy,
            ticket,
            item,
        } => push_three(out, "taken", *proxy, *ticket, item)?,
        Item::Pending { proxy, ticket } => push_two(out, "pending", *proxy, *ticket)?,
        Item::Left { proxy, ticket } => push_two(out, "left", *proxy, *ticket)?,
        Item::Expired { lease } => push_named(out, "expired", lease)?,
        Item::Applied { member, revision } => push_two(out, "applied", *member, *revision)?,
        Item::Reply {
            proxy,
            ticket,
            answer,
        } => push_three(out, "reply", *proxy, *ticket, answer)?,
        Item::Body {
            proxy,
            ticket,
            status,
            text,
        } => {
            push_two(out, "body", *proxy, *ticket)?;
            push_number(out, *status)?;
            push_bytes(out, text)?;
        }
    }
    Ok(())
}

/// Appends a name and two numbers.
#[tactic(auto, using(text_model::proofs::TextLaws::in_turn))]
fn push_two(out: &mut String, name: &str, first: u64, second: u64) -> Result<(), NoMemory>
    ensures { OnOk result (string_bytes out.new ≡ string_bytes out.old
        ++ written 32 (name.now ∷ decimal first ∷ decimal second ∷ [])) }
{
    push_word(out, name)?;
    push_number(out, first)?;
    push_number(out, second)?;
    Ok(())
}

/// Appends a name, two numbers and a value.
#[tactic(auto, using(text_model::proofs::TextLaws::in_turn))]
fn push_three<T: Text>(
    out: &mut String,
    name: &str,
    first: u64,
    second: u64,
    value: &T,
) -> Result<(), NoMemory>
    ensures { OnOk result (string_bytes out.new ≡ string_bytes out.old
        ++ written 32 (name.now ∷ decimal first ∷ decimal second ∷ T.form.spell value.now)) }
{
    push_two(out, name, first, second)?;
    value.push(out)?;
    Ok(())
}

#[tactic(auto, using(text_model::proofs::TextLaws::in_turn), unfolding(crate::specs::Lines::world))]
fn push_world(
    out: &mut String,
    members: u64,
    namespace: &Bytes,
    leasing: &Bytes,
) -> Result<(), NoMemory>
    ensures { OnOk result (string_bytes out.new ≡ string_bytes out.old
        ++ written 32 (codes "world" ∷ world.spell (members, (namespace.now, leasing.now)))) }
{
    push_named(out, "world", &members)?;
    push_bytes(out, namespace)?;
    push_bytes(out, leasing)?;
    Ok(())
}

#[tactic(auto, using(text_model::proofs::TextLaws::in_turn))]
fn push_posted(
    out: &mut String,
    proxy: u64,
    ticket: u64,
    path: &Bytes,
    body: &Bytes,
) -> Result<(), NoMemory>
    ensures { OnOk result (string_bytes out.new ≡ string_bytes out.old
        ++ written 32 (codes "posted" ∷ decimal proxy ∷ decimal ticket ∷ bytes.spell path.now ++ bytes.spell body.now)) }
{
    push_two(out, "posted", proxy, ticket)?;
    push_bytes(out, path)?;
    push_bytes(out, body)?;
    Ok(())
}
