ghost use Rattle.std.specs.Prelude.{◌≡◌, ◌++◌, ◌∷◌, [], flat_map, IfOk, OnOk};
ghost use Rattle.world_model.specs.Gains.{reply_items, taken_items};

use api_reply::{encode_item, encode_reply};
use etcd_types::{Answer, List, NoMemory, WatchItem};
use script_text::Item;
use std::alloc::Global;
use std::collections::BTreeSet;

/// A line's own item.
pub fn one(alloc: Global, item: Item) -> Result<List<Item>, NoMemory>
    ensures { IfOk result (λ items. items ≡ item ∷ []) }
{
    let mut items = List::new(alloc);
    items.push(item)?;
    Ok(items)
}

/// Adds replies of a proxy, which are told as JSON, too, where they are to what was posted.
pub fn push_replies(
    alloc: Global,
    items: &mut List<Item>,
    proxy: u64,
    posted: &BTreeSet<u64>,
    replies: Vec<(u64, Answer)>,
) -> Result<(), NoMemory>
    ensures { OnOk result (items.new ≡ items.old ++ flat_map (reply_items proxy posted.now) replies.items) }
{
    for (ticket, answer) in replies {
        push_reply(alloc, items, proxy, posted, ticket, answer)?;
    }
    Ok(())
}

/// Adds one reply.
pub fn push_reply(
    alloc: Global,
    items: &mut List<Item>,
    proxy: u64,
    posted: &BTreeSet<u64>,
    ticket: u64,
    answer: Answer,
) -> Result<(), NoMemory>
    ensures { OnOk result (items.new ≡ items.old ++ reply_items proxy posted.now (ticket, answer)) }
{
    if !posted.contains(&ticket) {
        return Ok(items.push(Item::Reply {
            proxy,
            ticket,
            answer,
        })?);
    }
    let (status, text) = encode_reply(alloc, &answer)?;
    items.push(Item::Reply {
        proxy,
        ticket,
        answer,
    })?;
    items.push(Item::Body {
        proxy,
        ticket,
        status: u64::from(status),
        text,
    })?;
    Ok(())
}

/// What a client gains that takes a message of its watch.
pub fn taken(
    alloc: Global,
    proxy: u64,
    posted: &BTreeSet<u64>,
    ticket: u64,
    item: WatchItem,
) -> Result<List<Item>, NoMemory>
    ensures { IfOk result (λ items. items ≡ taken_items proxy posted.now ticket item) }
{
    if !posted.contains(&ticket) {
        return Ok(one(
            alloc,
            Item::Taken {
                proxy,
                ticket,
                item,
            },
        )?);
    }
    let text = encode_item(alloc, &item)?;
    let mut items = one(
        alloc,
        Item::Taken {
            proxy,
            ticket,
            item,
        },
    )?;
    items.push(Item::Body {
        proxy,
        ticket,
        status: 200,
        text,
    })?;
    Ok(items)
}
