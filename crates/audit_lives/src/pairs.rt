//! What an item is looked up by later.

ghost use Rattle.std.specs.Prelude.{◌≡◌};
ghost use Rattle.audit_lives.specs.Pairs.{asked as asks, cancelled as cancels, compacted as tells_compaction, compaction_in as names_compaction, delivered as delivers, ended as ends, executed as executes, given as gives, named as names, opened as opens, opened_own as opens_own, pushed as pushes, replied as replies, sent as sends, sent_own as sends_own, settled as settles};

use crate::streams::is_cancellation;
use etcd_types::WatchItem;
use script_text::Item;

pub(crate) fn asked(item: &Item) -> Option<(u64, u64)>
    ensures { result ≡ asks item.now }
{
    match item {
        Item::Asked { proxy, ticket, .. } => Some((*proxy, *ticket)),
        _ => None,
    }
}

pub(crate) fn given(item: &Item) -> Option<(u64, u64)>
    ensures { result ≡ gives item.now }
{
    match item {
        Item::Asked { proxy, ticket, .. } => Some((*proxy, *ticket)),
        Item::Posted { proxy, ticket, .. } => Some((*proxy, *ticket)),
        _ => None,
    }
}

pub(crate) fn replied(item: &Item) -> Option<(u64, u64)>
    ensures { result ≡ replies item.now }
{
    match item {
        Item::Reply { proxy, ticket, .. } => Some((*proxy, *ticket)),
        _ => None,
    }
}

pub(crate) fn named(item: &Item) -> Option<(u64, u64)>
    ensures { result ≡ names item.now }
{
    match item {
        Item::Sent { proxy, ticket, .. } => Some((*proxy, *ticket)),
        _ => None,
    }
}

pub(crate) fn sent_own(item: &Item) -> Option<(u64, u64)>
    ensures { result ≡ sends_own item.now }
{
    match item {
        Item::Sent { proxy, call, .. } => Some((*proxy, *call)),
        _ => None,
    }
}

pub(crate) fn opened_own(item: &Item) -> Option<(u64, u64)>
    ensures { result ≡ opens_own item.now }
{
    match item {
        Item::Opened { proxy, stream, .. } => Some((*proxy, *stream)),
        _ => None,
    }
}

pub(crate) fn sent(item: &Item) -> Option<(u64, u64)>
    ensures { result ≡ sends item.now }
{
    match item {
        Item::Sent { call, .. } => Some((0, *call)),
        _ => None,
    }
}

pub(crate) fn executed(item: &Item) -> Option<(u64, u64)>
    ensures { result ≡ executes item.now }
{
    match item {
        Item::Executed { call, .. } => Some((0, *call)),
        _ => None,
    }
}

pub(crate) fn settled(item: &Item) -> Option<(u64, u64)>
    ensures { result ≡ settles item.now }
{
    match item {
        Item::Answered { call } => Some((0, *call)),
        Item::Lost { call } => Some((0, *call)),
        _ => None,
    }
}

pub(crate) fn opened(item: &Item) -> Option<(u64, u64)>
    ensures { result ≡ opens item.now }
{
    match item {
        Item::Opened { stream, .. } => Some((0, *stream)),
        _ => None,
    }
}

pub(crate) fn ended(item: &Item) -> Option<(u64, u64)>
    ensures { result ≡ ends item.now }
{
    match item {
        Item::Cut { stream } => Some((0, *stream)),
        Item::Closed { stream, .. } => Some((0, *stream)),
        _ => None,
    }
}

pub(crate) fn cancelled(item: &Item) -> Option<(u64, u64)>
    ensures { result ≡ cancels item.now }
{
    match item {
        Item::Pushed { stream, item } => {
            if is_cancellation(item) {
                Some((0, *stream))
            } else {
                None
            }
        }
        _ => None,
    }
}

fn compaction_in(message: &WatchItem) -> Option<(u64, u64)>
    ensures { result ≡ names_compaction message.now }
{
    match message {
        WatchItem::Canceled { compact, .. } => Some((0, *compact)),
        _ => None,
    }
}

pub(crate) fn compacted(item: &Item) -> Option<(u64, u64)>
    ensures { result ≡ tells_compaction item.now }
{
    match item {
        Item::Pushed { item, .. } => compaction_in(item),
        _ => None,
    }
}

pub(crate) fn pushed(item: &Item) -> Option<u64>
    ensures { result ≡ pushes item.now }
{
    match item {
        Item::Pushed { stream, .. } => Some(*stream),
        _ => None,
    }
}

pub(crate) fn delivered(item: &Item) -> Option<u64>
    ensures { result ≡ delivers item.now }
{
    match item {
        Item::Delivered { stream } => Some(*stream),
        _ => None,
    }
}
