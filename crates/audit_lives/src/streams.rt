ghost use Rattle.std.specs.Prelude.{◌≡◌, List as Values};
ghost use Rattle.audit_lives.specs.Index.{TellsAll};
ghost use Rattle.audit_model.specs.Order.{is_open_stream as is_open};
ghost use Rattle.audit_model.specs.Streams.{is_opening as is_opened, is_own_stream as is_stream_of_life, is_cancellation as is_cancelling};
ghost use Rattle.script_text.specs.declared.item.Item.{Item as Told};

use crate::index::Index;
use etcd_types::WatchItem;
use script_text::Item;

pub(crate) fn is_opening(item: &Item) -> bool
    ensures { result ≡ is_opened item.now }
{
    match item {
        Item::Opened { .. } => true,
        _ => false,
    }
}

/// Whether the proxy opened the stream in the life that it has now.
fn is_own_stream(index: &Index, stream: u64, opener: Option<u64>) -> bool
    ensures { (items : Values Told) → TellsAll index.now items → result ≡ is_stream_of_life stream opener items }
{
    match opener {
        Some(proxy) => index.lives.opened_it(proxy, stream),
        None => false,
    }
}

/// Whether the stream was opened in its proxy's life, and neither cut nor closed.
pub(crate) fn is_open_stream(index: &Index, stream: u64) -> bool
    ensures { (items : Values Told) → TellsAll index.now items → result ≡ is_open stream items }
{
    is_own_stream(index, stream, index.opener_of(stream)) && !index.streams.has_ended(stream)
}

pub(crate) fn is_cancellation(message: &WatchItem) -> bool
    ensures { result ≡ is_cancelling message.now }
{
    match message {
        WatchItem::Canceled { .. } => true,
        _ => false,
    }
}
