ghost use Rattle.std.specs.Prelude.{◌≡◌};
ghost use Rattle.core_model.specs.Heard.{later_header};
ghost use Rattle.core_model.specs.LeasingStream.{item_header};

use etcd_types::{Header, WatchItem};

/// A header was delivered: the cached one is that of the higher revision, the later one on a tie.
pub fn raise_header(cached: &mut Header, delivered: Header)
    ensures { cached.new ≡ later_header cached.old delivered }
{
    if cached.revision <= delivered.revision {
        *cached = delivered;
    }
}

/// The header of a watch's message.
pub fn item_header(item: &WatchItem) -> Header
    ensures { result ≡ item_header item.now }
{
    match item {
        WatchItem::Created(header) => *header,
        WatchItem::Events { header, .. } | WatchItem::Canceled { header, .. } => *header,
    }
}
