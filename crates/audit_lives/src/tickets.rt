ghost use Rattle.std.specs.Prelude.{◌≡◌, ◌&&◌, not, List as Values};
ghost use Rattle.std.specs.Option.{option_copied};
ghost use Rattle.audit_lives.specs.Index.{TellsAll};
ghost use Rattle.audit_model.specs.Order.{is_watch as is_a_watch, is_replied as has_reply, is_watch_of as is_watch_there, knows_ticket as is_known_ticket, knows_watch as is_known_watch};
ghost use Rattle.script_text.specs.declared.item.Item.{Item as Told};
ghost use Rattle.world_model.specs.Lives.{life as last_life};

use crate::index::Index;
use etcd_types::Request;

/// Whether the request opens a watch.
pub fn is_watch(request: &Request) -> bool
    ensures { result ≡ is_a_watch request.now }
{
    match request {
        Request::Watch(_) => true,
        _ => false,
    }
}

fn is_watch_of(request: Option<&Request>) -> bool
    ensures { result ≡ is_watch_there (option_copied request.entry) }
{
    match request {
        Some(request) => is_watch(request),
        None => false,
    }
}

/// Whether the proxy was started, and the ticket of its life was asked or posted.
pub(crate) fn knows_ticket(index: &Index, proxy: u64, ticket: u64) -> bool
    ensures { (items : Values Told) → TellsAll index.now items → result ≡ is_known_ticket proxy ticket items }
{
    index.lives.has_started(proxy) && index.lives.is_given_ticket(proxy, ticket)
}

/// Whether the ticket of the proxy's life is known, and wasn't replied.
pub(crate) fn can_reply(index: &Index, proxy: u64, ticket: u64) -> bool
    ensures { (items : Values Told) → TellsAll index.now items → result ≡ (is_known_ticket proxy ticket items && not (has_reply proxy ticket (last_life proxy items))) }
{
    knows_ticket(index, proxy, ticket) && !index.lives.is_replied(proxy, ticket)
}

/// Whether the proxy was started, and a watch was asked under the ticket of its life.
pub(crate) fn knows_watch(index: &Index, proxy: u64, ticket: u64) -> bool
    ensures { (items : Values Told) → TellsAll index.now items → result ≡ is_known_watch proxy ticket items }
{
    index.lives.has_started(proxy) && is_watch_of(index.asked_as(proxy, ticket))
}
