ghost use Rattle.std.specs.Prelude.{◌≡◌, List as Values};
ghost use Rattle.audit_lives.specs.Index.{TellsAll};
ghost use Rattle.audit_model.specs.Calls.{is_sending as is_sent, is_own_call as is_call_of_life};
ghost use Rattle.audit_model.specs.Order.{can_settle as is_open_call};
ghost use Rattle.script_text.specs.declared.item.Item.{Item as Told};

use crate::index::Index;
use script_text::Item;

pub(crate) fn is_sending(item: &Item) -> bool
    ensures { result ≡ is_sent item.now }
{
    match item {
        Item::Sent { .. } => true,
        _ => false,
    }
}

/// Whether the proxy sent the call in the life that it has now.
fn is_own_call(index: &Index, call: u64, sender: Option<u64>) -> bool
    ensures { (items : Values Told) → TellsAll index.now items → result ≡ is_call_of_life call sender items }
{
    match sender {
        Some(proxy) => index.lives.sent_it(proxy, call),
        None => false,
    }
}

/// Whether the call was sent in its proxy's life, and neither answered nor lost.
pub(crate) fn can_settle(index: &Index, call: u64) -> bool
    ensures { (items : Values Told) → TellsAll index.now items → result ≡ is_open_call call items }
{
    is_own_call(index, call, index.sender_of(call)) && !index.calls.is_settled(call)
}
