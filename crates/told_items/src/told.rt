ghost use Rattle.std.specs.Prelude.{◌≡◌, IfOk, IfSome};
ghost use Rattle.json_model.specs.WrittenReplies.{item_text};

use crate::message::Message;
use etcd_types::{Bytes, NoMemory, WatchItem};
use std::alloc::Global;
use std::fmt;
use std::marker::Model;
use std::sync::Arc;

/// Where a message lies.
#[derive(Drop)]
enum Body {
    Alone(WatchItem),
    Shared(Arc<Message, Global>),
}

/// A message of a watch. Contracts see it as the message itself.
#[derive(Drop)]
pub struct Told {
    body: Body,
}

impl Model for Told {
    ghost use Rattle.etcd_types.specs.declared.watch.WatchItem.{WatchItem};
    ghost use Rattle.told_items.specs.Shared.{item_in};

    ghost Value = { WatchItem };

    ghost view = { λ t. item_in t.body };
}

impl Told {
    /// A message that one watch has. It takes no memory.
    pub fn alone(item: WatchItem) -> Told
        ensures { result ≡ item }
    {
        Told {
            body: Body::Alone(item),
        }
    }

    /// A message that many have, with its text as the mapping writes it: bytes of JSON, with no line end.
    pub fn shared(alloc: Global, item: WatchItem, text: Bytes) -> Result<Told, NoMemory>
        requires { text ≡ item_text item }
        ensures { IfOk result (λ t. t ≡ item) }
    {
        let body = Arc::new(
            alloc,
            Message {
                item,
                text: Some(text),
            },
        )?;
        Ok(Told {
            body: Body::Shared(body),
        })
    }

    /// A share of a message that many have; a copy of one that one watch has.
    pub fn share(&self, alloc: Global) -> Result<Told, NoMemory>
        ensures { IfOk result (λ t. t ≡ self.now) }
    {
        let body = match &self.body {
            Body::Alone(item) => Body::Alone(item.copy(alloc)?),
            Body::Shared(message) => Body::Shared(Arc::try_clone(message)?),
        };
        Ok(Told { body })
    }

    /// The message.
    pub fn item(&self) -> &WatchItem
        ensures { result.now ≡ self.now }
    {
        match &self.body {
            Body::Alone(item) => item,
            Body::Shared(message) => &message.item,
        }
    }

    /// The message by itself, copied where many have it.
    pub fn into_item(self, alloc: Global) -> Result<WatchItem, NoMemory>
        ensures { IfOk result (λ item. item ≡ self) }
    {
        match self.body {
            Body::Alone(item) => Ok(item),
            Body::Shared(message) => message.item.copy(alloc),
        }
    }

    /// Its text, where it was written for all who have it.
    pub fn text(&self) -> Option<&[u8]>
        ensures { IfSome result (λ text. text.now ≡ item_text self.now) }
    {
        match &self.body {
            Body::Alone(_) => None,
            Body::Shared(message) => match &message.text {
                Some(text) => Some(text.as_slice()),
                None => None,
            },
        }
    }
}

// By hand, so that what is shown tells the message and not who shares it.
impl fmt::Debug for Told {
    fn fmt<W: fmt::Write>(&self, f: &mut fmt::Formatter<W>) -> fmt::Result {
        f.debug_struct("Told").field("item", self.item()).finish()
    }
}
