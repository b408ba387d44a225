ghost use Rattle.message_text.specs.WatchItems.{change, event, watch_item};

use crate::text::{Text, push_list, read_list};
use etcd_types::{Change, Event, Header, Kv, NoMemory, WatchItem};
use std::alloc::Global;
use text_words::{
    ReadError, Words, is_word, push_bytes, push_number, push_word, read_bytes, read_number,
};

/// `put KV` or `delete K MOD`
impl Text for Change {
    ghost form = { change };

    #[tactic(auto, unfolding(crate::specs::WatchItems::change))]
    fn read(alloc: Global, words: &mut Words) -> Result<Change, ReadError> {
        let name = words.take()?;
        if is_word(name, "put") {
            Ok(Change::Put(Kv::read(alloc, words)?))
        } else if is_word(name, "delete") {
            let key = read_bytes(alloc, words)?;
            let modified = read_number(words)?;
            Ok(Change::Delete { key, modified })
        } else {
            Err(words.wrong())
        }
    }

    #[tactic(auto, using(text_model::proofs::TextLaws::in_turn), unfolding(crate::specs::WatchItems::change))]
    fn push(&self, out: &mut String) -> Result<(), NoMemory> {
        match self {
            Change::Put(kv) => {
                push_word(out, "put")?;
                kv.push(out)?;
            }
            Change::Delete { key, modified } => {
                push_word(out, "delete")?;
                push_bytes(out, key)?;
                push_number(out, *modified)?;
            }
        }
        Ok(())
    }
}

/// A change, and the record before it.
impl Text for Event {
    ghost form = { event };

    #[tactic(auto, unfolding(crate::specs::WatchItems::event))]
    fn read(alloc: Global, words: &mut Words) -> Result<Event, ReadError> {
        let change = Change::read(alloc, words)?;
        let prev = Option::<Kv>::read(alloc, words)?;
        Ok(Event { change, prev })
    }

    #[tactic(auto, using(text_model::proofs::TextLaws::in_turn), unfolding(crate::specs::WatchItems::event))]
    fn push(&self, out: &mut String) -> Result<(), NoMemory> {
        self.change.push(out)?;
        self.prev.push(out)?;
        Ok(())
    }
}

/// `created HEADER`, `events HEADER LIST` or `canceled HEADER COMPACT`
impl Text for WatchItem {
    ghost form = { watch_item };

    #[tactic(auto, unfolding(crate::specs::WatchItems::watch_item))]
    fn read(alloc: Global, words: &mut Words) -> Result<WatchItem, ReadError> {
        let name = words.take()?;
        if is_word(name, "created") {
            Ok(WatchItem::Created(Header::read(alloc, words)?))
        } else if is_word(name, "events") {
            let header = Header::read(alloc, words)?;
            let events = read_list(alloc, words)?;
            Ok(WatchItem::Events { header, events })
        } else if is_word(name, "canceled") {
            let header = Header::read(alloc, words)?;
            let compact = read_number(words)?;
            Ok(WatchItem::Canceled { header, compact })
        } else {
            Err(words.wrong())
        }
    }

    #[tactic(auto, using(text_model::proofs::TextLaws::in_turn), unfolding(crate::specs::WatchItems::watch_item))]
    fn push(&self, out: &mut String) -> Result<(), NoMemory> {
        match self {
            WatchItem::Created(header) => {
                push_word(out, "created")?;
                header.push(out)?;
            }
            WatchItem::Events { header, events } => {
                push_word(out, "events")?;
                header.push(out)?;
                push_list(out, events)?;
            }
            WatchItem::Canceled { header, compact } => {
                push_word(out, "canceled")?;
                header.push(out)?;
                push_number(out, *compact)?;
            }
        }
        Ok(())
    }
}
