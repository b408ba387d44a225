ghost use Rattle.std.specs.Prelude.{◌≤◌, IfOk};

use etcd_types::{Answer, Request, WatchItem};
use message_text::Text;
use proxy_core::{CoreEvent, Settings};
use std::alloc::Global;
use table_rows::Wrong;
use text_words::{Words, is_word, read_bytes, read_number};

/// The settings of a proxy before at least one member.
pub fn settings(alloc: Global, words: &mut Words) -> Result<Settings, Wrong>
    ensures { IfOk result (λ made. 1 ≤ made.members) }
{
    let Ok(members) = u32::try_from(read_number(words)?) else {
        return Err(Wrong::Word);
    };
    if members < 1 {
        return Err(Wrong::Word);
    }
    Ok(Settings {
        members,
        namespace: read_bytes(alloc, words)?,
        leasing: read_bytes(alloc, words)?,
        ttl: read_number(words)?,
    })
}

/// The event of this name.
pub fn event(alloc: Global, name: &[u8], words: &mut Words) -> Result<CoreEvent, Wrong> {
    if is_word(name, "work") {
        return Ok(CoreEvent::Work);
    }
    let number = read_number(words)?;
    if is_word(name, "ask") {
        asked(alloc, number, words)
    } else if is_word(name, "answer") {
        answered(alloc, number, words)
    } else if is_word(name, "item") {
        told(alloc, number, words)
    } else {
        numbered(name, number)
    }
}

/// An event that names a number and nothing else.
fn numbered(name: &[u8], number: u64) -> Result<CoreEvent, Wrong> {
    if is_word(name, "take") {
        Ok(CoreEvent::Take { ticket: number })
    } else if is_word(name, "leave") {
        Ok(CoreEvent::Leave { ticket: number })
    } else if is_word(name, "lost") {
        Ok(CoreEvent::Lost { call: number })
    } else if is_word(name, "cut") {
        Ok(CoreEvent::Cut { stream: number })
    } else if is_word(name, "tick") {
        Ok(CoreEvent::Tick { word: number })
    } else {
        Err(Wrong::Word)
    }
}

fn asked(alloc: Global, ticket: u64, words: &mut Words) -> Result<CoreEvent, Wrong> {
    let word = read_number(words)?;
    let request = Request::read(alloc, words)?;
    Ok(CoreEvent::Ask {
        ticket,
        request,
        word,
    })
}

fn answered(alloc: Global, call: u64, words: &mut Words) -> Result<CoreEvent, Wrong> {
    let answer = Answer::read(alloc, words)?;
    Ok(CoreEvent::Answer { call, answer })
}

fn told(alloc: Global, stream: u64, words: &mut Words) -> Result<CoreEvent, Wrong> {
    let item = WatchItem::read(alloc, words)?;
    Ok(CoreEvent::Item { stream, item })
}
