use crate::answers::{answer_said, push_said};
use crate::floors::early_said;
use crate::order::order_said;
use crate::reads::unsent_said;
use crate::rules::{LINE_RULE, rule_of};
use crate::said::{Said, filled, tell};
use crate::takes::watch_said;
use audit_model::{AuditFault, AuditRefusal};
use audit_past::{Past, mark_of};
use etcd_types::{Answer, NoMemory};
use script_text::{Item, LineFault, read_item, write_item};
use std::alloc::Global;

/// So many bytes are shown of a line that isn't the text of an item.
const MOST_SHOWN: usize = 200;

/// Why a line of a transcript is refused, for people, in lines that each end with a line feed: the line itself, the rule, the item that
/// would keep it where there is one, what was found, and the lines that this rests on.
///
/// `text` is the transcript as far as it was read, and the line of this number, from 1, is the first one of it that an audit refuses, so.
pub fn explanation(
    alloc: Global,
    text: &[u8],
    number: u64,
    refusal: &AuditRefusal,
) -> Result<Vec<u8>, NoMemory> {
    let start = line_start(text, number);
    let line = line_from(text, start);
    match refusal {
        AuditRefusal::BadLine { place } => bad_line(alloc, line, *place),
        AuditRefusal::Breaks(fault) => {
            bad_item(alloc, text.get(..start).unwrap_or(&[]), line, fault)
        }
    }
}

/// A line behind these, whose item has this fault.
fn bad_item(
    alloc: Global,
    before: &[u8],
    line: &[u8],
    fault: &AuditFault,
) -> Result<Vec<u8>, NoMemory> {
    match read_item(alloc, line) {
        Ok(item) => item_behind(alloc, before, line, &item, fault),
        Err(LineFault::NoMemory) => Err(NoMemory),
        Err(_) => Ok(Vec::new(alloc)),
    }
}

/// The item of a line behind these.
fn item_behind(
    alloc: Global,
    before: &[u8],
    line: &[u8],
    item: &Item,
    fault: &AuditFault,
) -> Result<Vec<u8>, NoMemory> {
    let items = items_of(alloc, before)?;
    broken_rule(alloc, items.as_slice(), line, item, fault)
}

fn push_item(alloc: Global, items: &mut Vec<Item>, line: &[u8]) -> Result<(), NoMemory> {
    match read_item(alloc, line) {
        Ok(item) => Ok(items.push(item)?),
        Err(LineFault::NoMemory) => Err(NoMemory),
        Err(_) => Ok(()),
    }
}

/// The items of these lines, each of which ends with a line feed.
fn items_of(alloc: Global, text: &[u8]) -> Result<Vec<Item>, NoMemory> {
    let mut items = Vec::new(alloc);
    let mut start = 0usize;
    for (at, byte) in text.iter().enumerate() {
        if *byte == b'\n' {
            push_item(alloc, &mut items, text.get(start..at).unwrap_or(&[]))?;
            start = at.saturating_add(1);
        }
    }
    Ok(items)
}

/// The place where the line of this number begins.
fn line_start(text: &[u8], number: u64) -> usize {
    let mut start = 0usize;
    let mut next = 1u64;
    for (at, byte) in text.iter().enumerate() {
        if next < number && *byte == b'\n' {
            start = at.saturating_add(1);
            next = next.saturating_add(1);
        }
    }
    start
}

/// The line that begins at this place, without its line feed.
fn line_from(text: &[u8], start: usize) -> &[u8] {
    let rest = text.get(start..).unwrap_or(&[]);
    for (at, byte) in rest.iter().enumerate() {
        if *byte == b'\n' {
            return rest.get(..at).unwrap_or(rest);
        }
    }
    rest
}

/// Appends a line that begins with this name.
fn push_line(text: &mut Vec<u8>, name: &str, rest: &[u8]) -> Result<(), NoMemory> {
    text.extend_from_slice(name.as_bytes())?;
    text.extend_from_slice(rest)?;
    text.push(b'\n')?;
    Ok(())
}

/// Appends the front of a line of any bytes, in which all but printable ASCII characters are shown as `?`.
fn push_shown(text: &mut Vec<u8>, line: &[u8]) -> Result<(), NoMemory> {
    let front = line.get(..MOST_SHOWN).unwrap_or(line);
    for byte in front {
        let is_printable = 0x20 <= *byte && *byte < 0x7f;
        text.push(if is_printable { *byte } else { b'?' })?;
    }
    if MOST_SHOWN < line.len() {
        text.extend_from_slice(b"..")?;
    }
    Ok(())
}

/// Appends the line of an item, and that of the rule that it breaks.
fn push_rule(text: &mut Vec<u8>, line: &[u8], rule: &str) -> Result<(), NoMemory> {
    push_line(text, "item: ", line)?;
    push_line(text, "rule: ", rule.as_bytes())
}

/// Appends what was expected, where there is such, and what was found.
fn push_found(text: &mut Vec<u8>, told: &Said) -> Result<(), NoMemory> {
    if let Some(expected) = &told.expected {
        push_line(text, "expected: ", expected.as_bytes())?;
    }
    push_line(text, "found: ", told.found.as_slice())
}

/// A line that isn't the text of an item.
fn bad_line(alloc: Global, line: &[u8], place: u64) -> Result<Vec<u8>, NoMemory> {
    let mut shown = Vec::new(alloc);
    push_shown(&mut shown, line)?;
    let found = filled(alloc, "word # is wrong, missing or too many", &[place])?;
    let mut text = Vec::new(alloc);
    push_rule(&mut text, shown.as_slice(), LINE_RULE)?;
    push_line(&mut text, "found: ", found.as_slice())?;
    Ok(text)
}

/// What is said of the item, which has this fault. The past is still to be read.
fn said_of(
    alloc: Global,
    items: &[Item],
    past: &mut Past,
    item: &Item,
    fault: &AuditFault,
) -> Result<Said, NoMemory> {
    match fault {
        AuditFault::Order(_) => order_said(alloc, items, past, mark_of(item)),
        AuditFault::Early { clock, floor } => match item {
            Item::Expired { lease } => early_said(alloc, items, *lease, *clock, *floor),
            _ => tell(alloc, "a session expires too early", &[], &[]),
        },
        _ => value_said(alloc, items, past, item),
    }
}

/// What is said of an item that tells something else than the store holds.
fn value_said(
    alloc: Global,
    items: &[Item],
    past: &mut Past,
    item: &Item,
) -> Result<Said, NoMemory> {
    match item {
        Item::Executed { call, answer } => answer_said(alloc, items, past, *call, answer),
        Item::Pushed { stream, item } => push_said(alloc, items, past, *stream, item),
        Item::Taken {
            proxy,
            ticket,
            item,
        } => watch_said(alloc, items, past, *proxy, *ticket, item),
        Item::Reply {
            proxy,
            ticket,
            answer: Answer::Done(reply),
        } => unsent_said(alloc, items, past, *proxy, *ticket, reply),
        _ => tell(alloc, "the item isn't what the store tells", &[], &[]),
    }
}

/// The same as `said_of`. A past is costly to drop in a proof, so it is kept here alone.
fn told_of(
    alloc: Global,
    items: &[Item],
    item: &Item,
    fault: &AuditFault,
) -> Result<Said, NoMemory> {
    let mut past = Past::new(alloc, items)?;
    said_of(alloc, items, &mut past, item, fault)
}

/// Appends the item at the place, from 0, with its line's number.
fn push_place(
    alloc: Global,
    text: &mut Vec<u8>,
    place: usize,
    item: &Item,
) -> Result<(), NoMemory> {
    let number = (place as u64).saturating_add(1);
    text.extend_from_slice(filled(alloc, "rests on line #", &[number])?.as_slice())?;
    push_line(text, ": ", write_item(alloc, item)?.as_slice())
}

/// Appends the items at these places, each with its line's number.
fn push_items(
    alloc: Global,
    text: &mut Vec<u8>,
    items: &[Item],
    places: &[usize],
) -> Result<(), NoMemory> {
    for (place, item) in items.iter().enumerate() {
        if places.contains(&place) {
            push_place(alloc, text, place, item)?;
        }
    }
    Ok(())
}

/// An item that breaks a rule.
fn broken_rule(
    alloc: Global,
    items: &[Item],
    line: &[u8],
    item: &Item,
    fault: &AuditFault,
) -> Result<Vec<u8>, NoMemory> {
    let told = told_of(alloc, items, item, fault)?;
    let mut text = Vec::new(alloc);
    push_rule(&mut text, line, rule_of(fault, mark_of(item).kind))?;
    push_found(&mut text, &told)?;
    push_items(alloc, &mut text, items, told.places.as_slice())?;
    Ok(text)
}
