// Answers and messages that aren't the store's.

use crate::said::{Said, filled, tell, tell_found};
use audit_past::{Past, Trace, last};
use equal_values::same_header;
use etcd_types::{Answer, NoMemory, Reply, WatchItem};
use script_text::Item;
use std::alloc::Global;

/// In what two replies of one header's revision differ.
fn part_difference(
    alloc: Global,
    call: u64,
    told: &Reply,
    due: &Reply,
) -> Result<Vec<u8>, NoMemory> {
    if same_header(&told.header, &due.header) {
        filled(
            alloc,
            "the store's answer to call # has another body",
            &[call],
        )
    } else {
        filled(
            alloc,
            "the header of the answer to call # isn't the store's",
            &[call],
        )
    }
}

/// In what two replies differ.
fn reply_difference(
    alloc: Global,
    call: u64,
    told: &Reply,
    due: &Reply,
) -> Result<Vec<u8>, NoMemory> {
    let shown = told.header.revision;
    let held = due.header.revision;
    if shown == held {
        return part_difference(alloc, call, told, due);
    }
    filled(
        alloc,
        "the store executed call # at revision #, the answer's header shows #",
        &[call, held, shown],
    )
}

/// In what the answer that a call was done differs from the store's.
fn done_difference(
    alloc: Global,
    call: u64,
    told: &Reply,
    due: &Answer,
) -> Result<Vec<u8>, NoMemory> {
    match due {
        Answer::Done(due) => reply_difference(alloc, call, told, due),
        Answer::Refused(_) => filled(
            alloc,
            "the store refused call #, the answer says that it was done",
            &[call],
        ),
    }
}

/// In what a refusal differs from the store's answer.
fn refusal_difference(alloc: Global, call: u64, due: &Answer) -> Result<Vec<u8>, NoMemory> {
    match due {
        Answer::Done(_) => filled(
            alloc,
            "the store did what call # asked, the answer refuses it",
            &[call],
        ),
        Answer::Refused(_) => filled(alloc, "the store refused call # in other words", &[call]),
    }
}

/// In what two answers differ.
fn difference(alloc: Global, call: u64, told: &Answer, due: &Answer) -> Result<Vec<u8>, NoMemory> {
    match told {
        Answer::Done(told) => done_difference(alloc, call, told, due),
        Answer::Refused(_) => refusal_difference(alloc, call, due),
    }
}

/// Another answer than the store's, which is this one.
fn other_answer(
    alloc: Global,
    places: &[Option<usize>],
    call: u64,
    told: &Answer,
    due: &Answer,
) -> Result<Said, NoMemory> {
    let found = difference(alloc, call, told, due)?;
    let mut all = tell_found(alloc, found, places)?;
    all.expect_answer(alloc, "executed", &[call], due)?;
    Ok(all)
}

/// An answer to a call that isn't the store's.
pub(crate) fn answer_said(
    alloc: Global,
    items: &[Item],
    past: &mut Past,
    call: u64,
    told: &Answer,
) -> Result<Said, NoMemory> {
    past.read(items)?;
    let sent = last(Trace::Sends(call), items);
    match past.answer_to(items, call)? {
        None => tell(alloc, "call # wasn't sent", &[call], &[]),
        Some(due) => other_answer(alloc, &[sent, past.last_made()], call, told, &due),
    }
}

/// A message of the stream where this one is due.
fn other_message(
    alloc: Global,
    places: &[Option<usize>],
    stream: u64,
    due: &WatchItem,
) -> Result<Said, NoMemory> {
    let mut all = tell(
        alloc,
        "the store has another message for stream #",
        &[stream],
        places,
    )?;
    all.expect_message(alloc, "pushed", &[stream], due)?;
    Ok(all)
}

/// A pushed message that isn't the store's.
pub(crate) fn push_said(
    alloc: Global,
    items: &[Item],
    past: &mut Past,
    stream: u64,
    told: &WatchItem,
) -> Result<Said, NoMemory> {
    past.read(items)?;
    let opened = last(Trace::Opens(stream), items);
    let latest = last(Trace::Pushes(stream), items);
    match past.message_to(stream, told)? {
        None => tell(
            alloc,
            "the store has no such message for stream #",
            &[stream],
            &[opened, latest, past.last_made()],
        ),
        Some(due) => other_message(alloc, &[opened, latest, past.last_made()], stream, &due),
    }
}
