use crate::logs::{Way, body_length, first_answer, line_length, log};
use crate::outcome::Outcome;
use crate::part::{Part, try_call};
use crate::pieces::Pieces;
use etcd_types::Bytes;
use http_wire::LINE_LIMIT;
use std::alloc::Global;
use table_rows::Wrong;
use text_words::{Words, is_word, read_bytes, read_number_within};

/// How a log ends where a read failed.
const READ_FAULT: &str = "read fault, Some(ReadFault)";

/// Nothing is filled up with more bytes.
const MOST_TIMES: u64 = 10_000_000;

/// The pieces in which long heads come.
const SHORT_PIECE: usize = 1_000;

/// The pieces in which long bodies and lines come.
const LONG_PIECE: usize = 1_000_000;

/// Tries the case of a line, in each way of its kind.
pub fn try_line(alloc: Global, line: &str) -> Result<Outcome, Wrong> {
    let mut words = Words::of(b' ', line.as_bytes());
    let name = words.take()?;
    if let Some(way) = way_of(name, &mut words)? {
        try_cuts(alloc, way, &mut words)
    } else if is_word(name, "request_at_once") {
        try_at_once(alloc, Way::Requests, &mut words)
    } else if is_word(name, "answer_at_once") {
        try_at_once(alloc, Way::Lines(LINE_LIMIT), &mut words)
    } else if is_word(name, "request_failing") {
        try_failing(alloc, &mut words)
    } else if is_word(name, "request_filled") {
        try_filled(alloc, &mut words)
    } else if is_word(name, "body") || is_word(name, "line") {
        try_length(alloc, is_word(name, "line"), &mut words)
    } else if is_word(name, "alone") {
        try_alone(alloc, &mut words)
    } else if is_word(name, "call") || is_word(name, "kept_call") {
        try_a_call(alloc, is_word(name, "kept_call"), &mut words)
    } else {
        try_part(alloc, name, &mut words)
    }
}

/// What is read under this name, if it is one of the names of cases that are read at each cut.
fn way_of(name: &[u8], words: &mut Words) -> Result<Option<Way>, Wrong> {
    Ok(if is_word(name, "request") {
        Some(Way::Requests)
    } else if is_word(name, "answer") {
        Some(Way::Lines(LINE_LIMIT))
    } else if is_word(name, "lines") {
        Some(Way::Lines(read_limit(words)?))
    } else if is_word(name, "whole") {
        Some(Way::Whole(read_limit(words)?))
    } else {
        None
    })
}

fn read_limit(words: &mut Words) -> Result<usize, Wrong> {
    Ok(read_number_within(words, 0, MOST_TIMES)? as usize)
}

/// The last word: what has to come.
fn read_outcome(alloc: Global, words: &mut Words) -> Result<Outcome, Wrong> {
    let wanted = read_bytes(alloc, words)?;
    words.end()?;
    Ok(Outcome::new(wanted))
}

/// In one piece, in two pieces at each cut, and byte by byte.
fn try_cuts(alloc: Global, way: Way, words: &mut Words) -> Result<Outcome, Wrong> {
    let bytes = read_bytes(alloc, words)?;
    let mut outcome = read_outcome(alloc, words)?;
    let bytes = bytes.as_slice();
    for first in 0..=bytes.len() {
        let later = if first == 0 { 1 } else { bytes.len() };
        let mut source = Pieces::new(bytes, first, later);
        outcome.compare(log(alloc, way, &mut source)?);
    }
    Ok(outcome)
}

/// In one piece, and the second read fails: what it takes to tell the first is there without it.
fn try_at_once(alloc: Global, way: Way, words: &mut Words) -> Result<Outcome, Wrong> {
    let bytes = read_bytes(alloc, words)?;
    let mut outcome = read_outcome(alloc, words)?;
    let bytes = bytes.as_slice();
    let mut source = Pieces::new(bytes, bytes.len(), 1).failing(2);
    outcome.compare(log(alloc, way, &mut source)?);
    Ok(outcome)
}

/// In one piece, and no second answer is read.
fn try_alone(alloc: Global, words: &mut Words) -> Result<Outcome, Wrong> {
    let most = read_limit(words)?;
    let bytes = read_bytes(alloc, words)?;
    let mut outcome = read_outcome(alloc, words)?;
    let bytes = bytes.as_slice();
    let mut source = Pieces::new(bytes, bytes.len(), 1);
    outcome.compare(first_answer(alloc, most, &mut source)?);
    Ok(outcome)
}

/// Byte by byte, where no read fails, and with each read failing in turn, the one that finds the end too.
fn try_failing(alloc: Global, words: &mut Words) -> Result<Outcome, Wrong> {
    let bytes = read_bytes(alloc, words)?;
    let mut outcome = read_outcome(alloc, words)?;
    let bytes = bytes.as_slice();
    let reads = (bytes.len() as u64).saturating_add(1);
    outcome.compare(log(alloc, Way::Requests, &mut Pieces::new(bytes, 0, 1))?);
    outcome.compare(log(
        alloc,
        Way::Requests,
        &mut Pieces::new(bytes, 0, 1).failing(reads.saturating_add(1)),
    )?);
    for failing in 1..=reads {
        let mut source = Pieces::new(bytes, 0, 1).failing(failing);
        let came = log(alloc, Way::Requests, &mut source)?;
        outcome.note(came.as_str().ends_with(READ_FAULT), came);
    }
    Ok(outcome)
}

/// A front, a filling, how often it stands there, and a back, in pieces.
fn try_filled(alloc: Global, words: &mut Words) -> Result<Outcome, Wrong> {
    let front = read_bytes(alloc, words)?;
    let filling = read_bytes(alloc, words)?;
    let times = read_number_within(words, 0, MOST_TIMES)?;
    let back = read_bytes(alloc, words)?;
    let mut outcome = read_outcome(alloc, words)?;
    let bytes = filled(alloc, &front, &filling, times, &back)?;
    let mut source = Pieces::new(bytes.as_slice(), 0, SHORT_PIECE);
    outcome.compare(log(alloc, Way::Requests, &mut source)?);
    Ok(outcome)
}

fn filled(
    alloc: Global,
    front: &Bytes,
    filling: &Bytes,
    times: u64,
    back: &Bytes,
) -> Result<Vec<u8>, Wrong> {
    let mut bytes = Vec::from_slice(alloc, front.as_slice())?;
    for _ in 0..times {
        bytes.extend_from_slice(filling.as_slice())?;
    }
    bytes.extend_from_slice(back.as_slice())?;
    Ok(bytes)
}

/// A front, how many bytes follow it, and a back, in long pieces: the length of the body or of the line.
fn try_length(alloc: Global, is_line: bool, words: &mut Words) -> Result<Outcome, Wrong> {
    let front = read_bytes(alloc, words)?;
    let times = read_number_within(words, 0, MOST_TIMES)?;
    let back = read_bytes(alloc, words)?;
    let mut outcome = read_outcome(alloc, words)?;
    let bytes = long(alloc, &front, times as usize, &back)?;
    let mut source = Pieces::new(bytes.as_slice(), 0, LONG_PIECE);
    let came = if is_line {
        line_length(alloc, &mut source)?
    } else {
        body_length(alloc, &mut source)?
    };
    outcome.compare(came);
    Ok(outcome)
}

fn long(alloc: Global, front: &Bytes, times: usize, back: &Bytes) -> Result<Vec<u8>, Wrong> {
    let front = front.as_slice();
    let mut bytes = Vec::from_slice(alloc, front)?;
    bytes.resize(front.len().saturating_add(times), b'a')?;
    bytes.extend_from_slice(back.as_slice())?;
    Ok(bytes)
}

/// A host, a path and a body.
fn try_a_call(alloc: Global, stays: bool, words: &mut Words) -> Result<Outcome, Wrong> {
    let host = read_bytes(alloc, words)?;
    let path = read_bytes(alloc, words)?;
    let body = read_bytes(alloc, words)?;
    let mut outcome = read_outcome(alloc, words)?;
    try_call(alloc, stays, &host, &path, &body, &mut outcome)?;
    Ok(outcome)
}

fn try_part(alloc: Global, name: &[u8], words: &mut Words) -> Result<Outcome, Wrong> {
    let part = Part::read(alloc, name, words)?;
    let mut outcome = read_outcome(alloc, words)?;
    part.try_out(alloc, &mut outcome)?;
    Ok(outcome)
}
