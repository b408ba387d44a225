//! What a wire makes of a source, as text.

use crate::pieces::Pieces;
use etcd_types::Bytes;
use http_wire::{AnswerHead, Framing, Head, LINE_LIMIT, Wire, WireFault};
use outside::ReadMark;
use std::alloc::Global;
use table_rows::{Wrong, text};

const MOST_REQUESTS: u32 = 8;

const MOST_ANSWERS: u32 = 4;

const MOST_LINES: u32 = 8;

/// What is read of the bytes.
#[derive(Clone, Copy, Debug)]
pub enum Way {
    /// Requests.
    Requests,
    /// Answers, each by lines of at most so many bytes.
    Lines(usize),
    /// Answers, each with its whole body of at most so many bytes.
    Whole(usize),
}

/// The text of the requests or answers that come, up to a fault or the end. An answer's lines, or its whole body, stand in
/// brackets. A fault is asked for twice. A request is told whose head or body the source didn't hear of.
pub fn log(alloc: Global, way: Way, source: &mut Pieces) -> Result<String, Wrong> {
    let mut log = String::new(alloc);
    let mut wire = Wire::new(alloc)?;
    let most = match way {
        Way::Requests => MOST_REQUESTS,
        Way::Lines(_) | Way::Whole(_) => MOST_ANSWERS,
    };
    for _ in 0..most {
        let goes_on = match way {
            Way::Requests => tell_request(&mut log, &mut wire, source)?,
            Way::Lines(_) | Way::Whole(_) => tell_answer(&mut log, way, &mut wire, source)?,
        };
        if !goes_on {
            break;
        }
    }
    Ok(log)
}

/// Tells the next request, and whether another may follow.
fn tell_request(log: &mut String, wire: &mut Wire, source: &mut Pieces) -> Result<bool, Wrong> {
    match next_head(wire, source) {
        Ok(None) => {
            log.push_str("end")?;
            Ok(false)
        }
        Ok(Some(head)) => {
            tell_head(log, &head)?;
            tell_mark(log, source, ReadMark::Head)?;
            tell_body(log, wire, source, &head)
        }
        Err(fault) => tell_fault(log, fault, next_head(wire, source).err()),
    }
}

fn next_head(wire: &mut Wire, source: &mut Pieces) -> Result<Option<Head>, WireFault> {
    wire.read_head(source)
}

fn tell_head(log: &mut String, head: &Head) -> Result<(), Wrong> {
    let method = head.method.as_str();
    let path = text(head.path.as_slice());
    write!(log, "{method} {path} ")?;
    log.push_str(if head.close { "close " } else { "" })?;
    log.push_str(if head.expects { "expects " } else { "" })?;
    log.push_str(if head.encoded { "encoded " } else { "" })?;
    log.push_str(": ")?;
    Ok(())
}

fn tell_body(
    log: &mut String,
    wire: &mut Wire,
    source: &mut Pieces,
    head: &Head,
) -> Result<bool, Wrong> {
    match body_of(wire, source, head) {
        Ok(body) => {
            write!(log, "{}; ", text(body.as_slice()))?;
            tell_mark(log, source, ReadMark::Body)?;
            Ok(true)
        }
        Err(fault) => tell_fault(log, fault, next_head(wire, source).err()),
    }
}

/// Tells where the source didn't hear of what was read.
fn tell_mark(log: &mut String, source: &Pieces, mark: ReadMark) -> Result<(), Wrong> {
    if !source.has_heard(mark) {
        write!(log, "{mark:?} unheard; ")?;
    }
    Ok(())
}

fn body_of(wire: &mut Wire, source: &mut Pieces, head: &Head) -> Result<Bytes, WireFault> {
    wire.read_body(source, head)
}

/// Tells a fault, and the one that was answered after it. Nothing follows.
fn tell_fault(log: &mut String, fault: WireFault, again: Option<WireFault>) -> Result<bool, Wrong> {
    write!(log, "{fault}, {again:?}")?;
    Ok(false)
}

/// Tells the next answer, and whether another may follow.
fn tell_answer(
    log: &mut String,
    way: Way,
    wire: &mut Wire,
    source: &mut Pieces,
) -> Result<bool, Wrong> {
    match next_answer(wire, source) {
        Ok(head) => {
            tell_answer_head(log, head)?;
            let framing = head.framing;
            match way {
                Way::Whole(most) => tell_whole(log, wire, source, framing, most),
                Way::Lines(most) => tell_lines(log, wire, source, framing, most),
                Way::Requests => Err(Wrong::Word),
            }
        }
        Err(fault) => tell_fault(log, fault, next_answer(wire, source).err()),
    }
}

fn tell_answer_head(log: &mut String, head: AnswerHead) -> Result<(), Wrong> {
    write!(log, "{} ", head.status)?;
    log.push_str(if head.closes { "closes " } else { "" })?;
    Ok(())
}

fn next_answer(wire: &mut Wire, source: &mut Pieces) -> Result<AnswerHead, WireFault> {
    wire.read_answer(source)
}

fn tell_whole(
    log: &mut String,
    wire: &mut Wire,
    source: &mut Pieces,
    framing: Framing,
    most: usize,
) -> Result<bool, Wrong> {
    match whole(wire, source, framing, most) {
        Ok(body) => {
            write!(log, "[{}]; ", text(body.as_slice()))?;
            Ok(true)
        }
        Err(fault) => tell_fault(log, fault, whole(wire, source, framing, most).err()),
    }
}

fn whole(
    wire: &mut Wire,
    source: &mut Pieces,
    framing: Framing,
    most: usize,
) -> Result<Bytes, WireFault> {
    wire.read_whole(source, framing, most)
}

fn tell_lines(
    log: &mut String,
    wire: &mut Wire,
    source: &mut Pieces,
    framing: Framing,
    most: usize,
) -> Result<bool, Wrong> {
    let mut framing = framing;
    for _ in 0..MOST_LINES {
        match next_line(wire, source, &mut framing, most) {
            Ok(Some(line)) => write!(log, "[{}]", text(line.as_slice()))?,
            Ok(None) => {
                log.push_str("; ")?;
                return Ok(true);
            }
            Err(fault) => {
                let again = next_line(wire, source, &mut framing, most).err();
                return tell_fault(log, fault, again);
            }
        }
    }
    Ok(true)
}

fn next_line(
    wire: &mut Wire,
    source: &mut Pieces,
    framing: &mut Framing,
    most: usize,
) -> Result<Option<Bytes>, WireFault> {
    wire.next_line(source, framing, most)
}

/// The first answer with its whole body of at most so many bytes, and whether the wire holds more behind it.
pub fn first_answer(alloc: Global, most: usize, source: &mut Pieces) -> Result<String, Wrong> {
    let mut log = String::new(alloc);
    let mut wire = Wire::new(alloc)?;
    tell_answer(&mut log, Way::Whole(most), &mut wire, source)?;
    log.push_str(if wire.is_clear() { "clear" } else { "held" })?;
    Ok(log)
}

/// The length of the first request's body, or the fault.
pub fn body_length(alloc: Global, source: &mut Pieces) -> Result<String, Wrong> {
    let mut wire = Wire::new(alloc)?;
    let Ok(Some(head)) = next_head(&mut wire, source) else {
        return Err(Wrong::Word);
    };
    length_told(alloc, body_of(&mut wire, source, &head))
}

/// The length of the first answer's first line, or the fault.
pub fn line_length(alloc: Global, source: &mut Pieces) -> Result<String, Wrong> {
    let mut wire = Wire::new(alloc)?;
    let Ok(head) = next_answer(&mut wire, source) else {
        return Err(Wrong::Word);
    };
    let mut framing = head.framing;
    match next_line(&mut wire, source, &mut framing, LINE_LIMIT) {
        Ok(Some(line)) => length_told(alloc, Ok(line)),
        Ok(None) => Err(Wrong::Word),
        Err(fault) => length_told(alloc, Err(fault)),
    }
}

fn length_told(alloc: Global, read: Result<Bytes, WireFault>) -> Result<String, Wrong> {
    let mut told = String::new(alloc);
    match read {
        Ok(bytes) => write!(told, "{}", bytes.as_slice().len())?,
        Err(fault) => write!(told, "{fault}")?,
    }
    Ok(told)
}
