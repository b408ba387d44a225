use crate::marked::Marked;
use crate::outcome::Outcome;
use etcd_types::Bytes;
use http_wire::{
    WireFault, begin_chunks, end_chunks, write_bodiless_reply, write_call, write_chunk,
    write_continue, write_kept_call, write_reply,
};
use outside::WriteMark;
use std::alloc::Global;
use table_rows::{Wrong, text};
use text_words::{Words, is_word, read_bytes, read_number_within};

/// What is told behind the bytes that a sink took before it failed.
const WRITE_FAULT: &str = "; write fault";

/// The short pieces that a sink takes.
const PIECE: usize = 5;

/// Something that is written.
#[derive(Debug, Drop)]
pub enum Part {
    Reply { status: u16, body: Bytes },
    Bodiless { status: u16, body: Bytes },
    Continue,
    Begin,
    Chunk(Bytes),
    End,
}

impl Part {
    /// The part with this name, and the words that follow it.
    pub fn read(alloc: Global, name: &[u8], words: &mut Words) -> Result<Part, Wrong> {
        if is_word(name, "reply") {
            let status = read_number_within(words, 0, 999)? as u16;
            let body = read_bytes(alloc, words)?;
            Ok(Part::Reply { status, body })
        } else if is_word(name, "bodiless") {
            let status = read_number_within(words, 0, 999)? as u16;
            let body = read_bytes(alloc, words)?;
            Ok(Part::Bodiless { status, body })
        } else if is_word(name, "continue") {
            Ok(Part::Continue)
        } else if is_word(name, "begin") {
            Ok(Part::Begin)
        } else if is_word(name, "chunk") {
            Ok(Part::Chunk(read_bytes(alloc, words)?))
        } else if is_word(name, "end") {
            Ok(Part::End)
        } else {
            Err(Wrong::Word)
        }
    }

    fn write(&self, alloc: Global, sink: &mut Marked) -> Result<(), WireFault> {
        match self {
            Part::Reply { status, body } => write_reply(alloc, sink, *status, body.as_slice()),
            Part::Bodiless { status, body } => {
                write_bodiless_reply(alloc, sink, *status, body.as_slice())
            }
            Part::Continue => write_continue(sink),
            Part::Begin => begin_chunks(sink),
            Part::Chunk(piece) => write_chunk(alloc, sink, piece.as_slice()),
            Part::End => end_chunks(sink),
        }
    }

    /// What a sink is told of it.
    fn mark(&self) -> Option<WriteMark> {
        match self {
            Part::Reply { status, .. } | Part::Bodiless { status, .. } => {
                Some(WriteMark::Reply(*status))
            }
            Part::Continue => Some(WriteMark::Continue),
            Part::Begin => Some(WriteMark::Reply(200)),
            Part::Chunk(_) => Some(WriteMark::Message),
            Part::End => None,
        }
    }

    /// What a sink has that takes so many bytes at a time, and whose write with the number `failing` fails.
    fn written(&self, alloc: Global, piece: usize, failing: u64) -> Result<String, Wrong> {
        let mut sink = Marked::new(alloc, piece, vec![in alloc; failing]?);
        let done = self.write(alloc, &mut sink);
        let mut told = String::new(alloc);
        told.push_str(text(sink.as_slice()))?;
        if sink.mark != self.mark() {
            write!(told, "; heard {:?}", sink.mark)?;
        }
        match done {
            Ok(()) => {}
            Err(WireFault::WriteFault) => told.push_str(WRITE_FAULT)?,
            Err(fault) => write!(told, "; {fault:?}")?,
        }
        Ok(told)
    }

    /// Tries it with a sink that takes all with one write, and no second one, with one that takes a few bytes at a time,
    /// and with each of these writes failing in turn.
    pub fn try_out(&self, alloc: Global, outcome: &mut Outcome) -> Result<(), Wrong> {
        outcome.compare(self.written(alloc, usize::MAX, 2)?);
        outcome.compare(self.written(alloc, PIECE, 0)?);
        for index in 0..outcome.wanted().len().div_ceil(PIECE) {
            let failing = (index as u64).saturating_add(1);
            let front = outcome.wanted().get(..index.saturating_mul(PIECE));
            let came = self.written(alloc, PIECE, failing)?;
            let right = front == came.as_bytes().strip_suffix(WRITE_FAULT.as_bytes());
            outcome.note(right, came);
        }
        Ok(())
    }
}

/// Tries a call to a member, on a connection of its own or on one that stays.
pub fn try_call(
    alloc: Global,
    stays: bool,
    host: &Bytes,
    path: &Bytes,
    body: &Bytes,
    outcome: &mut Outcome,
) -> Result<(), Wrong> {
    let call = if stays {
        write_kept_call(alloc, host.as_slice(), path.as_slice(), body.as_slice())?
    } else {
        write_call(alloc, host.as_slice(), path.as_slice(), body.as_slice())?
    };
    let mut came = String::new(alloc);
    came.push_str(text(call.as_slice()))?;
    outcome.compare(came);
    Ok(())
}
