ghost use Rattle.std.specs.Prelude.{◌≡◌, ◌<◌, ◌≤◌, length, Ok, OnOk, IfErr, IsErrOf, vec_len};
ghost use Rattle.outside.specs.Faults.{Rose};
ghost use Rattle.http_wire.specs.Connections.{IsOfReading};
ghost use Rattle.http_wire.specs.Held.{ahead, ReadsAhead};
ghost use Rattle.http_wire.specs.Steps as spec;

use crate::body::{Next, ready, settle};
use crate::buffer::Buffer;
use crate::fault::WireFault;
use crate::message::Framing;
use crate::turns::spent;
use etcd_types::Bytes;
use memchr::memchr;
use outside::Source;
use std::alloc::Global;

/// What a turn at a line came to.
#[derive(Clone, Copy, Debug, PartialEq, Eq)]
enum Turn {
    /// A piece of the line, without its end.
    More,
    /// The line's end.
    Whole,
    /// The body's end.
    Last,
}

/// The framing at the body's end.
fn ended(next: Next) -> Framing
    ensures { result ≡ spec.ended next }
{
    match next {
        Next::Counted(_) => Framing::Length(0),
        Next::ToEnd => Framing::ToEnd,
        Next::Chunk(_) | Next::Done => Framing::Chunks {
            left: 0,
            done: true,
        },
    }
}

/// How many of the bytes belong to the line that begins with them.
fn line_in(bytes: &[u8]) -> (usize, Turn)
    ensures { spec.LineIn bytes.now result }
{
    match memchr(b'\n', bytes) {
        Some(index) => (index + 1, Turn::Whole),
        None => (bytes.len(), Turn::More),
    }
}

/// Reads the next bytes of a line.
fn line_turn<S: Source>(
    buffer: &mut Buffer,
    source: &mut S,
    framing: &mut Framing,
    line: &mut Vec<u8>,
    most: usize,
) -> Result<Turn, WireFault>
    requires { vec_len line.old ≤ most }
    ensures turn { ReadsAhead (spec.LineTurn most framing.old framing.new line.old.items line.new.items)
        (ahead (S.left source.old) buffer.old) (ahead (S.left source.new) buffer.new) result }
    ensures room { OnOk result (vec_len line.new ≤ most) }
    ensures more { result ≡ Ok Turn.More → vec_len line.old < vec_len line.new }
    ensures reading { IfErr result IsOfReading }
    ensures cause { IsErrOf result WireFault.ReadFault → Rose (S.faults source.old) (S.faults source.new) }
    ensures kept { S.faults source.old ≤ S.faults source.new }
{
    let next = settle(buffer, source, *framing)?;
    let held = ready(buffer, source, next)?;
    if held == 0 {
        *framing = ended(next);
        return Ok(Turn::Last);
    }
    let (count, turn) = line_in(&buffer.bytes()[..held]);
    if count > most - line.len() {
        return Err(WireFault::BodyTooLong);
    }
    line.extend_from_slice(&buffer.bytes()[..count])?;
    buffer.let_go(count);
    *framing = spent(next, count);
    Ok(turn)
}

/// Reads the next line of a body, of at most so many bytes, with its line feed where it has one, or none at the body's end.
#[tactic(auto, using(crate::proofs::LineLoop::line_first, crate::proofs::LineLoop::line_more, crate::proofs::LineLoop::line_whole, crate::proofs::LineLoop::line_last, crate::proofs::LineLoop::line_none, crate::proofs::LineLoop::line_fault))]
pub(crate) fn whole_line<S: Source>(
    alloc: Global,
    buffer: &mut Buffer,
    source: &mut S,
    framing: &mut Framing,
    most: usize,
) -> Result<Option<Bytes>, WireFault>
    ensures read { ReadsAhead (spec.NextLine most framing.old framing.new)
        (ahead (S.left source.old) buffer.old) (ahead (S.left source.new) buffer.new) result }
    ensures reading { IfErr result IsOfReading }
    ensures cause { IsErrOf result WireFault.ReadFault → Rose (S.faults source.old) (S.faults source.new) }
    ensures kept { S.faults source.old ≤ S.faults source.new }
{
    let mut line = Vec::new(alloc);
    loop {
        match line_turn(buffer, source, framing, &mut line, most)? {
            Turn::More => {}
            Turn::Whole => return Ok(Some(Bytes::from_vec(line))),
            Turn::Last if line.is_empty() => return Ok(None),
            Turn::Last => return Ok(Some(Bytes::from_vec(line))),
        }
    }
}
