ghost use Rattle.std.specs.Prelude.{◌≡◌, ◌+◌, ◌<◌, ◌≤◌, true, length, Ok, OnOk, IfOk, IfErr, IfSome, IsErrOf, IsTrue, vec_len};
ghost use Rattle.outside.specs.Faults.{Rose};
ghost use Rattle.http_wire.specs.Connections.{IsOfReading};
ghost use Rattle.http_wire.specs.Held.{held, ahead, ReadsAhead};
ghost use Rattle.http_wire.specs.Bodies.{BodyRead, WholeRead};
ghost use Rattle.http_wire.specs.Steps as spec;

use crate::body::{Next, ready, settle};
use crate::buffer::Buffer;
use crate::fault::WireFault;
use crate::limits::BODY_LIMIT;
use crate::message::Framing;
use etcd_types::Bytes;
use outside::{ReadMark, Source};
use std::alloc::Global;

/// The framing after so many bytes of what came next.
pub(crate) fn spent(next: Next, count: usize) -> Framing
    requires { spec.Claims next count }
    ensures { result ≡ spec.spent next count }
{
    let count = count as u64;
    match next {
        Next::Counted(left) => Framing::Length(left - count),
        Next::Chunk(left) => Framing::Chunks {
            left: left - count + 1,
            done: false,
        },
        Next::ToEnd => Framing::ToEnd,
        Next::Done => Framing::Chunks {
            left: 0,
            done: true,
        },
    }
}

/// Whether more is stated than a body may still have.
fn is_over(next: Next, room: usize) -> bool
    ensures { result ≡ spec.over (Some room) next }
{
    match next {
        Next::Counted(count) | Next::Chunk(count) => count > room as u64,
        Next::ToEnd | Next::Done => false,
    }
}

/// Reads the next bytes of a whole body, and says whether there may be more.
fn body_turn<S: Source>(
    buffer: &mut Buffer,
    source: &mut S,
    framing: &mut Framing,
    body: &mut Vec<u8>,
    most: usize,
) -> Result<bool, WireFault>
    requires { vec_len body.old ≤ most }
    ensures turn { ReadsAhead (spec.BodyTurn most framing.old framing.new body.old.items body.new.items)
        (ahead (S.left source.old) buffer.old) (ahead (S.left source.new) buffer.new) result }
    ensures room { OnOk result (vec_len body.new ≤ most) }
    ensures more { result ≡ Ok true → vec_len body.old < vec_len body.new }
    ensures reading { IfErr result IsOfReading }
    ensures cause { IsErrOf result WireFault.ReadFault → Rose (S.faults source.old) (S.faults source.new) }
    ensures kept { S.faults source.old ≤ S.faults source.new }
{
    let next = settle(buffer, source, *framing)?;
    let room = most - body.len();
    if is_over(next, room) {
        return Err(WireFault::BodyTooLong);
    }
    let count = ready(buffer, source, next)?;
    if count == 0 {
        return Ok(false);
    }
    if count > room {
        return Err(WireFault::BodyTooLong);
    }
    body.extend_from_slice(&buffer.bytes()[..count])?;
    buffer.let_go(count);
    *framing = spent(next, count);
    Ok(true)
}

/// Reads a whole body of at most so many bytes.
#[tactic(auto, using(crate::proofs::BodyTurns::pends_first, crate::proofs::BodyTurns::pends_more, crate::proofs::BodyTurns::pends_end, crate::proofs::BodyTurns::pends_broken))]
pub(crate) fn whole_body<S: Source>(
    alloc: Global,
    buffer: &mut Buffer,
    source: &mut S,
    first: Framing,
    most: usize,
) -> Result<Bytes, WireFault>
    ensures read { ReadsAhead (WholeRead most first) (ahead (S.left source.old) buffer.old) (ahead (S.left source.new) buffer.new) result }
    ensures reading { IfErr result IsOfReading }
    ensures cause { IsErrOf result WireFault.ReadFault → Rose (S.faults source.old) (S.faults source.new) }
    ensures kept { S.faults source.old ≤ S.faults source.new }
{
    let mut framing = first;
    let mut body = Vec::new(alloc);
    while body_turn(buffer, source, &mut framing, &mut body, most)? {}
    Ok(Bytes::from_vec(body))
}

/// Reads the body of a request, and tells the source that it was read.
pub(crate) fn request_body<S: Source>(
    alloc: Global,
    buffer: &mut Buffer,
    source: &mut S,
    framing: Framing,
) -> Result<Bytes, WireFault>
    ensures read { ReadsAhead (BodyRead framing) (ahead (S.left source.old) buffer.old) (ahead (S.left source.new) buffer.new) result }
    ensures reading { IfErr result IsOfReading }
    ensures cause { IsErrOf result WireFault.ReadFault → Rose (S.faults source.old) (S.faults source.new) }
    ensures kept { S.faults source.old ≤ S.faults source.new }
{
    let body = whole_body(alloc, buffer, source, framing, BODY_LIMIT)?;
    source.mark(ReadMark::Body);
    Ok(body)
}
