ghost use Rattle.std.specs.Prelude.{◌≡◌, ◌≤◌, IfErr, IsErrOf};
ghost use Rattle.outside.specs.Faults.{Rose};
ghost use Rattle.http_wire.specs.Connections.{IsOfReading};
ghost use Rattle.http_wire.specs.Heads.{HeadRead, AnswerRead};
ghost use Rattle.http_wire.specs.Held.{ahead, ReadsAhead};

use crate::buffer::Buffer;
use crate::ends::find_end;
use crate::fault::WireFault;
use crate::head::{parse_answer, parse_head};
use crate::message::{AnswerHead, Head};
use crate::scan::{Ending, Place};
use outside::{ReadMark, Source};
use std::alloc::Global;

/// The next request's head, which the source is told of, or none where the bytes end before it.
#[tactic(auto, using(crate::proofs::Ahead::none_ahead))]
pub(crate) fn next_head<S: Source>(
    alloc: Global,
    buffer: &mut Buffer,
    source: &mut S,
) -> Result<Option<Head>, WireFault>
    ensures read { ReadsAhead HeadRead (ahead (S.left source.old) buffer.old) (ahead (S.left source.new) buffer.new) result }
    ensures reading { IfErr result IsOfReading }
    ensures cause { IsErrOf result WireFault.ReadFault → Rose (S.faults source.old) (S.faults source.new) }
    ensures kept { S.faults source.old ≤ S.faults source.new }
{
    match find_end(buffer, source, Place::Inside)? {
        Ending::At(length) => {
            let head = parse_head(alloc, &buffer.bytes()[..length])?;
            buffer.let_go(length);
            source.mark(ReadMark::Head);
            Ok(Some(head))
        }
        Ending::Over => Err(WireFault::HeadTooLong),
        Ending::Cut if buffer.is_empty() => Ok(None),
        Ending::Cut => Err(WireFault::EndedEarly),
    }
}

/// The head of the answer that comes next.
pub(crate) fn next_answer<S: Source>(
    buffer: &mut Buffer,
    source: &mut S,
) -> Result<AnswerHead, WireFault>
    ensures read { ReadsAhead AnswerRead (ahead (S.left source.old) buffer.old) (ahead (S.left source.new) buffer.new) result }
    ensures reading { IfErr result IsOfReading }
    ensures cause { IsErrOf result WireFault.ReadFault → Rose (S.faults source.old) (S.faults source.new) }
    ensures kept { S.faults source.old ≤ S.faults source.new }
{
    match find_end(buffer, source, Place::Inside)? {
        Ending::At(length) => {
            let answer = parse_answer(&buffer.bytes()[..length])?;
            buffer.let_go(length);
            Ok(answer)
        }
        Ending::Over => Err(WireFault::HeadTooLong),
        Ending::Cut => Err(WireFault::EndedEarly),
    }
}
