ghost use Rattle.std.specs.Prelude.{◌<◌, ◌≤◌, false, length, IfSome, IfOk, IfErr, IsErrOf};
ghost use Rattle.std.specs.Io.KnownBytes.{Keeps};
ghost use Rattle.outside.specs.Faults.{Rose};
ghost use Rattle.http_wire.specs.Held.{held, ahead, ReadsAhead, IsOutside, Waited};
ghost use Rattle.http_wire.specs.Steps.{ByteRead, CloseRead, SizeRead, TrailerRead, NextRead, IsShort, Counts, IsGoing, Claims, Readied, KnownAhead};

use crate::buffer::Buffer;
use crate::ends::find_end;
use crate::fault::WireFault;
use crate::head::is_trailer;
use crate::message::Framing;
use crate::scan::{Ending, Place};
use crate::size::parse_size;
use outside::Source;

/// What a body goes on with.
#[derive(Clone, Copy, Debug, PartialEq, Eq)]
pub(crate) enum Next {
    /// So many bytes, which end it.
    Counted(u64),
    /// So many bytes of a chunk, and its CR LF.
    Chunk(u64),
    /// All that comes.
    ToEnd,
    /// Nothing.
    Done,
}

/// Reads until a byte is held, and says whether one is.
fn wait<S: Source>(buffer: &mut Buffer, source: &mut S) -> Result<bool, WireFault>
    ensures ahead { Keeps (ahead (S.left source.old) buffer.old) (ahead (S.left source.new) buffer.new) }
    ensures held { IfOk result (λ some. Waited some (held buffer.new) (S.left source.new)) }
    ensures fault { IfErr result IsOutside }
    ensures cause { IsErrOf result WireFault.ReadFault → Rose (S.faults source.old) (S.faults source.new) }
    ensures kept { S.faults source.old ≤ S.faults source.new }
{
    if !buffer.is_empty() {
        return Ok(true);
    }
    Ok(buffer.fill(source)? > 0)
}

/// Reads this one byte.
fn read_byte<S: Source>(buffer: &mut Buffer, source: &mut S, wanted: u8) -> Result<(), WireFault>
    ensures read { ReadsAhead (ByteRead wanted) (ahead (S.left source.old) buffer.old) (ahead (S.left source.new) buffer.new) result }
    ensures short { IfErr result IsShort }
    ensures cause { IsErrOf result WireFault.ReadFault → Rose (S.faults source.old) (S.faults source.new) }
    ensures kept { S.faults source.old ≤ S.faults source.new }
{
    if !wait(buffer, source)? {
        return Err(WireFault::EndedEarly);
    }
    if buffer.bytes()[0] != wanted {
        return Err(WireFault::BadChunk);
    }
    buffer.let_go(1);
    Ok(())
}

/// Reads the CR LF after a chunk's data.
fn close_chunk<S: Source>(buffer: &mut Buffer, source: &mut S) -> Result<(), WireFault>
    ensures read { ReadsAhead CloseRead (ahead (S.left source.old) buffer.old) (ahead (S.left source.new) buffer.new) result }
    ensures short { IfErr result IsShort }
    ensures cause { IsErrOf result WireFault.ReadFault → Rose (S.faults source.old) (S.faults source.new) }
    ensures kept { S.faults source.old ≤ S.faults source.new }
{
    read_byte(buffer, source, b'\r')?;
    read_byte(buffer, source, b'\n')?;
    Ok(())
}

/// Reads a size line.
#[tactic(auto, using(crate::proofs::Sizes::size_over, crate::proofs::Sizes::size_cut, crate::proofs::Sizes::size_bad, crate::proofs::Sizes::size_good))]
fn read_size<S: Source>(buffer: &mut Buffer, source: &mut S) -> Result<u64, WireFault>
    ensures read { ReadsAhead SizeRead (ahead (S.left source.old) buffer.old) (ahead (S.left source.new) buffer.new) result }
    ensures short { IfErr result IsShort }
    ensures cause { IsErrOf result WireFault.ReadFault → Rose (S.faults source.old) (S.faults source.new) }
    ensures kept { S.faults source.old ≤ S.faults source.new }
{
    match find_end(buffer, source, Place::Line)? {
        Ending::At(length) => {
            let Some(size) = parse_size(&buffer.bytes()[..length]) else {
                return Err(WireFault::BadChunk);
            };
            buffer.let_go(length);
            Ok(size)
        }
        Ending::Over => Err(WireFault::BadChunk),
        Ending::Cut => Err(WireFault::EndedEarly),
    }
}

/// Reads a trailer, which is skipped.
fn skip_trailer<S: Source>(buffer: &mut Buffer, source: &mut S) -> Result<(), WireFault>
    ensures read { ReadsAhead TrailerRead (ahead (S.left source.old) buffer.old) (ahead (S.left source.new) buffer.new) result }
    ensures short { IfErr result IsShort }
    ensures cause { IsErrOf result WireFault.ReadFault → Rose (S.faults source.old) (S.faults source.new) }
    ensures kept { S.faults source.old ≤ S.faults source.new }
{
    match find_end(buffer, source, Place::Start)? {
        Ending::At(length) => {
            if !is_trailer(&buffer.bytes()[..length]) {
                return Err(WireFault::BadHead);
            }
            buffer.let_go(length);
            Ok(())
        }
        Ending::Over => Err(WireFault::HeadTooLong),
        Ending::Cut => Err(WireFault::EndedEarly),
    }
}

/// Reads a size line, and the trailer where it is the last chunk's.
fn open_chunk<S: Source>(buffer: &mut Buffer, source: &mut S) -> Result<Next, WireFault>
    ensures read { ReadsAhead (NextRead (Framing.Chunks 0 false)) (ahead (S.left source.old) buffer.old) (ahead (S.left source.new) buffer.new) result }
    ensures going { IfOk result IsGoing }
    ensures short { IfErr result IsShort }
    ensures cause { IsErrOf result WireFault.ReadFault → Rose (S.faults source.old) (S.faults source.new) }
    ensures kept { S.faults source.old ≤ S.faults source.new }
{
    let size = read_size(buffer, source)?;
    if size > 0 {
        return Ok(Next::Chunk(size));
    }
    skip_trailer(buffer, source)?;
    Ok(Next::Done)
}

/// What comes next, after what stands between the body's bytes.
pub(crate) fn settle<S: Source>(
    buffer: &mut Buffer,
    source: &mut S,
    framing: Framing,
) -> Result<Next, WireFault>
    ensures read { ReadsAhead (NextRead framing) (ahead (S.left source.old) buffer.old) (ahead (S.left source.new) buffer.new) result }
    ensures going { IfOk result IsGoing }
    ensures short { IfErr result IsShort }
    ensures cause { IsErrOf result WireFault.ReadFault → Rose (S.faults source.old) (S.faults source.new) }
    ensures kept { S.faults source.old ≤ S.faults source.new }
{
    match framing {
        Framing::Length(count) => Ok(Next::Counted(count)),
        Framing::ToEnd => Ok(Next::ToEnd),
        Framing::Chunks { done: true, .. } => Ok(Next::Done),
        Framing::Chunks { left: 0, .. } => Ok(open_chunk(buffer, source)?),
        Framing::Chunks { left: 1, .. } => {
            close_chunk(buffer, source)?;
            Ok(open_chunk(buffer, source)?)
        }
        Framing::Chunks { left, .. } => Ok(Next::Chunk(left - 1)),
    }
}

/// How many bytes of those that are counted are held, one at the least.
fn ready_of<S: Source>(buffer: &mut Buffer, source: &mut S, count: u64) -> Result<usize, WireFault>
    requires { 0 < count }
    ensures ahead { Keeps (ahead (S.left source.old) buffer.old) (ahead (S.left source.new) buffer.new) }
    ensures counts { IfSome (ahead (S.left source.new) buffer.new) (λ all. Counts count (held buffer.new) all result) }
    ensures within { IfOk result (λ n. (0 < n) × (n ≤ count) × (n ≤ length (held buffer.new))) }
    ensures short { IfErr result IsShort }
    ensures cause { IsErrOf result WireFault.ReadFault → Rose (S.faults source.old) (S.faults source.new) }
    ensures kept { S.faults source.old ≤ S.faults source.new }
{
    if !wait(buffer, source)? {
        return Err(WireFault::EndedEarly);
    }
    let held = buffer.bytes().len();
    if count < held as u64 {
        return Ok(count as usize);
    }
    Ok(held)
}

/// How many of the body's bytes are held, none exactly at its end.
#[tactic(auto, using(crate::proofs::Data::readied_none, crate::proofs::Data::readied_done, crate::proofs::Data::readied_end, crate::proofs::Data::readied_counted, crate::proofs::Data::readied_chunk, crate::proofs::Data::readied_to_end, crate::proofs::Data::cut_counted, crate::proofs::Data::cut_chunk))]
pub(crate) fn ready<S: Source>(
    buffer: &mut Buffer,
    source: &mut S,
    next: Next,
) -> Result<usize, WireFault>
    requires { IsGoing next }
    ensures readied { KnownAhead (λ all. Readied next all result) (ahead (S.left source.old) buffer.old) (ahead (S.left source.new) buffer.new) }
    ensures within { IfOk result (λ n. n ≤ length (held buffer.new)) }
    ensures claims { IfOk result (Claims next) }
    ensures short { IfErr result IsShort }
    ensures cause { IsErrOf result WireFault.ReadFault → Rose (S.faults source.old) (S.faults source.new) }
    ensures kept { S.faults source.old ≤ S.faults source.new }
{
    match next {
        Next::Done | Next::Counted(0) => Ok(0),
        Next::Counted(count) => Ok(ready_of(buffer, source, count)?),
        Next::Chunk(count) => Ok(ready_of(buffer, source, count)?),
        Next::ToEnd => {
            if wait(buffer, source)? {
                Ok(buffer.bytes().len())
            } else {
                Ok(0)
            }
        }
    }
}
