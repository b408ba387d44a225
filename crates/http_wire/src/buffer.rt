ghost use Rattle.std.specs.Prelude.{◌≡◌, [], ◌+◌, ◌-◌, ◌*◌, ◌<◌, ◌≤◌, length, take, drop, slice_range, vec_len, Ok, IfOk, IfErr, OnOk, IsErrOf, IsTrue, ◌↔◌};
ghost use Rattle.std.specs.Io.KnownBytes.{Keeps, IsAtEnd};
ghost use Rattle.outside.specs.Faults.{HasCause, Rose};
ghost use Rattle.http_wire.specs.Reads.{ReadBehind};

use crate::fault::WireFault;
use outside::{Failed, Source};
use std::alloc::{AllocError, Global};

/// How much is read at once to begin with.
const FIRST_ROOM: usize = 1_024;

/// How much is read at once where reads fill their room.
const READ_ROOM: usize = 65_536;

/// What holds no byte keeps no more room than this.
const IDLE_ROOM: usize = 16_384;

/// The bytes that were read and not used yet. They lie in a vector that is kept and grows as they need it.
#[derive(Debug, Drop)]
pub(crate) struct Buffer {
    room: Vec<u8>,
    start: usize,
    end: usize,
    /// The last read filled its room, so that more is likely to be there.
    full: bool,
    alloc: Global,
    ghost ordered: { start ≤ end },
    ghost within: { end ≤ vec_len room },
    ghost some: { 1 < vec_len room },
}

impl Buffer {
    ghost use Rattle.http_wire.specs.Held.{held, ahead, Grows, IsOutside};

    pub(crate) fn new(alloc: Global) -> Result<Buffer, AllocError>
        ensures { IfOk result (λ buffer. held buffer ≡ []) }
    {
        let room = vec![in alloc; 0u8; FIRST_ROOM]?;
        Ok(Buffer {
            room,
            start: 0,
            end: 0,
            full: false,
            alloc,
        })
    }

    pub(crate) fn bytes(&self) -> &[u8]
        ensures { result.now ≡ held self.now }
    {
        &self.room[self.start..self.end]
    }

    pub(crate) fn is_empty(&self) -> bool
        ensures { IsTrue result ↔ (held self.now ≡ []) }
    {
        self.start == self.end
    }

    /// Lets go of the first bytes.
    pub(crate) fn let_go(&mut self, count: usize)
        requires { count ≤ length (held self.old) }
        ensures { held self.new ≡ drop count (held self.old) }
    {
        if count == self.end - self.start {
            self.start = 0;
            self.end = 0;
        } else {
            self.start += count;
        }
    }

    /// Gives back the room that a large request took, where no byte is held and there is memory for a smaller one.
    pub(crate) fn settle(&mut self)
        ensures { held self.new ≡ held self.old }
    {
        if !self.is_empty() || self.room.len() <= IDLE_ROOM {
            return;
        }
        if let Ok(small) = Buffer::new(self.alloc) {
            *self = small;
        }
    }

    /// Makes room behind the bytes. They are moved to the front only where as much is free there as they take, so that
    /// no byte is moved often.
    fn make_room(&mut self) -> Result<(), AllocError>
        ensures held { held self.new ≡ held self.old }
        ensures room { OnOk result (self.new.end < vec_len self.new.room) }
    {
        let grows = self.full && self.room.len() < READ_ROOM;
        if self.end < self.room.len() && !grows {
            return Ok(());
        }
        let count = self.end - self.start;
        if count <= self.start && !grows {
            shift(&mut self.room, self.start, self.end);
        } else {
            self.room = enlarged(self.alloc, &self.room, self.start, self.end)?;
        }
        self.start = 0;
        self.end = count;
        Ok(())
    }

    /// Reads more from the source, and says how many bytes came: none only at its end.
    pub(crate) fn fill<S: Source>(&mut self, source: &mut S) -> Result<usize, WireFault>
        ensures ahead { Keeps (ahead (S.left source.old) self.old) (ahead (S.left source.new) self.new) }
        ensures grown { IfOk result (Grows (held self.old) (held self.new)) }
        ensures end { result ≡ Ok 0 → IsAtEnd (S.left source.new) }
        ensures fault { IfErr result IsOutside }
        ensures cause { IsErrOf result WireFault.ReadFault → Rose (S.faults source.old) (S.faults source.new) }
        ensures kept { S.faults source.old ≤ S.faults source.new }
    {
        self.make_room()?;
        match read_behind(source, &mut self.room, self.end) {
            Ok(count) => {
                self.end += count;
                self.full = self.end == self.room.len();
                Ok(count)
            }
            Err(_) => Err(WireFault::ReadFault),
        }
    }
}

/// Moves the bytes of the range to the front.
fn shift(room: &mut Vec<u8>, start: usize, end: usize)
    requires ordered { start ≤ end }
    requires within { end ≤ vec_len room.old }
    ensures front { take (end - start) room.new.items ≡ slice_range room.old.items start end }
    ensures len { vec_len room.new ≡ vec_len room.old }
{
    room.copy_within(start..end, 0);
}

/// A vector twice as long, with the bytes of the range at its front.
fn enlarged(alloc: Global, room: &[u8], start: usize, end: usize) -> Result<Vec<u8>, AllocError>
    requires ordered { start ≤ end }
    requires within { end ≤ length room.now }
    ensures front { IfOk result (λ larger. take (end - start) larger.items ≡ slice_range room.now start end) }
    ensures len { IfOk result (λ larger. vec_len larger ≡ 2 * length room.now) }
{
    let mut larger = Vec::with_capacity(alloc, 2 * room.len())?;
    larger.extend_from_slice(&room[start..end])?;
    larger.resize(2 * room.len(), 0)?;
    Ok(larger)
}

/// Reads behind the first bytes of the room, which stay.
fn read_behind<S: Source>(source: &mut S, room: &mut Vec<u8>, end: usize) -> Result<usize, Failed>
    requires { end < vec_len room.old }
    ensures len { vec_len room.new ≡ vec_len room.old }
    ensures bound { IfOk result (λ count. end + count ≤ vec_len room.new) }
    ensures front { take end room.new.items ≡ take end room.old.items }
    ensures bytes { ReadBehind (S.left source.old) (S.left source.new) (drop end room.new.items) result }
    ensures cause { HasCause (S.faults source.old) (S.faults source.new) result }
{
    source.read(&mut room[end..])
}
