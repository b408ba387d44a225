//! Bytes written from left to right into room that was filled before, so that a piece is one copy.
ghost use Rattle.std.specs.Prelude.{◌≡◌, ◌+◌, ◌≤◌, ◌∷◌, ◌++◌, [], length, take, decimal, IfOk, OnOk};
ghost use Rattle.base64.specs.Engines.{standard};
ghost use Rattle.base64.specs.GeneralPurpose.{encode_of};
ghost use Rattle.json.specs.Print.{escape};

use base64::encoded_len;
use base64::engine::general_purpose::STANDARD;
use etcd_types::{Bytes, NoMemory};
use itoa::write_digits;
use std::alloc::Global;
use std::marker::Model;

/// What room is made of: the reply of a plain read fits it.
static BLANK: [u8; 512] = [0; 512];

/// The most digits that a number of 64 bits has.
const LONGEST: usize = 20;

/// Bytes so far, at the beginning of a room. Where a piece's length is known when this is compiled, its copy takes a few
/// instructions.
#[derive(Debug, Drop)]
pub(crate) struct Sheet {
    room: Vec<u8>,
    used: usize,
}

impl Model for Sheet {
    ghost use Rattle.std.specs.Prelude.{List, ℕ, ◌≤◌, length, take};

    ghost Value = { List ℕ };

    ghost view = { λ s. take s.used s.room.items };

    ghost invariant = { λ s. s.used ≤ length s.room.items };
}

/// Makes the room longer, to hold so much at least.
#[cold]
#[inline(never)]
fn lengthen(room: &mut Vec<u8>, least: usize) -> Result<(), NoMemory>
    ensures kept { take (length room.old.items) room.new.items ≡ room.old.items }
    ensures longer { length room.old.items ≤ length room.new.items }
    ensures enough { OnOk result (least ≤ length room.new.items) }
{
    while room.len() < least {
        room.extend_from_slice(&BLANK)?;
    }
    Ok(())
}

/// Room for so many more bytes behind those that are used.
#[inline(always)]
fn make_room(room: &mut Vec<u8>, used: usize, more: usize) -> Result<(), NoMemory>
    requires { used ≤ length room.old.items }
    ensures kept { take used room.new.items ≡ take used room.old.items }
    ensures longer { length room.old.items ≤ length room.new.items }
    ensures enough { OnOk result (used + more ≤ length room.new.items) }
{
    if more <= room.len() - used {
        return Ok(());
    }
    let Some(least) = used.checked_add(more) else {
        return Err(NoMemory);
    };
    Ok(lengthen(room, least)?)
}

/// Writes a piece there.
#[inline(always)]
fn write_at(room: &mut [u8], at: usize, piece: &[u8])
    requires { at + length piece.now ≤ length room.old }
    ensures written { take (at + length piece.now) room.new ≡ take at room.old ++ piece.now }
    ensures len { length room.new ≡ length room.old }
{
    room[at..at + piece.len()].copy_from_slice(piece);
}

/// Writes the base64 text of the bytes there, and returns where it ends.
fn encode_at(room: &mut [u8], at: usize, bytes: &[u8]) -> Result<usize, NoMemory>
    requires { at ≤ length room.old }
    ensures len { length room.new ≡ length room.old }
    ensures before { take at room.new ≡ take at room.old }
    ensures end { IfOk result (λ end. (end ≤ length room.new) × (take end room.new ≡ take at room.old ++ encode_of standard bytes.now)) }
{
    match STANDARD.encode_slice(bytes, &mut room[at..]) {
        Ok(written) => Ok(at + written),
        Err(_) => Err(NoMemory),
    }
}

impl Sheet {
    /// No bytes yet, with room for those of a short text.
    pub(crate) fn new(alloc: Global) -> Result<Sheet, NoMemory>
        ensures { IfOk result (λ sheet. sheet ≡ []) }
    {
        let room = Vec::from_slice(alloc, &BLANK)?;
        Ok(Sheet { room, used: 0 })
    }

    /// The bytes.
    pub(crate) fn into_bytes(self) -> Bytes
        ensures { result ≡ self }
    {
        let Sheet { mut room, used } = self;
        room.truncate(used);
        Bytes::from_vec(room)
    }

    /// Adds a piece.
    #[inline(always)]
    pub(crate) fn put(&mut self, piece: &[u8]) -> Result<(), NoMemory>
        ensures { OnOk result (self.new ≡ self.old ++ piece.now) }
    {
        make_room(&mut self.room, self.used, piece.len())?;
        write_at(self.room.as_mut_slice(), self.used, piece);
        self.used += piece.len();
        Ok(())
    }

    /// Adds a number's digits and a quotation mark. More is copied than counts, since a copy of a fixed length takes fewer
    /// instructions.
    #[inline(always)]
    pub(crate) fn put_number(&mut self, value: u64) -> Result<(), NoMemory>
        ensures { OnOk result (self.new ≡ self.old ++ (decimal value ++ 34 ∷ [])) }
    {
        let mut digits = [b'"'; 2 * LONGEST + 1];
        let start = write_digits(value, &mut digits, LONGEST);
        make_room(&mut self.room, self.used, LONGEST + 1)?;
        write_at(
            self.room.as_mut_slice(),
            self.used,
            &digits[start..start + LONGEST + 1],
        );
        self.used += LONGEST + 1 - start;
        Ok(())
    }

    /// Adds the base64 text of the bytes, in the standard alphabet and with padding, which needs no escape.
    pub(crate) fn put_base64(&mut self, bytes: &[u8]) -> Result<(), NoMemory>
        ensures { OnOk result (self.new ≡ self.old ++ escape (encode_of standard bytes.now)) }
    {
        let Some(more) = encoded_len(bytes.len(), true) else {
            return Err(NoMemory);
        };
        make_room(&mut self.room, self.used, more)?;
        self.used = encode_at(self.room.as_mut_slice(), self.used, bytes)?;
        Ok(())
    }
}
