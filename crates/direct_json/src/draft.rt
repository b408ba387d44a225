//! A JSON text while it is written, without spaces.
ghost use Rattle.std.specs.Prelude.{◌≡◌, ◌++◌, ◌≤◌, [], false, length, IfOk, OnOk};
ghost use Rattle.direct_json.specs.Drafts as spec;

use crate::sheet::Sheet;
use etcd_types::{Bytes, NoMemory};
use std::alloc::Global;
use std::marker::Model;

/// A JSON text so far (RFC 8259), and whether a comma comes before what is written next.
///
/// An opening is what stands before a value: a comma, the name in quotation marks and a colon where it is an object's
/// member, and the quotation mark or bracket that begins the value. Its comma is left out where nothing stands before.
#[derive(Debug, Drop)]
pub(crate) struct Draft {
    text: Sheet,
    later: bool,
}

impl Model for Draft {
    ghost use Rattle.std.specs.Prelude.{List, ℕ, Bool};

    ghost Value = { List ℕ × Bool };

    ghost view = { λ d. (d.text, d.later) };
}

impl Draft {
    /// No text yet.
    pub(crate) fn new(alloc: Global) -> Result<Draft, NoMemory>
        ensures { IfOk result (λ draft. draft ≡ ([], false)) }
    {
        let text = Sheet::new(alloc)?;
        Ok(Draft { text, later: false })
    }

    /// The text.
    pub(crate) fn into_bytes(self) -> Bytes
        ensures { result ≡ self.0 }
    {
        self.text.into_bytes()
    }

    #[inline(always)]
    fn open(&mut self, opening: &[u8]) -> Result<(), NoMemory>
        requires { 1 ≤ length opening.now }
        ensures { OnOk result (self.new ≡ (self.old.0 ++ spec.after self.old.1 opening.now, self.old.1)) }
    {
        if self.later {
            return Ok(self.text.put(opening)?);
        }
        Ok(self.text.put(&opening[1..])?)
    }

    /// Begins an object or an array: nothing stands in it yet.
    #[inline(always)]
    pub(crate) fn begin(&mut self, opening: &[u8]) -> Result<(), NoMemory>
        requires { 1 ≤ length opening.now }
        ensures { OnOk result (self.new ≡ spec.begun opening.now self.old) }
    {
        self.open(opening)?;
        self.later = false;
        Ok(())
    }

    /// Ends what was begun, or the line.
    #[inline(always)]
    pub(crate) fn end(&mut self, closing: u8) -> Result<(), NoMemory>
        ensures { OnOk result (self.new ≡ spec.ended closing self.old) }
    {
        self.text.put(&[closing])?;
        self.later = true;
        Ok(())
    }

    /// An opening with its value.
    #[inline(always)]
    pub(crate) fn whole(&mut self, member: &[u8]) -> Result<(), NoMemory>
        requires { 1 ≤ length member.now }
        ensures { OnOk result (self.new ≡ spec.with_whole member.now self.old) }
    {
        self.open(member)?;
        self.later = true;
        Ok(())
    }

    /// An opening with its value where it is true, and nothing where it is false.
    #[inline(always)]
    pub(crate) fn flag(&mut self, member: &[u8], value: bool) -> Result<(), NoMemory>
        requires { 1 ≤ length member.now }
        ensures { OnOk result (self.new ≡ spec.with_flag member.now value self.old) }
    {
        if !value {
            return Ok(());
        }
        Ok(self.whole(member)?)
    }

    /// A number as text, and nothing of 0.
    #[inline(always)]
    pub(crate) fn number(&mut self, opening: &[u8], value: u64) -> Result<(), NoMemory>
        requires { 1 ≤ length opening.now }
        ensures { OnOk result (self.new ≡ spec.with_number opening.now value self.old) }
    {
        if value == 0 {
            return Ok(());
        }
        self.open(opening)?;
        self.text.put_number(value)?;
        self.later = true;
        Ok(())
    }

    /// Bytes as base64 text in the standard alphabet, with padding, and nothing of no bytes.
    #[inline(always)]
    pub(crate) fn bytes(&mut self, opening: &[u8], value: &Bytes) -> Result<(), NoMemory>
        requires { 1 ≤ length opening.now }
        ensures { OnOk result (self.new ≡ spec.with_bytes opening.now value.now self.old) }
    {
        if value.is_empty() {
            return Ok(());
        }
        self.open(opening)?;
        self.text.put_base64(value.as_slice())?;
        Ok(self.end(b'"')?)
    }
}
