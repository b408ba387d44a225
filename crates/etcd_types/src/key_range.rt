ghost use Rattle.std.specs.Prelude.{◌≡◌, IfOk};
ghost use Rattle.etcd_types.specs.Keys.{is_zero, same, up_to};
ghost use Rattle.etcd_types.specs.Ranges.{is_one, contains, lowest, overlaps, OverlapInAKey};

use crate::bytes::Bytes;
use crate::no_memory::NoMemory;
use std::alloc::Global;

/// A range of keys, as the etcd API writes it (`key` and `range_end`).
///
/// An empty `end` makes it the one key; an `end` of one zero byte all keys from `key` on, and all keys where `key`
/// is one zero byte too; another `end` the keys from `key` to below `end`.
#[derive(Debug, PartialEq, Eq, PartialOrd, Ord, Drop)]
pub struct KeyRange {
    pub key: Bytes,
    pub end: Bytes,
}

impl KeyRange {
    /// Whether it is the range of one key.
    pub fn is_one(&self) -> bool
        ensures { result ≡ is_one self.now }
    {
        self.end.is_empty()
    }

    /// Whether this key is in the range.
    pub fn contains(&self, key: &Bytes) -> bool
        ensures { result ≡ contains self.now key.now }
    {
        self.holds(key.as_slice())
    }

    /// Whether some key is in both ranges.
    pub fn overlaps(&self, other: &KeyRange) -> bool
        ensures { result ≡ overlaps self.now other.now }
    {
        let own = self.lowest();
        let others = other.lowest();
        self.holds(others) && other.holds(others) || self.holds(own) && other.holds(own)
    }

    /// A copy, or `NoMemory` where memory was wanting.
    pub fn copy(&self, alloc: Global) -> Result<KeyRange, NoMemory>
        ensures { IfOk result (λ range. range ≡ self.now) }
    {
        Ok(KeyRange {
            key: self.key.copy(alloc)?,
            end: self.end.copy(alloc)?,
        })
    }

    fn holds(&self, key: &[u8]) -> bool
        ensures { result ≡ contains self.now key.now }
    {
        let from = self.key.as_slice();
        let end = self.end.as_slice();
        if self.is_one() {
            is_same(key, from)
        } else if is_zero(end) {
            is_zero(from) || is_up_to(from, key)
        } else {
            is_up_to(from, key) && !is_up_to(end, key)
        }
    }

    fn lowest(&self) -> &[u8]
        ensures { result.now ≡ lowest self.now }
    {
        if is_zero(self.end.as_slice()) && is_zero(self.key.as_slice()) {
            &[]
        } else {
            self.key.as_slice()
        }
    }
}

/// Whether these bytes are one zero byte.
fn is_zero(bytes: &[u8]) -> bool
    ensures { result ≡ is_zero bytes.now }
{
    match bytes {
        [only] => *only == 0,
        _ => false,
    }
}

fn is_same(a: &[u8], b: &[u8]) -> bool
    ensures { result ≡ same a.now b.now }
{
    a.cmp(b).is_eq()
}

fn is_up_to(a: &[u8], b: &[u8]) -> bool
    ensures { result ≡ up_to a.now b.now }
{
    a.cmp(b).is_le()
}

/// A law: two ranges overlap exactly where they have a key in common.
pub fn ranges_meet_in_a_key()
    ensures { OverlapInAKey }
{}
