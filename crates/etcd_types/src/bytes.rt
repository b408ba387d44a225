ghost use Rattle.std.specs.Prelude.{◌≡◌, [], IfOk};
ghost use Rattle.std.specs.Ordering.{nat_cmp, as_partial_cmp, eq_by_cmp};
ghost use Rattle.std.specs.Cmp.{partial_order_from_total};
ghost use Rattle.std.specs.Cmp.Rules.{comparing};
ghost use Rattle.std.specs.Cmp.Lexicographic.{slice_cmp};
ghost use Rattle.std.proofs.Common.{rules};
ghost use Rattle.etcd_types.specs.Keys.{is_empty};

use crate::no_memory::NoMemory;
use crate::short_bytes::{MOST, ShortBytes};
use std::alloc::Global;
use std::cmp::Ordering;
use std::fmt;
use std::marker::Model;

/// Where bytes lie.
#[derive(Debug, Drop)]
enum Held {
    Short(ShortBytes),
    Long(Vec<u8>),
}

/// A key, a value or another string of bytes, of any length. Few bytes, as most keys are, lie in the value itself, so that they
/// take no memory of their own. Contracts see it as the list of its bytes.
pub struct Bytes {
    held: Held,
}

// By hand, so that whoever lets bytes go has one call to prove, and not the end of each of its parts.
impl Drop for Bytes {
    fn drop(self) {
        let Bytes { held } = self;
        drop(held);
    }
}

// By hand, so that what is shown tells the bytes and not where they lie.
impl fmt::Debug for Bytes {
    fn fmt<W: fmt::Write>(&self, f: &mut fmt::Formatter<W>) -> fmt::Result {
        f.debug_struct("Bytes")
            .field("bytes", &self.as_slice())
            .finish()
    }
}

impl Model for Bytes {
    ghost use Rattle.std.specs.Prelude.{List, ℕ};
    ghost use Rattle.etcd_types.specs.Held.{held_bytes};

    ghost Value = { List ℕ };

    ghost view = { λ b. held_bytes b.held };
}

impl Bytes {
    /// No bytes. It takes no memory.
    pub fn new(alloc: Global) -> Bytes
        ensures { result ≡ [] }
    {
        Bytes::from_vec(Vec::new(alloc))
    }

    /// A copy of these bytes, or `NoMemory` where memory was wanting.
    pub fn from_slice(alloc: Global, slice: &[u8]) -> Result<Bytes, NoMemory>
        ensures { IfOk result (λ b. b ≡ slice.now) }
    {
        let held = if slice.len() <= MOST {
            Held::Short(ShortBytes::from_slice(slice))
        } else {
            Held::Long(Vec::from_slice(alloc, slice)?)
        };
        Ok(Bytes { held })
    }

    /// The bytes of a vector, which are not copied.
    pub fn from_vec(bytes: Vec<u8>) -> Bytes
        ensures { result ≡ bytes.items }
    {
        Bytes {
            held: Held::Long(bytes),
        }
    }

    /// All its bytes, in order.
    pub fn as_slice(&self) -> &[u8]
        ensures { result.now ≡ self.now }
    {
        match &self.held {
            Held::Short(short) => short.as_slice(),
            Held::Long(long) => long.as_slice(),
        }
    }

    /// Whether it has no bytes.
    pub fn is_empty(&self) -> bool
        ensures { result ≡ is_empty self.now }
    {
        self.as_slice().is_empty()
    }

    /// A copy, or `NoMemory` where memory was wanting.
    pub fn copy(&self, alloc: Global) -> Result<Bytes, NoMemory>
        ensures { IfOk result (λ b. b ≡ self.now) }
    {
        Ok(Bytes::from_slice(alloc, self.as_slice())?)
    }
}

/// Bytes are compared from the left, and a prefix comes before what it begins: etcd's order of keys.
impl Ord for Bytes {
    ghost cmp = { slice_cmp nat_cmp };

    ghost total = { Prim.search (comparing, rules) };

    ghost matches_partial_cmp = { Prim.search (comparing, rules) };

    ghost matches_eq = { Prim.search (comparing, rules) };

    // A byte at a time: most keys are short and differ early, so that groups of bytes cost more than they spare.
    fn cmp(&self, other: &Bytes) -> Ordering {
        let mut left = self.as_slice();
        let mut right = other.as_slice();
        while let [first, rest @ ..] = left {
            let [second, others @ ..] = right else {
                return Ordering::Greater;
            };
            if first != second {
                return first.cmp(second);
            }
            left = rest;
            right = others;
        }
        if right.is_empty() {
            Ordering::Equal
        } else {
            Ordering::Less
        }
    }
}

impl PartialOrd for Bytes {
    ghost partial_cmp = { as_partial_cmp (slice_cmp nat_cmp) };

    ghost laws = { partial_order_from_total (Prim.search (comparing, rules)) };

    fn partial_cmp(&self, other: &Bytes) -> Option<Ordering> {
        Some(self.cmp(other))
    }
}

impl PartialEq for Bytes {
    ghost eq = { eq_by_cmp (slice_cmp nat_cmp) };

    ghost laws = { Prim.search (comparing, rules) };

    fn eq(&self, other: &Bytes) -> bool {
        self.cmp(other) == Ordering::Equal
    }
}

impl Eq for Bytes {
    ghost laws = { Prim.search (comparing, rules) };
}
