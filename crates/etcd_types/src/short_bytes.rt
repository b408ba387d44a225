ghost use Rattle.std.specs.Prelude.{◌≡◌, ◌≤◌, length};

use std::marker::Model;

/// How many bytes lie in the value itself.
pub(crate) const MOST: usize = 22;

/// So few bytes that they lie in the value itself. Contracts see them as the list of them.
#[derive(Debug, Drop)]
pub(crate) struct ShortBytes {
    len: u8,
    bytes: [u8; 22],
}

impl Model for ShortBytes {
    ghost use Rattle.std.specs.Prelude.{◌≡◌, ◌≤◌, List, ℕ, length, take};

    ghost Value = { List ℕ };

    ghost view = { λ s. take s.len s.bytes };

    ghost invariant = { λ s. (s.len ≤ 22) × (length s.bytes ≡ 22) };
}

impl ShortBytes {
    pub(crate) fn from_slice(slice: &[u8]) -> ShortBytes
        requires { length slice.now ≤ 22 }
        ensures { result ≡ slice.now }
    {
        let mut bytes = [0u8; 22];
        bytes[..slice.len()].copy_from_slice(slice);
        ShortBytes {
            len: slice.len() as u8,
            bytes,
        }
    }

    pub(crate) fn as_slice(&self) -> &[u8]
        ensures { result.now ≡ self.now }
    {
        &self.bytes[..usize::from(self.len)]
    }
}
