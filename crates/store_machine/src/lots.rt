// A set of the lots in which the passes of watches rest.

use outside::{CREWS, LOT_WORDS};

/// The lot in which the pass of a watch rests.
pub fn lot_of_watch(number: u64) -> u32 {
    (number % u64::from(CREWS)) as u32
}

/// A set of lots, with a bit for each.
#[derive(Clone, Copy, Debug)]
pub(crate) struct Lots {
    words: [u64; LOT_WORDS as usize],
}

impl Lots {
    pub(crate) fn none() -> Lots {
        Lots {
            words: [0; LOT_WORDS as usize],
        }
    }

    pub(crate) fn add(&mut self, lot: u32) {
        if let Some(word) = self.words.get_mut((lot / 64) as usize) {
            *word |= 1u64.wrapping_shl(lot);
        }
    }

    pub(crate) fn add_all(&mut self, others: &Lots) {
        for (number, word) in self.words.iter_mut().enumerate() {
            *word |= others.word(number as u32);
        }
    }

    pub(crate) fn word(&self, number: u32) -> u64 {
        self.words.get(number as usize).copied().unwrap_or(0)
    }
}
