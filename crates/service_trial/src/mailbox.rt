use outside::{CREWS, Machine, Roused};

/// Keeps the letters of 64 names. The partner of a name is the one that differs from it in the last bit.
#[derive(Drop)]
pub struct Mailbox {
    letters: u64,
    laid: Option<u32>,
}

impl Mailbox {
    /// A mailbox with a letter for the first of each pair.
    pub fn new() -> Mailbox {
        Mailbox {
            letters: 0x5555_5555_5555_5555,
            laid: None,
        }
    }
}

/// Whether the name rests in a crew of its own. The others rest in lots, and each such pair shares one.
pub fn is_of_crew(name: u32) -> bool {
    name / 2 % 2 == 1
}

fn lot_of(name: u32) -> u32 {
    if is_of_crew(name) {
        CREWS + name % 64
    } else {
        name / 2
    }
}

impl Machine for Mailbox {
    type Event = u32;

    type Outcome = bool;

    type Fault = ();

    ghost may = { λ e. Unit {0} };

    ghost steps = { λ before event now answer after. Unit {0} };

    /// Takes the name's letter and lays one for its partner, where there is one for it.
    fn step(&mut self, name: u32, now: u64) -> Result<bool, ()> {
        let _ = now;
        let letter = 1u64.wrapping_shl(name);
        if self.letters & letter == 0 {
            self.laid = None;
            return Ok(false);
        }
        let partner = name ^ 1;
        self.letters = (self.letters & !letter) | 1u64.wrapping_shl(partner);
        self.laid = Some(partner);
        Ok(true)
    }

    fn rouses(&self) -> Roused {
        match self.laid {
            Some(_) => Roused::Lots,
            None => Roused::Nobody,
        }
    }

    fn roused(&self, word: u32) -> u64 {
        match self.laid {
            Some(name) if lot_of(name) / 64 == word => 1u64.wrapping_shl(lot_of(name)),
            _ => 0,
        }
    }
}
