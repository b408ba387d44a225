ghost use Rattle.std.specs.Prelude.{◌≡◌, ◌∷◌, [], None, IfOk};
ghost use Rattle.outside.specs.Draw.{Gives};
ghost use Rattle.outside.specs.Faults.{AtMostOnce};

use crate::draw::Draw;
use crate::seeded_draw::SeededDraw;
use crate::source::Failed;
use std::marker::Model;
use std::random::RandomSource;

/// The system's random source, asked for each word. It tells nothing.
///
/// A word that the system refuses is the next one of a generator that was seeded as the draw was made. So two draws
/// never give the same words because the system refused both.
#[derive(Debug, Drop)]
pub struct SystemDraw<R> {
    rt: R,
    spare: SeededDraw,
    faults: u64,
}

impl<R> Model for SystemDraw<R> {
    ghost use Rattle.outside.specs.Faults.{Counted};

    ghost Value = { Counted R };

    ghost view = { λ d. record { inner = d.rt; faults = d.faults } };
}

impl<R: RandomSource + Drop> SystemDraw<R> {
    /// A draw that asks `rt`. It is `Failed` where the system gives no seed.
    pub fn new(rt: R) -> Result<SystemDraw<R>, Failed>
        ensures { IfOk result (λ d. d ≡ record { inner = rt; faults = 0 }) }
    {
        let spare = SeededDraw::new(&rt)?;
        Ok(SystemDraw {
            rt,
            spare,
            faults: 0,
        })
    }

    /// How many words the system refused, or 2^64 - 1 where that is more.
    pub fn faults(&self) -> u64
        ensures { result ≡ self.now.faults }
    {
        self.faults
    }
}

impl<R: RandomSource> Draw for SystemDraw<R> {
    ghost given = { λ d. None };

    fn word(&mut self) -> u64
        ensures untold { Gives None None (result ∷ []) }
        ensures counted { AtMostOnce self.old.faults self.new.faults }
        ensures inner { self.new.inner ≡ self.old.inner }
    {
        let mut room = [0u8; 8];
        match self.rt.fill_bytes(&mut room) {
            Ok(()) => u64::from_le_bytes(room),
            Err(_) => {
                self.faults = self.faults.saturating_add(1);
                self.spare.word()
            }
        }
    }
}
