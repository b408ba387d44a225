ghost use Rattle.std.specs.Prelude.{◌≡◌, ℕ, List, ◌∷◌, [], None, IfOk, length};
ghost use Rattle.rand_core.specs.Steps.{u64_via_u32};
ghost use Rattle.rand_chacha.specs.ChaCha.{next_word, of_seed};
ghost use Rattle.outside.specs.Draw.{Gives};

use crate::draw::Draw;
use crate::source::Failed;
use rand_chacha::ChaCha20Rng;
use rand_core::SeedableRng;
use rand_core::utils::next_u64_via_u32;
use std::marker::Model;
use std::random::RandomSource;

/// The words of a generator (ChaCha with 20 rounds) whose seed is the system's. Contracts see the generator's state.
#[derive(Debug, Drop)]
pub struct SeededDraw {
    generator: ChaCha20Rng,
}

impl Model for SeededDraw {
    ghost use Rattle.rand_chacha.specs.ChaCha.{ChaCha};

    ghost Value = { ChaCha };

    ghost view = { λ d. d.generator };
}

impl SeededDraw {
    /// Takes a seed of 256 bits from the system. It is `Failed` where the system gives none: who draws must not go on
    /// then, so that no two draws share a seed.
    pub fn new<R: RandomSource>(rt: &R) -> Result<SeededDraw, Failed>
        ensures { IfOk result (λ d. (seed : List ℕ) × (length seed ≡ 32) × (d ≡ of_seed seed)) }
    {
        let mut seed = [0u8; 32];
        match rt.fill_bytes(&mut seed) {
            Ok(()) => Ok(SeededDraw {
                generator: ChaCha20Rng::from_seed(seed),
            }),
            Err(_) => Err(Failed),
        }
    }
}

impl Draw for SeededDraw {
    ghost given = { λ d. None };

    fn word(&mut self) -> u64
        ensures untold { Gives None None (result ∷ []) }
        ensures next { (result, self.new) ≡ u64_via_u32 (next_word 10) self.old }
    {
        next_u64_via_u32(&mut self.generator)
    }
}
