ghost use Rattle.std.specs.Prelude.{◌<◌, IfSome};

/// Numbers that look random: the same for the same seed.
#[derive(Clone, Copy, Debug)]
pub struct Draw {
    state: u64,
}

impl Draw {
    pub fn new(seed: u64) -> Draw {
        Draw { state: seed }
    }

    fn word(&mut self) -> u64 {
        self.state = self
            .state
            .wrapping_mul(6_364_136_223_846_793_005)
            .wrapping_add(1_442_695_040_888_963_407);
        self.state >> 33
    }

    /// Below the bound, or 0 where that is 0.
    pub fn below(&mut self, bound: u64) -> u64
        ensures { 0 < bound → result < bound }
    {
        if bound == 0 { 0 } else { self.word() % bound }
    }

    /// A place among so many, where there is one.
    pub fn place(&mut self, count: usize) -> Option<usize>
        ensures { IfSome result (λ at. at < count) }
    {
        if count == 0 {
            return None;
        }
        Some(self.below(count as u64) as usize)
    }
}
