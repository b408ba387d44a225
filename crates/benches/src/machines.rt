use outside::{Machine, Roused};

/// What a step answers once the machine has ended.
pub const ENDED: u64 = u64::MAX;

/// A machine of N + 1 words, which counts its steps until it is told to end.
#[derive(Drop)]
pub struct Tally<const N: usize> {
    words: [u64; N],
    made: u64,
}

/// A machine of 1 KB behind a box.
#[derive(Drop)]
pub struct Boxed {
    parts: Box<Tally<127>>,
}

impl<const N: usize> Tally<N> {
    pub fn new() -> Tally<N> {
        Tally {
            words: [0; N],
            made: 0,
        }
    }
}

impl Boxed {
    pub fn new(parts: Box<Tally<127>>) -> Boxed {
        Boxed { parts }
    }
}

impl<const N: usize> Machine for Tally<N> {
    type Event = bool;

    type Outcome = u64;

    type Fault = ();

    ghost may = { λ e. Unit {0} };

    ghost steps = { λ before event now answer after. Unit {0} };

    fn step(&mut self, event: bool, now: u64) -> Result<u64, ()> {
        if event {
            self.made = ENDED;
        } else if self.made != ENDED {
            self.made += 1;
            if let Some(word) = self.words.first_mut() {
                *word = now;
            }
        }
        Ok(self.made)
    }

    fn rouses(&self) -> Roused {
        if self.made == ENDED {
            Roused::Everybody
        } else {
            Roused::Nobody
        }
    }
}

impl Machine for Boxed {
    type Event = bool;

    type Outcome = u64;

    type Fault = ();

    ghost may = { λ e. Unit {0} };

    ghost steps = { λ before event now answer after. Unit {0} };

    fn step(&mut self, event: bool, now: u64) -> Result<u64, ()> {
        self.parts.step(event, now)
    }

    fn rouses(&self) -> Roused {
        self.parts.rouses()
    }
}
