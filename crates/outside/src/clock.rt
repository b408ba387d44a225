ghost use Rattle.std.specs.Prelude.{◌≡◌, ℕ, ◌+◌, ◌≤◌, min};
ghost use Rattle.outside.specs.Faults.{one_more};

/// What the time is, in milliseconds from some start.
pub trait Clock {
    // the last reading
    ghost last: { Self → ℕ };

    /// Reads the clock. A reading is never below an earlier one.
    fn now(&mut self) -> u64
        ensures reading { result ≡ last self.new }
        ensures later { last self.old ≤ last self.new };

    /// Lets some time pass, about this many milliseconds. It is no reading, and promises nothing of the time.
    fn pause(&mut self, millis: u64)
        ensures unread { last self.new ≡ last self.old };
}

/// A clock that stands until it is moved on.
#[derive(Debug, Drop)]
pub struct MemClock {
    /// What it reads, in milliseconds.
    pub time: u64,
    /// The last reading, or 0 where there was none.
    pub last: u64,
    /// How often it was read, or 2^64 - 1 where that is more.
    pub readings: u64,
    ghost ordered: { last ≤ time },
}

impl MemClock {
    /// A clock that reads `time`.
    pub fn new(time: u64) -> MemClock
        ensures { (result.time ≡ time) × (result.last ≡ 0) × (result.readings ≡ 0) }
    {
        MemClock {
            time,
            last: 0,
            readings: 0,
        }
    }

    /// Moves the clock on by so many milliseconds, or to its last reading, 2^64 - 1.
    pub fn advance(&mut self, millis: u64)
        ensures time { self.new.time ≡ min (self.old.time + millis) 0xffff_ffff_ffff_ffff }
        ensures rest { (self.new.last ≡ self.old.last) × (self.new.readings ≡ self.old.readings) }
    {
        self.time = self.time.saturating_add(millis);
    }
}

impl Clock for MemClock {
    ghost last = { λ c. c.last };

    fn now(&mut self) -> u64
        ensures reading { result ≡ self.new.last }
        ensures later { self.old.last ≤ self.new.last }
        ensures time { (result ≡ self.old.time) × (self.new.time ≡ self.old.time) }
        ensures counted { self.new.readings ≡ one_more self.old.readings }
    {
        self.readings = self.readings.saturating_add(1);
        self.last = self.time;
        self.last
    }

    /// Moves the clock on.
    fn pause(&mut self, millis: u64)
        ensures time { self.new.time ≡ min (self.old.time + millis) 0xffff_ffff_ffff_ffff }
        ensures rest { (self.new.last ≡ self.old.last) × (self.new.readings ≡ self.old.readings) }
    {
        self.advance(millis);
    }
}
