ghost use Rattle.std.specs.Prelude.{◌≡◌, ◌≤◌, ◌+◌, ℕ, None, Some, if◌then◌else◌, IfOk, OnOk};
ghost use Rattle.std.specs.Option.{option_copied};
ghost use Rattle.first_places.specs.Counts.{AreBefore, Puts, count_at, count_from, counted_at};
ghost use Rattle.first_places.specs.Places.{is_pair, value_at};

use crate::values::Values;
use etcd_types::NoMemory;
use std::alloc::Global;
use std::collections::BTreeMap;
use std::marker::Model;

/// No count is higher than this.
const LAST_COUNT: u64 = 0xffff_ffff_ffff_ffff;

/// A count for each of some pairs of numbers, with the place at which it was made. Contracts see it as a list of pairs, each with its
/// place and its count.
#[derive(Drop)]
pub struct Counts {
    map: BTreeMap<(u64, u64), (u64, u64)>,
}

impl Model for Counts {
    ghost use Rattle.std.specs.Prelude.{List, ℕ};

    ghost Value = { List ((ℕ × ℕ) × (ℕ × ℕ)) };

    ghost view = { λ c. c.map.entries };
}

impl Counts {
    /// No count is kept. It takes no memory.
    pub fn new(alloc: Global) -> Counts
        ensures { (a b : ℕ) → counted_at result a b ≡ None }
    {
        Counts {
            map: BTreeMap::new(alloc),
        }
    }

    /// The pair's count, from the start of its first number on, or 0.
    pub fn of(&self, starts: &Values, whose: u64, number: u64) -> u64
        ensures { result ≡ count_at self.now (value_at starts.now) whose number }
    {
        count_since(starts.of(whose), self.map.get(&(whose, number)))
    }

    fn put(&mut self, whose: u64, number: u64, place: u64, count: u64) -> Result<(), NoMemory>
        ensures { OnOk result (Puts whose number place count self.old self.new) }
    {
        self.map.insert((whose, number), (place, count))?;
        Ok(())
    }

    /// Sets the pair's count to 0 at this place, and gives what it was.
    pub fn clear(
        &mut self,
        starts: &Values,
        whose: u64,
        number: u64,
        place: u64,
    ) -> Result<u64, NoMemory>
        ensures was { IfOk result (λ n. n ≡ count_at self.old (value_at starts.now) whose number) }
        ensures cleared { OnOk result ((a b : ℕ) → count_at self.new (value_at starts.now) a b ≡ (if is_pair (Some (whose, number)) a b then 0 else count_at self.old (value_at starts.now) a b)) }
        ensures before { OnOk result (AreBefore (place + 1) self.old → AreBefore (place + 1) self.new) }
    {
        let count = self.of(starts, whose, number);
        if count == 0 {
            return Ok(0);
        }
        self.put(whose, number, place, 0)?;
        Ok(count)
    }

    /// Counts one more for the pair, at this place, which isn't before the start of its first number.
    pub fn raise(
        &mut self,
        starts: &Values,
        whose: u64,
        number: u64,
        place: u64,
    ) -> Result<(), NoMemory>
        ensures raised { OnOk result (value_at starts.now whose ≤ place → (a b : ℕ) → count_at self.new (value_at starts.now) a b ≡ (if is_pair (Some (whose, number)) a b then count_at self.old (value_at starts.now) a b + 1 else count_at self.old (value_at starts.now) a b)) }
        ensures before { OnOk result (AreBefore (place + 1) self.old → AreBefore (place + 1) self.new) }
    {
        let count = self.of(starts, whose, number);
        if count == LAST_COUNT {
            return Err(NoMemory);
        }
        self.put(whose, number, place, count + 1)?;
        Ok(())
    }
}

/// What is kept, where it wasn't made before the start.
fn count_since(start: u64, kept: Option<&(u64, u64)>) -> u64
    ensures { result ≡ count_from start (option_copied kept.entry) }
{
    match kept {
        Some((place, count)) => { if start <= *place { *count } else { 0 } }
        None => 0,
    }
}
