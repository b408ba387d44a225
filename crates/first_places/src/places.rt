ghost use Rattle.std.specs.Prelude.{◌≡◌, ℕ, None, Some, is_some, if◌then◌else◌, OnOk};
ghost use Rattle.first_places.specs.Firsts.{Tells, told_at};
ghost use Rattle.first_places.specs.Places.{from_start, is_pair, place_at, value_at};

use crate::values::Values;
use etcd_types::NoMemory;
use std::alloc::Global;
use std::collections::BTreeMap;
use std::marker::Model;

/// A place for each of some pairs of numbers. Contracts see it as a list of pairs, each with its place.
#[derive(Drop)]
pub struct Places {
    map: BTreeMap<(u64, u64), u64>,
}

impl Model for Places {
    ghost use Rattle.std.specs.Prelude.{List, ℕ};

    ghost Value = { List ((ℕ × ℕ) × ℕ) };

    ghost view = { λ p. p.map.entries };
}

impl Places {
    /// No place is kept. It takes no memory.
    pub fn new(alloc: Global) -> Places
        ensures { (a b : ℕ) → place_at result a b ≡ None }
    {
        Places {
            map: BTreeMap::new(alloc),
        }
    }

    /// The place that is kept for the pair.
    pub fn of(&self, whose: u64, number: u64) -> Option<u64>
        ensures { result ≡ place_at self.now whose number }
    {
        match self.map.get(&(whose, number)) {
            Some(place) => Some(*place),
            None => None,
        }
    }

    /// The place that is kept for the pair, where it isn't before the start of its first number.
    pub fn first(&self, starts: &Values, whose: u64, number: u64) -> Option<u64>
        ensures { result ≡ from_start (value_at starts.now whose) (place_at self.now whose number) }
    {
        let start = starts.of(whose);
        match self.of(whose, number) {
            Some(place) => { if start <= place { Some(place) } else { None } }
            None => None,
        }
    }

    /// Whether such a place is kept.
    pub fn is_told(&self, starts: &Values, whose: u64, number: u64) -> bool
        ensures { result ≡ is_some (from_start (value_at starts.now whose) (place_at self.now whose number)) }
    {
        self.first(starts, whose, number).is_some()
    }

    /// Keeps the place for the pair.
    pub fn put(&mut self, whose: u64, number: u64, place: u64) -> Result<(), NoMemory>
        ensures { OnOk result ((a b : ℕ) → place_at self.new a b ≡ (if is_pair (Some (whose, number)) a b then Some place else place_at self.old a b)) }
    {
        self.map.insert((whose, number), place)?;
        Ok(())
    }

    /// Keeps the place for the pair, where there is one, unless a place from the start of its first number on is kept for it.
    pub fn tell(
        &mut self,
        pair: Option<(u64, u64)>,
        starts: &Values,
        place: u64,
    ) -> Result<(), NoMemory>
        ensures { OnOk result (Tells pair (value_at starts.now) place self.old self.new) }
    {
        match pair {
            Some((whose, number)) => Ok(self.tell_one(whose, number, starts, place)?),
            None => Ok(()),
        }
    }

    fn tell_one(
        &mut self,
        whose: u64,
        number: u64,
        starts: &Values,
        place: u64,
    ) -> Result<(), NoMemory>
        ensures { OnOk result (Tells (Some (whose, number)) (value_at starts.now) place self.old self.new) }
    {
        match self.first(starts, whose, number) {
            Some(_) => Ok(()),
            None => Ok(self.put(whose, number, place)?),
        }
    }
}
