ghost use Rattle.std.specs.Prelude.{◌≡◌, ◌==◌, ◌+◌, ℕ, min, if◌then◌else◌, OnOk};
ghost use Rattle.first_places.specs.Places.{is_number, value_at};

use etcd_types::NoMemory;
use std::alloc::Global;
use std::collections::BTreeMap;
use std::marker::Model;

/// A value for each number, of which all but some are 0. Contracts see it as a list of numbers, each with its value.
#[derive(Drop)]
pub struct Values {
    map: BTreeMap<u64, u64>,
}

impl Model for Values {
    ghost use Rattle.std.specs.Prelude.{List, ℕ};

    ghost Value = { List (ℕ × ℕ) };

    ghost view = { λ v. v.map.entries };
}

impl Values {
    /// All are 0. It takes no memory.
    pub fn new(alloc: Global) -> Values
        ensures { (k : ℕ) → value_at result k ≡ 0 }
    {
        Values {
            map: BTreeMap::new(alloc),
        }
    }

    /// The value at the number.
    pub fn of(&self, number: u64) -> u64
        ensures { result ≡ value_at self.now number }
    {
        match self.map.get(&number) {
            Some(value) => *value,
            None => 0,
        }
    }

    /// Keeps the value at the number.
    pub fn put(&mut self, number: u64, value: u64) -> Result<(), NoMemory>
        ensures { OnOk result ((k : ℕ) → value_at self.new k ≡ (if number == k then value else value_at self.old k)) }
    {
        self.map.insert(number, value)?;
        Ok(())
    }

    /// One more at the number, where there is one, as far as 64 bits can count.
    pub fn count(&mut self, number: Option<u64>) -> Result<(), NoMemory>
        ensures { OnOk result ((k : ℕ) → value_at self.new k ≡ (if is_number number k then min (value_at self.old k + 1) 0xffff_ffff_ffff_ffff else value_at self.old k)) }
    {
        match number {
            Some(number) => Ok(self.put(number, self.of(number).saturating_add(1))?),
            None => Ok(()),
        }
    }
}
