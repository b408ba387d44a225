ghost use Rattle.std.specs.Prelude.{◌≡◌, [], OnOk, OnErr};
ghost use Rattle.std.specs.Option.{option_copied};
ghost use Rattle.world_model.specs.Places.{kept_at, with_kept};

use etcd_types::NoMemory;
use numbered_rows::place;
use std::alloc::Global;
use std::marker::Model;

/// Values by number, in the order of the numbers.
#[derive(Drop)]
pub struct Numbers<T> {
    pub rows: Vec<(u64, T)>,
}

impl<T> Model for Numbers<T> {
    ghost use Rattle.std.specs.Prelude.{IsTrue};
    ghost use Rattle.std.specs.Coded.{coded_list, coded×, coded_ℕ};
    ghost use Rattle.numbered_rows.specs.Numbered.{Numbered, is_in_order};

    ghost Value = { Numbered T };

    ghost coded = { coded_list (coded× coded_ℕ T.code) };

    ghost view = { λ r. r.rows.items };

    ghost invariant = { λ r. IsTrue (is_in_order r.rows.items) };
}

impl<T> Numbers<T> {
    /// No values. It takes no memory.
    pub fn new(alloc: Global) -> Numbers<T>
        ensures { result ≡ [] }
    {
        Numbers {
            rows: Vec::new(alloc),
        }
    }

    /// All of them, in the order of their numbers, by themselves.
    pub fn into_vec(self) -> Vec<(u64, T)>
        ensures { result.items ≡ self }
    {
        self.rows
    }

    /// What is kept at the number.
    pub fn find(&self, number: u64) -> Option<&T>
        ensures { option_copied result ≡ kept_at self.now number }
    {
        match place(&self.rows, number) {
            Ok(at) => Some(&self.rows[at].1),
            Err(_) => None,
        }
    }
}

impl<T: Drop> Numbers<T> {
    /// Keeps the value at the number, in place of another one. Where memory was wanting all is as before.
    pub fn put(&mut self, number: u64, value: T) -> Result<(), NoMemory>
        ensures ok { OnOk result (self.new ≡ with_kept self.old number value) }
        ensures err { OnErr result (self.new ≡ self.old) }
    {
        match place(&self.rows, number) {
            Ok(at) => self.rows[at].1 = value,
            Err(gap) => self.rows.insert(gap, (number, value))?,
        }
        Ok(())
    }
}
