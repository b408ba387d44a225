ghost use Rattle.std.specs.Prelude.{◌≡◌, ◌≤◌, ◌<◌, ◌+◌, true, false, [], length, nat_lt, remove, map, IfOk, IfSome, IfNone, OnOk, OnErr};
ghost use Rattle.std.specs.Option.{option_copied};
ghost use Rattle.store_model.specs.Leases.{granted, least_free, with_lease, without_lease, lease_number};
ghost use Rattle.store_model.specs.Transactions.{has_lease};
ghost use Rattle.store_world.specs.ProperLeases.{Climb};
ghost use Rattle.store_world.specs.Rising.{AreRising, place_in, row_of};

use etcd_types::{List, NoMemory};
use std::alloc::Global;
use std::marker::Model;
use store_model::Lease;

/// The longest time to live of a lease, in seconds.
pub(crate) const LONGEST_TTL_SECONDS: u64 = 9_000_000_000;

/// The leases of a store, by rising numbers. Contracts see it as the list of leases. Their numbers
/// are positive, each is above the one before it, and no time to live is above the longest.
#[derive(Debug, Drop)]
pub(crate) struct Leases {
    items: Vec<Lease>,
}

impl Model for Leases {
    ghost use Rattle.std.specs.Prelude.{List};
    ghost use Rattle.store_model.specs.declared.lease.Lease.{Lease};
    ghost use Rattle.store_model.specs.Leases.{lease_number};
    ghost use Rattle.store_world.specs.Rising.{AreRising};
    ghost use Rattle.store_world.specs.ProperLeases.{AreProper, Climb};

    ghost Value = { List Lease };

    ghost view = { λ l. l.items.items };

    ghost invariant = { λ l. AreProper l.items.items × AreRising lease_number l.items.items × Climb 0 l.items.items };
}

impl Leases {
    pub(crate) fn new(alloc: Global) -> Leases
        ensures { result ≡ [] }
    {
        Leases {
            items: Vec::new(alloc),
        }
    }

    pub(crate) fn has(&self, number: u64) -> bool
        ensures there { result ≡ has_lease self.now number }
        ensures positive { result ≡ true → 0 < number }
    {
        lease_found(self.items.as_slice(), number).is_some()
    }

    /// The time to live that the lease was granted, or 0 where there is none.
    pub(crate) fn granted(&self, number: u64) -> u64
        ensures ttl { result ≡ granted self.now number }
        ensures short { result ≤ 9_000_000_000 }
    {
        match lease_found(self.items.as_slice(), number) {
            Some(lease) => lease.ttl,
            None => 0,
        }
    }

    /// The least positive number that is not in use.
    pub(crate) fn least_free(&self) -> u64
        ensures number { result ≡ least_free self.now }
        ensures positive { 0 < result }
        ensures free { has_lease self.now result ≡ false }
    {
        first_gap(self.items.as_slice()) as u64 + 1
    }

    /// Puts the lease in its place.
    pub(crate) fn add(&mut self, lease: Lease) -> Result<(), NoMemory>
        requires short { lease.ttl ≤ 9_000_000_000 }
        requires positive { 0 < lease.number }
        requires free { has_lease self.old lease.number ≡ false }
        ensures ok { OnOk result (self.new ≡ with_lease lease self.old) }
        ensures err { OnErr result (self.new ≡ self.old) }
    {
        let place = place_of(self.items.as_slice(), lease.number);
        self.items.insert(place, lease)?;
        Ok(())
    }

    pub(crate) fn remove(&mut self, number: u64)
        ensures { self.new ≡ without_lease number self.old }
    {
        if let Some(place) = place_found(self.items.as_slice(), number) {
            self.items.remove(place);
        }
    }

    pub(crate) fn numbers(&self, alloc: Global) -> Result<List<u64>, NoMemory>
        ensures { IfOk result (λ numbers. numbers ≡ map lease_number self.now) }
    {
        let mut numbers = List::new(alloc);
        for lease in &self.items {
            numbers.push(lease.number)?;
        }
        Ok(numbers)
    }
}

/// Where the numbers from 1 on are no longer taken in a row.
fn first_gap(leases: &[Lease]) -> usize
    requires { Climb 0 leases.now }
    ensures within { result ≤ length leases.now }
    ensures number { result + 1 ≡ least_free leases.now }
{
    let mut low = 0;
    let mut high = leases.len();
    while low < high {
        let middle = low + (high - low) / 2;
        if leases[middle].number == middle as u64 + 1 {
            low = middle + 1;
        } else {
            high = middle;
        }
    }
    low
}

/// The place of a number among rising ones, behind all lower ones.
fn place_of(leases: &[Lease], number: u64) -> usize
    requires { AreRising lease_number leases.now }
    ensures within { result ≤ length leases.now }
    ensures place { result ≡ place_in lease_number number leases.now }
{
    leases.partition_point(
        |lease: &Lease| -> bool
            ensures { result ≡ nat_lt lease.now.number number }
        { lease.number < number },
    )
}

/// The lease of this number.
fn lease_found(leases: &[Lease], number: u64) -> Option<&Lease>
    requires { AreRising lease_number leases.now }
    ensures { option_copied result ≡ row_of lease_number number leases.now }
{
    let place = place_of(leases, number);
    let Some(found) = leases.get(place) else {
        return None;
    };
    if found.number != number {
        return None;
    }
    Some(found)
}

/// Where the lease of this number is.
fn place_found(leases: &[Lease], number: u64) -> Option<usize>
    requires { AreRising lease_number leases.now }
    ensures within { IfSome result (λ place. place < length leases.now) }
    ensures found { IfSome result (λ place. without_lease number leases.now ≡ remove leases.now place) }
    ensures none { IfNone result (without_lease number leases.now ≡ leases.now) }
{
    let place = place_of(leases, number);
    let Some(found) = leases.get(place) else {
        return None;
    };
    if found.number != number {
        return None;
    }
    Some(place)
}
