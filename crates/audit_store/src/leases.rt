ghost use Rattle.std.specs.Prelude.{◌≡◌, ◌≤◌, ℕ, ◌<◌, true, [], length, insert, remove, map, IfOk, IfSome, IfNone, OnOk, OnErr};
ghost use Rattle.store_model.specs.Leases.{granted, least_free, with_lease, without_lease, lease_number};
ghost use Rattle.store_model.specs.Transactions.{has_lease};
ghost use Rattle.audit_store.specs.ProperLeases.{AreProper};

use etcd_types::{List, NoMemory};
use std::alloc::Global;
use std::marker::Model;
use store_model::Lease;

/// The longest time to live of a lease, in seconds.
pub(crate) const LONGEST_TTL_SECONDS: u64 = 9_000_000_000;

/// The leases of a store, by rising numbers. Contracts see it as the list of leases. Their numbers
/// are positive, and no time to live is above the longest.
#[derive(Debug, Drop)]
pub(crate) struct Leases {
    items: Vec<Lease>,
}

impl Model for Leases {
    ghost use Rattle.std.specs.Prelude.{List};
    ghost use Rattle.store_model.specs.declared.lease.Lease.{Lease};
    ghost use Rattle.audit_store.specs.ProperLeases.{AreProper};

    ghost Value = { List Lease };

    ghost view = { λ l. l.items.items };

    ghost invariant = { λ l. AreProper l.items.items };
}

impl Leases {
    pub(crate) fn new(alloc: Global) -> Leases
        ensures { result ≡ [] }
    {
        Leases {
            items: Vec::new(alloc),
        }
    }

    pub(crate) fn has(&self, number: u64) -> bool
        ensures there { result ≡ has_lease self.now number }
        ensures positive { result ≡ true → 0 < number }
    {
        has_lease(self.items.as_slice(), number)
    }

    /// The time to live that the lease was granted, or 0 where there is none.
    pub(crate) fn granted(&self, number: u64) -> u64
        ensures ttl { result ≡ granted self.now number }
        ensures short { result ≤ 9_000_000_000 }
    {
        for lease in &self.items {
            if lease.number == number {
                return lease.ttl;
            }
        }
        0
    }

    /// The least positive number that is not in use.
    pub(crate) fn least_free(&self) -> u64
        ensures number { result ≡ least_free self.now }
        ensures positive { 0 < result }
    {
        let mut number = 1;
        for lease in &self.items {
            if lease.number != number {
                break;
            }
            number += 1;
        }
        number
    }

    /// Puts the lease in its place.
    pub(crate) fn add(&mut self, lease: Lease) -> Result<(), NoMemory>
        requires short { lease.ttl ≤ 9_000_000_000 }
        requires positive { 0 < lease.number }
        ensures ok { OnOk result (self.new ≡ with_lease lease self.old) }
        ensures err { OnErr result (self.new ≡ self.old) }
    {
        let place = place_of(self.items.as_slice(), lease.number);
        self.items.insert(place, lease)?;
        Ok(())
    }

    pub(crate) fn remove(&mut self, number: u64)
        ensures { self.new ≡ without_lease number self.old }
    {
        if let Some(place) = place_found(self.items.as_slice(), number) {
            self.items.remove(place);
        }
    }

    pub(crate) fn numbers(&self, alloc: Global) -> Result<List<u64>, NoMemory>
        ensures { IfOk result (λ numbers. numbers ≡ map lease_number self.now) }
    {
        let mut numbers = List::new(alloc);
        for lease in &self.items {
            numbers.push(lease.number)?;
        }
        Ok(numbers)
    }
}

fn has_lease(leases: &[Lease], number: u64) -> bool
    ensures { result ≡ has_lease leases.now number }
{
    leases.iter().any(|lease| lease.number == number)
}

/// The place of a number among rising ones.
fn place_of(leases: &[Lease], number: u64) -> usize
    ensures within { result ≤ length leases.now }
    ensures place { (ttl : ℕ) → with_lease (record { number = number; ttl = ttl }) leases.now ≡ insert leases.now result (record { number = number; ttl = ttl }) }
{
    for (index, lease) in leases.iter().enumerate() {
        if number <= lease.number {
            return index;
        }
    }
    leases.len()
}

/// Where the lease of this number is.
fn place_found(leases: &[Lease], number: u64) -> Option<usize>
    ensures within { IfSome result (λ place. place < length leases.now) }
    ensures found { IfSome result (λ place. without_lease number leases.now ≡ remove leases.now place) }
    ensures none { IfNone result (without_lease number leases.now ≡ leases.now) }
{
    for (index, lease) in leases.iter().enumerate() {
        if lease.number == number {
            return Some(index);
        }
    }
    None
}
