ghost use Rattle.std.specs.Prelude.{◌≡◌, ◌+◌, ◌≤◌, ◌<◌, ℕ, nat_lt, true, [], length, insert, remove, map, vec_len, IfOk, IfSome, IfNone, OnOk};
ghost use Rattle.std.specs.Vec.{vec_capacity};
ghost use Rattle.shop_model.specs.Deadlines.{deadline_number, with_deadline, without_deadline, put_off, due, ends_at};
ghost use Rattle.shop_model.specs.Steps.{after_grant, after_keepalive, deadlines_after};
ghost use Rattle.store_world.specs.Rising.{AreRising, place_in};
ghost use Rattle.store_machine.specs.Order.{are_rising, are_from};

use etcd_types::{Answer, Body, List, NoMemory, Request};
use shop_model::Deadline;
use std::alloc::Global;

/// When the leases of a store expire, by rising numbers.
#[derive(Drop)]
pub(crate) struct Deadlines {
    items: Vec<Deadline>,
    /// No deadline comes before this reading of the clock, so until then none is looked at.
    soonest: u64,
    ghost rising: { are_rising items.items ≡ true },
    ghost none_before: { are_from soonest items.items ≡ true },
}

impl Deadlines {
    ghost use Rattle.store_machine.specs.Rows.{rows, HasSpare};

    pub(crate) fn new(alloc: Global) -> Deadlines
        ensures { rows result ≡ [] }
    {
        Deadlines {
            items: Vec::new(alloc),
            soonest: u64::MAX,
        }
    }

    pub(crate) fn len(&self) -> u64
        ensures { result ≡ length (rows self.now) }
    {
        self.items.as_slice().len() as u64
    }

    /// Whether a lease is due.
    pub(crate) fn has_due(&self, now: u64) -> bool {
        self.soonest <= now && self.items.iter().any(|deadline| deadline.at <= now)
    }

    /// Notes anew when the first deadline comes, where it may have come.
    pub(crate) fn look(&mut self, now: u64)
        ensures { rows self.new ≡ rows self.old }
    {
        if self.soonest <= now {
            self.soonest = soonest(self.items.as_slice());
        }
    }

    /// The leases that are due, by rising numbers. It takes no memory where none is.
    pub(crate) fn due(&self, alloc: Global, now: u64) -> Result<List<u64>, NoMemory>
        ensures { IfOk result (λ numbers. numbers ≡ due now (rows self.now)) }
    {
        let mut numbers = List::new(alloc);
        if now < self.soonest {
            return Ok(numbers);
        }
        for deadline in &self.items {
            if deadline.at <= now {
                numbers.push(deadline.number)?;
            }
        }
        Ok(numbers)
    }

    /// Makes room for one more.
    pub(crate) fn reserve(&mut self) -> Result<(), NoMemory>
        ensures rows { rows self.new ≡ rows self.old }
        ensures spare { OnOk result (HasSpare self.new) }
    {
        self.items.reserve(1)?;
        Ok(())
    }

    /// Notes what a request that was answered changes of them.
    pub(crate) fn note(&mut self, request: &Request, answer: &Answer, now: u64)
        requires { HasSpare self.old }
        ensures { rows self.new ≡ deadlines_after now request.now answer.now (rows self.old) }
    {
        match answer {
            Answer::Refused(_) => {}
            Answer::Done(reply) => match request {
                Request::Grant { .. } => self.note_grant(&reply.body, now),
                Request::KeepAlive { .. } => self.note_keepalive(&reply.body, now),
                Request::Revoke { lease } => self.remove(*lease),
                Request::Range(_)
                | Request::Put(_)
                | Request::Delete(_)
                | Request::Txn(_)
                | Request::Compact { .. }
                | Request::TimeToLive { .. }
                | Request::Leases
                | Request::Watch(_) => {}
            },
        }
    }

    fn note_grant(&mut self, body: &Body, now: u64)
        requires { HasSpare self.old }
        ensures { rows self.new ≡ after_grant now body.now (rows self.old) }
    {
        if let Body::Grant { lease, ttl } = body {
            self.add(Deadline {
                number: *lease,
                at: ends_at(now, *ttl),
            });
        }
    }

    fn note_keepalive(&mut self, body: &Body, now: u64)
        ensures { rows self.new ≡ after_keepalive now body.now (rows self.old) }
    {
        if let Body::KeepAlive { lease, ttl } = body {
            if *ttl != 0 {
                put_off(&mut self.items, *lease, ends_at(now, *ttl));
            }
        }
    }

    /// One more, in the room that was made.
    fn add(&mut self, deadline: Deadline)
        requires { HasSpare self.old }
        ensures { rows self.new ≡ with_deadline deadline (rows self.old) }
    {
        self.soonest = self.soonest.min(deadline.at);
        put(&mut self.items, deadline);
    }

    pub(crate) fn remove(&mut self, number: u64)
        ensures { rows self.new ≡ without_deadline number (rows self.old) }
    {
        if let Some(place) = place_found(self.items.as_slice(), number) {
            self.items.remove(place);
        }
    }
}

/// The reading of the clock so many seconds from now, or the last one that there is.
fn ends_at(now: u64, ttl: u64) -> u64
    ensures { result ≡ ends_at now ttl }
{
    now.saturating_add(ttl.saturating_mul(1000))
}

/// Puts the deadline in its place, in the room that was made.
fn put(deadlines: &mut Vec<Deadline>, deadline: Deadline)
    requires spare { vec_len deadlines.old + 1 ≤ vec_capacity deadlines.old }
    requires rising { AreRising deadline_number deadlines.old.items }
    ensures { deadlines.new.items ≡ with_deadline deadline deadlines.old.items }
{
    let place = place_of(deadlines.as_slice(), deadline.number);
    deadlines.insert(place, deadline).unwrap();
}

/// The lease of this number expires not before this reading of the clock.
fn put_off(deadlines: &mut Vec<Deadline>, number: u64, at: u64)
    requires { AreRising deadline_number deadlines.old.items }
    ensures { deadlines.new.items ≡ map (put_off number at) deadlines.old.items }
{
    let mut place = place_of(deadlines.as_slice(), number);
    while place < deadlines.len() && deadlines[place].number == number {
        put_off_one(&mut deadlines[place], number, at);
        place += 1;
    }
}

fn put_off_one(deadline: &mut Deadline, number: u64, at: u64)
    ensures { deadline.new ≡ put_off number at deadline.old }
{
    if deadline.number == number {
        deadline.at = deadline.at.max(at);
    }
}

/// A reading of the clock that none of them comes before.
fn soonest(deadlines: &[Deadline]) -> u64
    ensures { are_from result deadlines.now ≡ true }
{
    let mut soonest = u64::MAX;
    for deadline in deadlines {
        soonest = soonest.min(deadline.at);
    }
    soonest
}

/// The place of a number among rising ones, behind all lower ones.
fn place_of(deadlines: &[Deadline], number: u64) -> usize
    requires { AreRising deadline_number deadlines.now }
    ensures within { result ≤ length deadlines.now }
    ensures place { result ≡ place_in deadline_number number deadlines.now }
    ensures goes { (at : ℕ) → with_deadline (record { number = number; at = at }) deadlines.now ≡ insert deadlines.now result (record { number = number; at = at }) }
{
    deadlines.partition_point(
        |deadline: &Deadline| -> bool
            ensures { result ≡ nat_lt deadline.now.number number }
        { deadline.number < number },
    )
}

/// Where the deadline of the lease of this number is.
fn place_found(deadlines: &[Deadline], number: u64) -> Option<usize>
    requires { AreRising deadline_number deadlines.now }
    ensures within { IfSome result (λ place. place < length deadlines.now) }
    ensures found { IfSome result (λ place. without_deadline number deadlines.now ≡ remove deadlines.now place) }
    ensures none { IfNone result (without_deadline number deadlines.now ≡ deadlines.now) }
{
    let place = place_of(deadlines, number);
    let Some(found) = deadlines.get(place) else {
        return None;
    };
    if found.number != number {
        return None;
    }
    Some(place)
}
