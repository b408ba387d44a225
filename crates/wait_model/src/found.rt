ghost use Rattle.std.specs.Prelude.{◌≡◌, [], ◌∷◌, ◌++◌, true, map, OnOk, OnErr};
ghost use Rattle.etcd_types.specs.Keys.{same};
ghost use Rattle.wait_model.specs.ForeignOwnership.{gone_if, asking_gone, asked_back};
ghost use Rattle.wait_model.specs.Sent.{found_sent, is_asking_due};
ghost use Rattle.wait_model.specs.Writes.{is_asked_as};

use etcd_types::{Bytes, NoMemory};
use std::alloc::Global;
use std::marker::Model;

/// An ownership key that stood in a write's way.
#[derive(Debug, PartialEq, Eq, Drop)]
pub struct Found {
    /// The key that is owned, without the leasing prefix.
    pub key: Bytes,
    /// The create revision of the ownership key.
    pub create: u64,
    /// Whether it is known to be gone.
    pub gone: bool,
    pub revoke: Asking,
}

/// The call that asks an owner to give its key up.
#[derive(Clone, Copy, Debug, PartialEq, Eq)]
pub enum Asking {
    /// To be sent, since this step.
    Due { since: u64 },
    /// Sent, under this number.
    Out { call: u64 },
    /// Answered, or needed no more.
    Done,
}

/// What a write's call found, in the order of the keys. Contracts see it as the list of these.
#[derive(Debug, Drop)]
pub struct FoundList {
    items: Vec<Found>,
}

impl Model for FoundList {
    ghost use Rattle.std.specs.Prelude.{List};
    ghost use Rattle.wait_model.specs.declared.found.Found.{Found as One};

    ghost Value = { List One };

    ghost view = { λ l. l.items.items };
}

impl FoundList {
    /// Nothing was found. It takes no memory.
    pub fn new(alloc: Global) -> FoundList
        ensures { result ≡ [] }
    {
        FoundList {
            items: Vec::new(alloc),
        }
    }

    /// All of them, in order.
    pub fn as_slice(&self) -> &[Found]
        ensures { result.now ≡ self.now }
    {
        self.items.as_slice()
    }

    /// Adds one at the end. Where memory was wanting the list is as before.
    pub fn push(&mut self, found: Found) -> Result<(), NoMemory>
        ensures ok { OnOk result (self.new ≡ self.old ++ found ∷ []) }
        ensures err { OnErr result (self.new ≡ self.old) }
    {
        self.items.push(found)?;
        Ok(())
    }

    /// The ownership key of this key is gone. It takes no memory.
    pub fn lose(&mut self, key: &Bytes)
        ensures { self.new ≡ map (λ f. gone_if (same key.now f.key) f) self.old }
    {
        lose_in(&mut self.items, key);
    }

    /// All are gone. It takes no memory.
    pub fn lose_all(&mut self)
        ensures { self.new ≡ map (λ f. gone_if true f) self.old }
    {
        lose_all_in(&mut self.items);
    }

    /// The revoke call of this number is answered: the owner was asked where it `held` the key still, and else it is gone. It
    /// takes no memory.
    pub fn take_back(&mut self, call: u64, held: bool)
        ensures { self.new ≡ map (asked_back call held) self.old }
    {
        take_back_in(&mut self.items, call, held);
    }

    /// The due revoke call of this key is sent under this number. It takes no memory.
    pub fn send(&mut self, call: u64, key: &Bytes)
        ensures { self.new ≡ map (found_sent call key.now) self.old }
    {
        send_in(&mut self.items, call, key);
    }
}

fn lose_in(items: &mut Vec<Found>, key: &Bytes)
    ensures { items.new.items ≡ map (λ f. gone_if (same key.now f.key) f) items.old.items }
{
    for found in items.iter_mut() {
        lose_one(found, key);
    }
}

fn lose_one(found: &mut Found, key: &Bytes)
    ensures { found.new ≡ gone_if (same key.now found.old.key) found.old }
{
    if *key == found.key {
        lose(found);
    }
}

fn lose_all_in(items: &mut Vec<Found>)
    ensures { items.new.items ≡ map (λ f. gone_if true f) items.old.items }
{
    for found in items.iter_mut() {
        lose(found);
    }
}

fn lose(found: &mut Found)
    ensures { found.new ≡ gone_if true found.old }
{
    found.gone = true;
    found.revoke = asking_gone(found.revoke);
}

fn asking_gone(asking: Asking) -> Asking
    ensures { result ≡ asking_gone asking }
{
    match asking {
        Asking::Due { .. } | Asking::Done => Asking::Done,
        Asking::Out { .. } => asking,
    }
}

fn take_back_in(items: &mut Vec<Found>, call: u64, held: bool)
    ensures { items.new.items ≡ map (asked_back call held) items.old.items }
{
    for found in items.iter_mut() {
        take_one_back(found, call, held);
    }
}

fn take_one_back(found: &mut Found, call: u64, held: bool)
    ensures { found.new ≡ asked_back call held found.old }
{
    if is_asked_as(found, call) {
        found.gone = found.gone || !held;
        found.revoke = Asking::Done;
    }
}

/// Whether its revoke call is out under this number.
pub fn is_asked_as(found: &Found, call: u64) -> bool
    ensures { result ≡ is_asked_as call found.now }
{
    match found.revoke {
        Asking::Out { call: number } => number == call,
        Asking::Due { .. } | Asking::Done => false,
    }
}

fn send_in(items: &mut Vec<Found>, call: u64, key: &Bytes)
    ensures { items.new.items ≡ map (found_sent call key.now) items.old.items }
{
    for found in items.iter_mut() {
        send_one(found, call, key);
    }
}

fn send_one(found: &mut Found, call: u64, key: &Bytes)
    ensures { found.new ≡ found_sent call key.now found.old }
{
    if *key == found.key && is_asking_due(found.revoke) {
        found.revoke = Asking::Out { call };
    }
}

fn is_asking_due(asking: Asking) -> bool
    ensures { result ≡ is_asking_due asking }
{
    matches!(asking, Asking::Due { .. })
}
