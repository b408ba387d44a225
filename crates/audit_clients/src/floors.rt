ghost use Rattle.std.specs.Prelude.{◌≡◌, ◌++◌, ◌∷◌, [], List as Values, OnOk};
ghost use Rattle.std.specs.Option.{option_copied};
ghost use Rattle.audit_clients.specs.Given.{Gave};
ghost use Rattle.audit_clients.specs.LeaseCalls.{KeepsLeases, Notes, call_of, floors_by_lease, lease_kind, lease_sent, request_of};
ghost use Rattle.audit_lives.specs.Index.{TellsAll};
ghost use Rattle.audit_model.specs.Floors.{floors_by as raised_by, too_early as is_too_early, too_early_at as is_too_early_at, too_early_by as is_too_early_by};
ghost use Rattle.script_text.specs.declared.item.Item.{Item as Told};
ghost use Rattle.script_text.specs.declared.item.Item.TheVariants as item;
ghost use Rattle.world_model.specs.Lives.{clock_of as last_clock};

use crate::given::Given;
use audit_lives::Index;
use audit_model::AuditFault;
use etcd_types::{Answer, NoMemory, Request};
use replay_parts::{Numbers, raise_floors};
use script_text::Item;
use world_model::{Floor, SentCall};

/// What floors read of a call that asks for a session, or keeps one alive.
#[derive(Clone, Copy, Debug)]
pub(crate) struct LeaseCall {
    /// The proxy that sent it.
    pub(crate) proxy: u64,
    /// The proxy's clock when it was sent, in milliseconds.
    pub(crate) clock: u64,
    /// Whether it asks for a lease.
    pub(crate) grants: bool,
}

/// Of a call that is sent at this reading of its proxy's clock.
fn lease_call(proxy: u64, clock: u64, request: &Request) -> Option<LeaseCall>
    ensures { result ≡ lease_sent proxy clock (lease_kind request.now) }
{
    match request {
        Request::Grant { .. } => Some(LeaseCall {
            proxy,
            clock,
            grants: true,
        }),
        Request::KeepAlive { .. } => Some(LeaseCall {
            proxy,
            clock,
            grants: false,
        }),
        _ => None,
    }
}

/// Keeps what is read of the call, where it is something.
fn note(
    leases: &mut Numbers<LeaseCall>,
    call: u64,
    lease: Option<LeaseCall>,
) -> Result<(), NoMemory>
    ensures { OnOk result (Notes call lease leases.old leases.new) }
{
    match lease {
        Some(lease) => Ok(leases.put(call, lease)?),
        None => Ok(()),
    }
}

/// With the next item, which may send a call.
pub(crate) fn note_call(
    leases: &mut Numbers<LeaseCall>,
    index: &Index,
    item: &Item,
) -> Result<(), NoMemory>
    ensures { OnOk result ((items : Values Told) → TellsAll index.now items → KeepsLeases leases.old items → KeepsLeases leases.new (items ++ item.now ∷ [])) }
{
    match item {
        Item::Sent {
            proxy,
            call,
            request,
            ..
        } => match index.sender_of(*call) {
            Some(_) => Ok(()),
            None => {
                let lease = lease_call(*proxy, index.clock_of(*proxy), request);
                Ok(note(leases, *call, lease)?)
            }
        },
        _ => Ok(()),
    }
}

/// A call of which floors read the same.
fn call_of(lease: &LeaseCall) -> SentCall
    ensures { result ≡ call_of lease.now }
{
    SentCall {
        proxy: lease.proxy,
        life: 0,
        own: 0,
        member: 0,
        request: request_of(lease.grants),
        clock: lease.clock,
        executed: None,
        settled: false,
    }
}

fn request_of(grants: bool) -> Request
    ensures { result ≡ request_of grants }
{
    if grants {
        Request::Grant { ttl: 0, lease: 0 }
    } else {
        Request::KeepAlive { lease: 0 }
    }
}

/// What an answer to the call makes of the floors, where they read something of it.
fn raise(
    floors: &mut Numbers<Floor>,
    call: Option<&LeaseCall>,
    answer: &Answer,
) -> Result<(), NoMemory>
    ensures { OnOk result (floors.new ≡ floors_by_lease (option_copied call.entry) answer.now floors.old) }
{
    match call {
        Some(call) => Ok(raise_floors(floors, &call_of(call), answer)?),
        None => Ok(()),
    }
}

/// What the item makes of the floors, behind those before it.
pub(crate) fn raise_by(
    floors: &mut Numbers<Floor>,
    leases: &Numbers<LeaseCall>,
    item: &Item,
) -> Result<(), NoMemory>
    ensures { OnOk result ((before : Values Told) → KeepsLeases leases.now before → floors.new ≡ raised_by before item.now floors.old) }
{
    match item {
        Item::Executed { call, answer } => Ok(raise(floors, leases.find(*call), answer)?),
        _ => Ok(()),
    }
}

fn too_early_at(clock: u64, floor: u64) -> Option<AuditFault>
    ensures { result ≡ is_too_early_at clock floor }
{
    if clock < floor {
        Some(AuditFault::Early { clock, floor })
    } else {
        None
    }
}

fn too_early_by(given: &Given, floor: Option<&Floor>) -> Option<AuditFault>
    ensures { (items : Values Told) → Gave given.now items → result ≡ is_too_early_by items (option_copied floor.entry) }
{
    match floor {
        Some(floor) => too_early_at(clock_now(given, floor.proxy), floor.floor),
        None => None,
    }
}

/// The reading that the proxy's clock was set to last, in milliseconds, or 0.
fn clock_now(given: &Given, proxy: u64) -> u64
    ensures { (items : Values Told) → Gave given.now items → result ≡ last_clock proxy items }
{
    given.index().clock_of(proxy)
}

/// The fault of a session that expires before its owner's clock reads its floor, where it does.
pub fn too_early(given: &Given, lease: u64) -> Option<AuditFault>
    ensures { (items : Values Told) → Gave given.now items → result ≡ is_too_early items (item.Expired lease) }
{
    too_early_by(given, given.floors.find(lease))
}
