ghost use Rattle.std.specs.Prelude.{◌≡◌};
ghost use Rattle.replay_world.specs.Refusals.{not_due_at};
ghost use Rattle.replay_world.specs.World.{Gives, Stands};
ghost use Rattle.world_model.specs.State.{World as Model};
ghost use Rattle.world_model.specs.StoreLines.{lease_expired, member_applied};

use crate::world::World;
use core_face::ProxyCore;
use etcd_types::List;
use replay_parts::{expire, has_lease, one, stream_fault};
use script_text::Item;
use world_model::WorldFault;

/// A store has fewer members than this.
const LAST_MEMBER: u64 = 0xffff_ffff;

impl<C: ProxyCore> World<C> {
    /// A lease expires at the store. A session doesn't expire below its floor.
    pub(crate) fn expire(&mut self, lease: u64) -> Result<List<Item>, WorldFault>
        ensures step { (w : Model) → Stands self.old w → Gives self.new result (lease_expired w lease) }
        ensures lines { self.new.lines ≡ self.old.lines }
    {
        if let Some(fault) = self.not_due(lease) {
            if has_lease(&mut self.store, lease)? {
                return Err(fault);
            }
            return Err(WorldFault::NoSuchLease(lease));
        }
        match expire(&mut self.store, lease) {
            Ok(()) => Ok(one(self.alloc, Item::Expired { lease })?),
            Err(fault) => Err(stream_fault(0, fault)),
        }
    }

    /// Why a session can't expire yet.
    fn not_due(&self, lease: u64) -> Option<WorldFault>
        ensures { result ≡ not_due_at self.now.places self.now.floors lease }
    {
        let floor = self.floors.find(lease)?;
        let clock = self.places.find(floor.proxy)?.clock();
        let floor = floor.floor;
        if clock < floor {
            Some(WorldFault::NotDue { clock, floor })
        } else {
            None
        }
    }

    /// A member applies the revisions up to this one.
    pub(crate) fn apply(&mut self, member: u64, revision: u64) -> Result<List<Item>, WorldFault>
        ensures step { (w : Model) → Stands self.old w → Gives self.new result (member_applied w member revision) }
        ensures lines { self.new.lines ≡ self.old.lines }
    {
        if member == 0 || self.store.members() < member {
            return Err(WorldFault::NoSuchMember(member));
        }
        if member >= LAST_MEMBER {
            return Err(WorldFault::NoMemory);
        }
        match self.store.apply(member as u32, revision) {
            Ok(()) => Ok(one(self.alloc, Item::Applied { member, revision })?),
            Err(fault) => Err(stream_fault(0, fault)),
        }
    }
}
