ghost use Rattle.std.specs.Prelude.{◌≡◌, ◌<◌, ◌^◌, IfOk, IfErr, OnErr};
ghost use Rattle.store_model.specs.Members.{applied};
ghost use Rattle.store_model.specs.Leases.{expired};
ghost use Rattle.store_model.specs.History.{History};
ghost use Rattle.store_index.specs.Index.{HoldsKept};
ghost use Rattle.store_world.specs.Store.{state_of};
ghost use Rattle.store_world.specs.Faults.{StepsTo, IsFault};

use crate::store::Store;
use store_model::StoreFault;

impl Store {
    #[tactic(auto, unfolding(store_model::specs::Members::applied))]
    pub(crate) fn apply_at(&mut self, member: u32, revision: u64) -> Result<(), StoreFault>
        ensures step { IfOk result (λ _. (h : History) → HoldsKept self.old.index h → StepsTo self.new (applied (state_of self.old h) member revision)) }
        ensures fault { IfErr result (λ fault. (h : History) → HoldsKept self.old.index h → IsFault fault (applied (state_of self.old h) member revision)) }
        ensures err { OnErr result (self.new ≡ self.old) }
    {
        let members = self.applied.as_slice();
        if member == 0 || members.len() < member as usize {
            return Err(StoreFault::NoSuchMember(member));
        }
        let place = (member - 1) as usize;
        let applied = members[place];
        let newest = self.index.get().newest;
        if revision < applied || newest < revision {
            return Err(StoreFault::BadApply { applied, newest });
        }
        self.applied.set(place, revision);
        Ok(())
    }

    #[tactic(auto, unfolding(store_model::specs::Leases::expired))]
    pub(crate) fn expire_lease(&mut self, lease: u64) -> Result<(), StoreFault>
        requires { self.old.index.newest < 2 ^ 63 }
        ensures step { IfOk result (λ _. (h : History) → HoldsKept self.old.index h → StepsTo self.new (expired (state_of self.old h) lease)) }
        ensures fault { IfErr result (λ fault. (h : History) → HoldsKept self.old.index h → IsFault fault (expired (state_of self.old h) lease)) }
        ensures err { OnErr result (self.new ≡ self.old) }
    {
        if !self.leases.has(lease) {
            return Err(StoreFault::NoSuchLease(lease));
        }
        self.end_lease(lease)?;
        Ok(())
    }
}
