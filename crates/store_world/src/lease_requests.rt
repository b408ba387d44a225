ghost use Rattle.std.specs.Prelude.{◌≡◌, ◌<◌, ◌^◌, [], if◌then◌else◌, map, IfOk, OnOk, OnErr};
ghost use Rattle.store_model.specs.Leases.{attached, record_key, ended, time_to_live};
ghost use Rattle.store_model.specs.Step.{done, exec_grant, exec_revoke};
ghost use Rattle.store_model.specs.Transactions.{has_lease};
ghost use Rattle.store_model.specs.History.{History};
ghost use Rattle.store_index.specs.Index.{HoldsKept};
ghost use Rattle.store_world.specs.Store.{Stands, Takes, state_of};

use crate::leases::LONGEST_TTL_SECONDS;
use crate::run::add_deletions;
use crate::store::Store;
use etcd_types::{Answer, Body, Bytes, Kv, List, NoMemory};
use std::alloc::Global;
use store_index::Changes;
use store_model::Lease;
use store_refusals as refusals;

impl Store {
    pub(crate) fn exec_grant(
        &mut self,
        member: u32,
        ttl: u64,
        number: u64,
    ) -> Result<Answer, NoMemory>
        ensures step { IfOk result (λ answer. (h : History) → HoldsKept self.old.index h → Takes self.new answer (exec_grant (state_of self.old h) member ttl number)) }
        ensures err { OnErr result (self.new ≡ self.old) }
    {
        if self.leases.has(number) {
            return Ok(Answer::Refused(refusals::lease_exists(self.alloc)?));
        }
        let number = if number == 0 {
            self.leases.least_free()
        } else {
            number
        };
        let ttl = ttl.max(1).min(LONGEST_TTL_SECONDS);
        self.leases.add(Lease { number, ttl })?;
        Ok(self.done(member, Body::Grant { lease: number, ttl }))
    }

    pub(crate) fn exec_revoke(&mut self, member: u32, number: u64) -> Result<Answer, NoMemory>
        requires { self.old.index.newest < 2 ^ 63 }
        ensures step { IfOk result (λ answer. (h : History) → HoldsKept self.old.index h → Takes self.new answer (exec_revoke (state_of self.old h) member number)) }
        ensures err { OnErr result (self.new ≡ self.old) }
    {
        if !self.leases.has(number) {
            return Ok(Answer::Refused(refusals::lease_not_found(self.alloc)?));
        }
        self.end_lease(number)?;
        Ok(self.done(member, Body::Revoke))
    }

    pub(crate) fn time_to_live(&self, number: u64, keys: bool) -> Result<Body, NoMemory>
        ensures { IfOk result (λ body. (h : History) → HoldsKept self.now.index h → body ≡ time_to_live (state_of self.now h) number (has_lease self.now.leases number) keys) }
    {
        if !self.leases.has(number) {
            return Ok(Body::TimeToLive {
                lease: number,
                ttl: -1,
                granted: 0,
                keys: List::new(self.alloc),
            });
        }
        let granted = self.leases.granted(number);
        let keys = self.asked_keys(number, keys)?;
        Ok(Body::TimeToLive {
            lease: number,
            ttl: granted as i64,
            granted,
            keys,
        })
    }

    fn asked_keys(&self, number: u64, asked: bool) -> Result<List<Bytes>, NoMemory>
        requires { 0 < number }
        ensures { IfOk result (λ keys. (h : History) → HoldsKept self.now.index h → keys ≡ (if asked then map record_key (attached h number) else [])) }
    {
        if !asked {
            return Ok(List::new(self.alloc));
        }
        let records = self.index.get().attached(number)?;
        Ok(keys_of(self.alloc, records.as_slice())?)
    }

    /// Ends the lease: its keys are deleted in one revision, in their order.
    pub(crate) fn end_lease(&mut self, number: u64) -> Result<(), NoMemory>
        requires room { self.old.index.newest < 2 ^ 63 }
        requires number { 0 < number }
        ensures ok { OnOk result ((h : History) → HoldsKept self.old.index h → Stands self.new (ended (state_of self.old h) number)) }
        ensures err { OnErr result (self.new ≡ self.old) }
    {
        let records = self.index.get().attached(number)?;
        let mut made = Changes::new(self.alloc);
        add_deletions(self.alloc, &mut made, records.as_slice())?;
        self.add_revision(made)?;
        self.leases.remove(number);
        Ok(())
    }
}

fn keys_of(alloc: Global, records: &[Kv]) -> Result<List<Bytes>, NoMemory>
    ensures { IfOk result (λ keys. keys ≡ map record_key records.now) }
{
    let mut keys = List::new(alloc);
    for record in records {
        keys.push(record.key.copy(alloc)?)?;
    }
    Ok(keys)
}
