ghost use Rattle.std.specs.Prelude.{◌≡◌, ◌<◌, ◌≤◌, ◌^◌, [], IfOk, OnOk, OnErr};
ghost use Rattle.etcd_types.specs.declared.operation.Op.TheVariants as op;
ghost use Rattle.store_model.specs.History.{History, newest, with_revision};
ghost use Rattle.store_model.specs.State.{header, applied_by, HasMember};
ghost use Rattle.store_model.specs.Step.{exec, IsExecuted, done, exec_compact, settled, told_at, exec_op, exec_range, read_applied};
ghost use Rattle.etcd_types.specs.declared.answer.Body.TheVariants as body;
ghost use Rattle.store_model.specs.Leases.{granted};
ghost use Rattle.store_model.specs.Transactions.{run_txn};
ghost use Rattle.store_index.specs.Index.{HoldsKept};
ghost use Rattle.store_world.specs.Store.{Stands, Takes, state_of};
ghost use Rattle.store_world.specs.Running.{ran_of};

use crate::store::Store;
use etcd_types::{
    Answer, Body, DeleteAsk, Header, NoMemory, PutAsk, RangeAsk, Refusal, Reply, Request, TxnAsk,
};
use store_index::Changes;
use store_reads::read;
use store_refusals as refusals;
use store_refusals::first_refusal_of_txn;

impl Store {
    /// Does the request, as the definitions say of the state that this store holds.
    #[tactic(auto, unfolding(store_model::specs::Step::exec))]
    pub(crate) fn exec(&mut self, member: u32, request: &Request) -> Result<Answer, NoMemory>
        requires room { self.old.index.newest < 2 ^ 63 }
        requires executed { IsExecuted request.now }
        requires member { HasMember (state_of self.old []) member }
        ensures step { IfOk result (λ answer. (h : History) → HoldsKept self.old.index h → Takes self.new answer (exec (state_of self.old h) member request.now)) }
        ensures err { OnErr result (self.new ≡ self.old) }
    {
        match request {
            Request::Range(ask) => Ok(self.exec_range(member, ask)?),
            Request::Put(ask) => Ok(self.exec_put(member, ask)?),
            Request::Delete(ask) => Ok(self.exec_delete(member, ask)?),
            Request::Txn(txn) => Ok(self.exec_txn(member, txn)?),
            Request::Compact { revision, .. } => Ok(self.exec_compact(member, *revision)?),
            Request::Grant { ttl, lease } => Ok(self.exec_grant(member, *ttl, *lease)?),
            Request::Revoke { lease } => Ok(self.exec_revoke(member, *lease)?),
            Request::KeepAlive { lease } => Ok(self.keep_alive(member, *lease)),
            Request::TimeToLive { lease, keys } => {
                let body = self.time_to_live(*lease, *keys)?;
                Ok(self.done(member, body))
            }
            Request::Leases => {
                let leases = self.leases.numbers(self.alloc)?;
                Ok(self.done(member, Body::Leases { leases }))
            }
            Request::Watch(_) => unreachable!(),
        }
    }

    fn keep_alive(&self, member: u32, lease: u64) -> Answer
        ensures { (h : History) → HoldsKept self.now.index h → Takes self.now result (done (state_of self.now h) member (body.KeepAlive lease (granted self.now.leases lease))) }
    {
        let ttl = self.leases.granted(lease);
        self.done(member, Body::KeepAlive { lease, ttl })
    }

    pub(crate) fn exec_compact(&mut self, member: u32, revision: u64) -> Result<Answer, NoMemory>
        ensures step { IfOk result (λ answer. (h : History) → HoldsKept self.old.index h → Takes self.new answer (exec_compact (state_of self.old h) member revision)) }
        ensures err { OnErr result (self.new ≡ self.old) }
    {
        if revision <= self.index.get().compacted {
            return Ok(Answer::Refused(refusals::compacted_revision(self.alloc)?));
        }
        if self.index.get().newest < revision {
            return Ok(Answer::Refused(refusals::future_revision(self.alloc)?));
        }
        self.index.compact(revision);
        Ok(self.done(member, Body::Compact))
    }

    fn exec_txn(&mut self, member: u32, txn: &TxnAsk) -> Result<Answer, NoMemory>
        requires room { self.old.index.newest < 2 ^ 63 }
        ensures step { IfOk result (λ answer. (h : History) → HoldsKept self.old.index h → Takes self.new answer (exec_op (state_of self.old h) member (op.Txn txn.now))) }
        ensures err { OnErr result (self.new ≡ self.old) }
    {
        match first_refusal_of_txn(self.alloc, txn)? {
            Some(refusal) => Ok(Answer::Refused(refusal)),
            None => Ok(self.exec_lists(member, txn)?),
        }
    }

    fn exec_lists(&mut self, member: u32, txn: &TxnAsk) -> Result<Answer, NoMemory>
        requires room { self.old.index.newest < 2 ^ 63 }
        ensures step { IfOk result (λ answer. (h : History) → HoldsKept self.old.index h
            → Takes self.new answer
            (settled (state_of self.old h) member (run_txn (state_of self.old h) txn.now []))) }
        ensures err { OnErr result (self.new ≡ self.old) }
    {
        let mut made = Changes::new(self.alloc);
        let told = self.run_txn(txn, &mut made)?;
        Ok(self.settle(member, made, told)?)
    }

    /// The answer, with the newest revision in its header.
    pub(crate) fn done(&self, member: u32, body: Body) -> Answer
        ensures { (h : History) → HoldsKept self.now.index h → Takes self.now result (done (state_of self.now h) member body) }
    {
        Answer::Done(Reply {
            header: header(member, self.index.get().newest),
            body,
        })
    }

    pub(crate) fn exec_range(&mut self, member: u32, ask: &RangeAsk) -> Result<Answer, NoMemory>
        requires room { self.old.index.newest < 2 ^ 63 }
        requires member { HasMember (state_of self.old []) member }
        ensures step { IfOk result (λ answer. (h : History) → HoldsKept self.old.index h → Takes self.new answer (exec_range (state_of self.old h) member ask.now)) }
        ensures err { OnErr result (self.new ≡ self.old) }
    {
        if ask.range.key.is_empty() {
            return Ok(Answer::Refused(refusals::key_not_provided(self.alloc)?));
        }
        if ask.serializable {
            return Ok(self.read_applied(member, ask)?);
        }
        let made = Changes::new(self.alloc);
        let told = self.run_range(ask, &made)?;
        Ok(self.settle(member, made, told)?)
    }

    pub(crate) fn exec_put(&mut self, member: u32, ask: &PutAsk) -> Result<Answer, NoMemory>
        requires room { self.old.index.newest < 2 ^ 63 }
        ensures step { IfOk result (λ answer. (h : History) → HoldsKept self.old.index h → Takes self.new answer (exec_op (state_of self.old h) member (op.Put ask.now))) }
        ensures err { OnErr result (self.new ≡ self.old) }
    {
        if ask.key.is_empty() {
            return Ok(Answer::Refused(refusals::key_not_provided(self.alloc)?));
        }
        let mut made = Changes::new(self.alloc);
        let told = self.run_put(ask, &mut made)?;
        Ok(self.settle(member, made, told)?)
    }

    pub(crate) fn exec_delete(&mut self, member: u32, ask: &DeleteAsk) -> Result<Answer, NoMemory>
        requires room { self.old.index.newest < 2 ^ 63 }
        ensures step { IfOk result (λ answer. (h : History) → HoldsKept self.old.index h → Takes self.new answer (exec_op (state_of self.old h) member (op.Delete ask.now))) }
        ensures err { OnErr result (self.new ≡ self.old) }
    {
        if ask.range.key.is_empty() {
            return Ok(Answer::Refused(refusals::key_not_provided(self.alloc)?));
        }
        let mut made = Changes::new(self.alloc);
        let told = self.run_delete(ask, &mut made)?;
        Ok(self.settle(member, made, told)?)
    }

    /// Makes one revision of what a request changed, and answers.
    fn settle(
        &mut self,
        member: u32,
        made: Changes,
        told: Result<Body, Refusal>,
    ) -> Result<Answer, NoMemory>
        requires room { self.old.index.newest < 2 ^ 63 }
        ensures step { IfOk result (λ answer. (h : History) → HoldsKept self.old.index h → Takes self.new answer (settled (state_of self.old h) member (ran_of made told))) }
        ensures err { OnErr result (self.new ≡ self.old) }
    {
        match told {
            Ok(body) => Ok(self.commit(member, made, body)?),
            Err(reason) => Ok(Answer::Refused(reason)),
        }
    }

    fn commit(&mut self, member: u32, made: Changes, body: Body) -> Result<Answer, NoMemory>
        requires room { self.old.index.newest < 2 ^ 63 }
        ensures step { IfOk result (λ answer. (h : History) → HoldsKept self.old.index h
            → Takes self.new answer
            (done (record (state_of self.old h) { history = with_revision h made }) member body)) }
        ensures err { OnErr result (self.new ≡ self.old) }
    {
        self.add_revision(made)?;
        Ok(self.done(member, body))
    }

    pub(crate) fn add_revision(&mut self, made: Changes) -> Result<(), NoMemory>
        requires { self.old.index.newest < 2 ^ 63 }
        ensures ok { OnOk result ((h : History) → HoldsKept self.old.index h → Stands self.new (record (state_of self.old h) { history = with_revision h made })) }
        ensures leases { self.new.leases ≡ self.old.leases }
        ensures err { OnErr result (self.new ≡ self.old) }
    {
        self.index.add(made)?;
        Ok(())
    }

    fn read_applied(&self, member: u32, ask: &RangeAsk) -> Result<Answer, NoMemory>
        requires { HasMember (state_of self.now []) member }
        ensures { IfOk result (λ answer. (h : History) → HoldsKept self.now.index h
            → Takes self.now answer
            (read_applied (state_of self.now h) member (applied_by (state_of self.now h) member) ask.now)) }
    {
        let applied = self.applied_by(member);
        let index = self.index.get();
        if applied < index.compacted {
            return Ok(Answer::Refused(refusals::compacted_revision(self.alloc)?));
        }
        match read(self.alloc, index, &[], applied, ask)? {
            Ok(body) => Ok(Answer::Done(Reply {
                header: header(member, applied),
                body,
            })),
            Err(refusal) => Ok(Answer::Refused(refusal)),
        }
    }

    fn applied_by(&self, member: u32) -> u64
        requires { HasMember (state_of self.now []) member }
        ensures { result ≡ applied_by (state_of self.now []) member }
    {
        self.applied.as_slice()[(member - 1) as usize]
    }
}

pub(crate) fn header(member: u32, revision: u64) -> Header
    ensures { result ≡ header member revision }
{
    Header {
        cluster: 1,
        member: u64::from(member),
        revision,
        term: 1,
    }
}
