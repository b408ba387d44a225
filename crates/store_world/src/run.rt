ghost use Rattle.std.specs.Prelude.{◌≡◌, [], ◌∷◌, ◌++◌, None, map, IfOk, OnOk};
ghost use Rattle.etcd_types.specs.declared.answer.Body.TheVariants as body;
ghost use Rattle.store_model.specs.declared.history.KeyChange.TheVariants as change;
ghost use Rattle.store_model.specs.History.{History};
ghost use Rattle.store_model.specs.Transactions.{put_on, run_put, deletion, delete_all, run_delete, run_range, run, run_all, run_txn};
ghost use Rattle.store_index.specs.Index.{HoldsKept};
ghost use Rattle.store_world.specs.Store.{state_of};
ghost use Rattle.store_world.specs.Running.{Runs, RunsAll};

use crate::store::Store;
use etcd_types::{Body, DeleteAsk, Kv, List, NoMemory, Op, PutAsk, RangeAsk, Refusal, TxnAsk};
use std::alloc::Global;
use store_index::Changes;
use store_model::KeyChange;
use store_reads::{all_hold, latest, read, record_now};
use store_refusals as refusals;

/// Operations run in order, and `made` is what the request changed so far. Each gives its answer, or the refusal of the
/// whole request.
impl Store {
    #[cycle(run)]
    #[tactic(auto, using(store_model::proofs::TransactionLemmas::of_runs))]
    pub(crate) fn run(
        &self,
        operation: &Op,
        made: &mut Changes,
    ) -> Result<Result<Body, Refusal>, NoMemory>
        ensures { IfOk result (λ told. (h : History) → HoldsKept self.now.index h → Runs told made.new (run (state_of self.now h) operation.now made.old)) }
    {
        match operation {
            Op::Range(ask) => Ok(self.run_range(ask, made)?),
            Op::Put(ask) => Ok(self.run_put(ask, made)?),
            Op::Delete(ask) => Ok(self.run_delete(ask, made)?),
            Op::Txn(txn) => Ok(self.run_txn(txn, made)?),
        }
    }

    #[cycle(run)]
    pub(crate) fn run_txn(
        &self,
        txn: &TxnAsk,
        made: &mut Changes,
    ) -> Result<Result<Body, Refusal>, NoMemory>
        ensures { IfOk result (λ told. (h : History) → HoldsKept self.now.index h → Runs told made.new (run_txn (state_of self.now h) txn.now made.old)) }
    {
        let succeeded = all_hold(self.index.get(), made.as_slice(), txn.compare.as_slice())?;
        let branch = if succeeded {
            &txn.success
        } else {
            &txn.failure
        };
        match self.run_all(branch, made)? {
            Ok(bodies) => Ok(Ok(Body::Txn { succeeded, bodies })),
            Err(refusal) => Ok(Err(refusal)),
        }
    }

    #[cycle(run)]
    fn run_all(
        &self,
        operations: &List<Op>,
        made: &mut Changes,
    ) -> Result<Result<List<Body>, Refusal>, NoMemory>
        ensures { IfOk result (λ told. (h : History) → HoldsKept self.now.index h → RunsAll told made.new (run_all (state_of self.now h) operations.now made.old)) }
    {
        let mut bodies = List::new(self.alloc);
        for operation in operations.as_slice() {
            match self.run(operation, made)? {
                Ok(body) => bodies.push(body)?,
                Err(refusal) => return Ok(Err(refusal)),
            }
        }
        Ok(Ok(bodies))
    }

    pub(crate) fn run_range(
        &self,
        ask: &RangeAsk,
        made: &Changes,
    ) -> Result<Result<Body, Refusal>, NoMemory>
        ensures { IfOk result (λ told. (h : History) → HoldsKept self.now.index h → Runs told made.now (run_range (state_of self.now h) ask.now made.now)) }
    {
        let changes = made.as_slice();
        let index = self.index.get();
        let latest = latest(index, changes);
        let told = read(self.alloc, index, changes, latest, ask)?;
        Ok(told)
    }

    pub(crate) fn run_put(
        &self,
        ask: &PutAsk,
        made: &mut Changes,
    ) -> Result<Result<Body, Refusal>, NoMemory>
        ensures { IfOk result (λ told. (h : History) → HoldsKept self.now.index h → Runs told made.new (run_put (state_of self.now h) ask.now made.old)) }
    {
        if ask.lease != 0 && !self.leases.has(ask.lease) {
            return Ok(Err(refusals::lease_not_found(self.alloc)?));
        }
        if !ask.ignore_lease && !ask.prev_kv {
            return Ok(Ok(put_plainly(self.alloc, ask, made)?));
        }
        let old = record_now(self.alloc, self.index.get(), made.as_slice(), &ask.key)?;
        Ok(put_on(self.alloc, ask, made, old)?)
    }

    pub(crate) fn run_delete(
        &self,
        ask: &DeleteAsk,
        made: &mut Changes,
    ) -> Result<Result<Body, Refusal>, NoMemory>
        ensures { IfOk result (λ told. (h : History) → HoldsKept self.now.index h → Runs told made.new (run_delete (state_of self.now h) ask.now made.old)) }
    {
        let gone = self.index.get().records_with(&ask.range, made.as_slice())?;
        Ok(delete_all(self.alloc, ask, made, gone)?)
    }
}

/// The put that needs nothing of the key's record before it, so that this isn't looked up.
fn put_plainly(alloc: Global, ask: &PutAsk, made: &mut Changes) -> Result<Body, NoMemory>
    ensures made { OnOk result (made.new ≡ made.old ++ change.Put ask.now.key ask.now.value ask.now.lease ∷ []) }
    ensures body { IfOk result (λ told. told ≡ body.Put None) }
{
    made.push(put_change(alloc, ask, ask.lease)?)?;
    Ok(Body::Put { prev: None })
}

/// The put, where `old` is the key's record before it.
fn put_on(
    alloc: Global,
    ask: &PutAsk,
    made: &mut Changes,
    old: Option<Kv>,
) -> Result<Result<Body, Refusal>, NoMemory>
    ensures { IfOk result (λ told. Runs told made.new (put_on ask.now made.old old)) }
{
    match old {
        None => {
            if ask.ignore_lease {
                return Ok(Err(refusals::key_not_found(alloc)?));
            }
            made.push(put_change(alloc, ask, ask.lease)?)?;
            Ok(Ok(Body::Put { prev: None }))
        }
        Some(kv) => {
            let lease = if ask.ignore_lease {
                kv.lease
            } else {
                ask.lease
            };
            made.push(put_change(alloc, ask, lease)?)?;
            let prev = if ask.prev_kv { Some(kv) } else { None };
            Ok(Ok(Body::Put { prev }))
        }
    }
}

fn put_change(alloc: Global, ask: &PutAsk, lease: u64) -> Result<KeyChange, NoMemory>
    ensures { IfOk result (λ made. made ≡ change.Put ask.now.key ask.now.value lease) }
{
    Ok(KeyChange::Put {
        key: ask.key.copy(alloc)?,
        value: ask.value.copy(alloc)?,
        lease,
    })
}

fn delete_all(
    alloc: Global,
    ask: &DeleteAsk,
    made: &mut Changes,
    gone: List<Kv>,
) -> Result<Result<Body, Refusal>, NoMemory>
    ensures { IfOk result (λ told. Runs told made.new (delete_all ask.now made.old gone)) }
{
    add_deletions(alloc, made, gone.as_slice())?;
    let deleted = gone.len() as u64;
    let prevs = if ask.prev_kv { gone } else { List::new(alloc) };
    Ok(Ok(Body::Delete { deleted, prevs }))
}

pub(crate) fn add_deletions(alloc: Global, made: &mut Changes, gone: &[Kv]) -> Result<(), NoMemory>
    ensures { OnOk result (made.new ≡ made.old ++ map deletion gone.now) }
{
    for record in gone {
        made.push(KeyChange::Delete {
            key: record.key.copy(alloc)?,
        })?;
    }
    Ok(())
}
