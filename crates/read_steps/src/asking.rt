ghost use Rattle.std.specs.Prelude.{◌≡◌, ◌++◌, ◌∷◌, [], None, Some, true, false, is_some, OnOk, OnErr, IfOk, IfErr};
ghost use Rattle.etcd_types.specs.Ranges.{contains};
ghost use Rattle.proxy_model.specs.Keyed.{at};
ghost use Rattle.proxy_model.specs.Prefixes.{leasing_range};
ghost use Rattle.wait_model.specs.Asked.{submitted};
ghost use Rattle.wait_model.specs.Fits.{is_write};
ghost use Rattle.wait_model.specs.State.{owned};
ghost use Rattle.read_model.specs.PlainRead.{ask_key, acquirable, read_turn, decision, decided_ask, in_stage};
ghost use Rattle.read_model.specs.State.{ground_of};
ghost use Rattle.read_model.specs.declared.asked.Stage.TheVariants as stage;
ghost use Rattle.core_model.specs.Asking.{is_leased_read};
ghost use Rattle.core_model.specs.Lookups.{ask_at};
ghost use Rattle.read_steps.specs.Parts.{ground, begun_waits, begun_acquires};
ghost use Rattle.read_steps.specs.Steps.{at_once, after_read, kept_in, write_asked};

use crate::moment::Moment;
use crate::reads::Reads;
use acquire_rows::Acquires;
use etcd_types::{Bytes, NoMemory};
use known_asks::{Asked, Asks, Stage, Verdict};
use lease_table::LeaseTable;
use read_core::{Decision, Unowned, decide, key_of, under};
use revoke_core::Waits;
use std::alloc::Global;

impl Reads {
    /// A plain read, of a key outside the leasing range, with a new ticket. One of a held key is answered at once, and nothing is kept of
    /// it; any other waits, for an acquire of its key, for an owner write of it, or for a call of its own. Where memory was wanting all is
    /// as before.
    pub fn ask_read(&mut self, m: &Moment, ask: Asked) -> Result<Option<Verdict>, NoMemory>
        requires unknown { ask_at ask.ticket self.old.asks ≡ None }
        requires leased { is_leased_read self.old.own.waits.prefix ask.request ≡ true }
        ensures reply { IfOk result (λ reply. reply ≡ at_once (decided_ask m.entry.now (ground_of self.old) ask).stage) }
        ensures reads { IfOk result (λ reply. self.new ≡ after_read reply m.entry.now ask self.old) }
        ensures err { OnErr result (self.new ≡ self.old) }
    {
        let Decision { stage, under } = decide_read(
            self.alloc,
            m,
            &ask,
            &self.table,
            &self.waits,
            &self.acquires,
        )?;
        match verdict_of(stage) {
            Ok(verdict) => Ok(Some(verdict)),
            Err(stage) => {
                keep_read(
                    self.alloc,
                    ask,
                    stage,
                    under,
                    &mut self.waits,
                    &mut self.acquires,
                    &mut self.asks,
                )?;
                Ok(None)
            }
        }
    }

    /// A write, with a new ticket, which waits behind all others. Where memory was wanting all is as before.
    pub fn ask_write(&mut self, ask: Asked) -> Result<(), NoMemory>
        requires unknown { ask_at ask.ticket self.old.asks ≡ None }
        requires write { is_write ask.request ≡ true }
        ensures ok { OnOk result (self.new ≡ write_asked ask self.old) }
        ensures err { OnErr result (self.new ≡ self.old) }
    {
        keep_write(self.alloc, ask, &mut self.waits, &mut self.asks)
    }

    /// Any other request, with a new ticket, which waits in this stage. Where memory was wanting all is as before.
    pub fn ask_call(&mut self, ask: Asked, stage: Stage) -> Result<(), NoMemory>
        requires unknown { ask_at ask.ticket self.old.asks ≡ None }
        ensures ok { OnOk result (self.new ≡ kept_in stage ask self.old) }
        ensures err { OnErr result (self.new ≡ self.old) }
    {
        keep_ask(ask, stage, &mut self.asks)
    }
}

/// What the plain read comes to.
#[tactic(auto, using(crate::proofs::TakenBack::not_leasing))]
fn decide_read(
    alloc: Global,
    m: &Moment,
    ask: &Asked,
    table: &LeaseTable,
    waits: &Waits,
    acquires: &Acquires,
) -> Result<Decision, NoMemory>
    requires { is_leased_read waits.now.prefix ask.now.request ≡ true }
    ensures stage { IfOk result (λ d. d.stage ≡ (decision m.entry.now (ground table.now.entries waits.now acquires.now) (ask_key ask.now)).stage) }
    ensures under { IfOk result (λ d. d.under ≡ (decision m.entry.now (ground table.now.entries waits.now acquires.now) (ask_key ask.now)).under) }
{
    let empty = Bytes::new(alloc);
    let key = key_of(&ask.request, &empty);
    match table.find(key) {
        Some(entry) => Ok(decide(alloc, m.header, waits.step(), Some(entry), false, None)?),
        None => Ok(decide_free(alloc, m, key, waits, acquires)?),
    }
}

/// What a plain read of this key comes to, which has no entry and is no ownership key.
fn decide_free(
    alloc: Global,
    m: &Moment,
    key: &Bytes,
    waits: &Waits,
    acquires: &Acquires,
) -> Result<Decision, NoMemory>
    requires { contains (leasing_range waits.now.prefix) key.now ≡ false }
    ensures stage { IfOk result (λ d. d.stage
        ≡ (read_turn m.entry.now.header waits.now.step None (is_some (at acquires.now key.now))
        (acquirable m.entry.now (owned [] waits.now) key.now)).stage) }
    ensures under { IfOk result (λ d. d.under
        ≡ (read_turn m.entry.now.header waits.now.step None (is_some (at acquires.now key.now))
        (acquirable m.entry.now (owned [] waits.now) key.now)).under) }
{
    if acquires.find(key).is_some() {
        return Ok(decide(alloc, m.header, waits.step(), None, true, None)?);
    }
    let session = session_for(m, key, waits);
    Ok(decide(alloc, m.header, waits.step(), None, false, session)?)
}

/// The session under which this key may be acquired, which has neither entry nor acquire and is no ownership key.
#[tactic(auto, using(crate::proofs::TakenBack::ownable, crate::proofs::TakenBack::zero_or))]
fn session_for(m: &Moment, key: &Bytes, waits: &Waits) -> Option<u64>
    requires { contains (leasing_range waits.now.prefix) key.now ≡ false }
    ensures { result ≡ acquirable m.entry.now (owned [] waits.now) key.now }
{
    let known = Unowned {
        ownable: !waits.prefix().is_empty() && !key.is_empty(),
        written: waits.is_written(key),
        created: m.created,
        rested: waits.quiet(key) <= m.now,
    };
    under(m.session, known)
}

/// The verdict of a stage that has one, or the stage.
fn verdict_of(stage: Stage) -> Result<Verdict, Stage>
    ensures verdict { IfOk result (λ verdict. at_once stage ≡ Some verdict) }
    ensures same { IfErr result (λ other. other ≡ stage) }
    ensures none { IfErr result (λ other. at_once stage ≡ None) }
{
    match stage {
        Stage::Replied(verdict) => Ok(verdict),
        other => Err(other),
    }
}

/// The read waits in this stage, and where it is for an acquire of its key under this session, that is due. Where memory was wanting all
/// is as before.
fn keep_read(
    alloc: Global,
    ask: Asked,
    stage: Stage,
    session: Option<u64>,
    waits: &mut Waits,
    acquires: &mut Acquires,
    asks: &mut Asks,
) -> Result<(), NoMemory>
    requires unknown { ask_at ask.ticket asks.old ≡ None }
    requires free { is_some session ≡ true → at acquires.old (ask_key ask) ≡ None }
    ensures waits { OnOk result (waits.new ≡ begun_waits (ask_key ask) session waits.old) }
    ensures acquires { OnOk result (acquires.new ≡ begun_acquires ask.ticket (ask_key ask) session waits.old.step acquires.old) }
    ensures asks { OnOk result (asks.new ≡ asks.old ++ in_stage stage ask ∷ []) }
    ensures err_waits { OnErr result (waits.new ≡ waits.old) }
    ensures err_acquires { OnErr result (acquires.new ≡ acquires.old) }
    ensures err_asks { OnErr result (asks.new ≡ asks.old) }
{
    match session {
        None => keep_ask(ask, stage, asks),
        Some(session) => keep_acquiring(alloc, ask, stage, session, waits, acquires, asks),
    }
}

/// The read waits for an acquire of its key, which is due under this session. Where memory was wanting all is as before.
fn keep_acquiring(
    alloc: Global,
    ask: Asked,
    stage: Stage,
    session: u64,
    waits: &mut Waits,
    acquires: &mut Acquires,
    asks: &mut Asks,
) -> Result<(), NoMemory>
    requires unknown { ask_at ask.ticket asks.old ≡ None }
    requires free { at acquires.old (ask_key ask) ≡ None }
    ensures waits { OnOk result (waits.new ≡ begun_waits (ask_key ask) (Some session) waits.old) }
    ensures acquires { OnOk result (acquires.new ≡ begun_acquires ask.ticket (ask_key ask) (Some session) waits.old.step acquires.old) }
    ensures asks { OnOk result (asks.new ≡ asks.old ++ in_stage stage ask ∷ []) }
    ensures err_waits { OnErr result (waits.new ≡ waits.old) }
    ensures err_acquires { OnErr result (acquires.new ≡ acquires.old) }
    ensures err_asks { OnErr result (asks.new ≡ asks.old) }
{
    let empty = Bytes::new(alloc);
    let key = key_of(&ask.request, &empty).copy(alloc)?;
    let ticket = ask.ticket;
    keep_ask(ask, stage, asks)?;
    match begin_acquire(alloc, &key, ticket, session, waits, acquires) {
        Ok(()) => Ok(()),
        Err(fault) => {
            drop(asks.remove(ticket));
            Err(fault)
        }
    }
}

/// An acquire of the key is due. Where memory was wanting all is as before.
#[tactic(auto, using(crate::proofs::TakenBack::put_back))]
fn begin_acquire(
    alloc: Global,
    key: &Bytes,
    ticket: u64,
    session: u64,
    waits: &mut Waits,
    acquires: &mut Acquires,
) -> Result<(), NoMemory>
    requires { at acquires.old key.now ≡ None }
    ensures waits { OnOk result (waits.new ≡ begun_waits key.now (Some session) waits.old) }
    ensures acquires { OnOk result (acquires.new ≡ begun_acquires ticket key.now (Some session) waits.old.step acquires.old) }
    ensures err_waits { OnErr result (waits.new ≡ waits.old) }
    ensures err_acquires { OnErr result (acquires.new ≡ acquires.old) }
{
    // For the prover: the acquires are in the order of their keys.
    let _rows = acquires.as_slice();
    acquires.begin(alloc, key, ticket, session, waits.step())?;
    match waits.begin_acquire(key) {
        Ok(()) => Ok(()),
        Err(fault) => {
            acquires.remove(key);
            Err(fault)
        }
    }
}

/// The write waits behind all others. Where memory was wanting all is as before.
fn keep_write(alloc: Global, ask: Asked, waits: &mut Waits, asks: &mut Asks) -> Result<(), NoMemory>
    requires unknown { ask_at ask.ticket asks.old ≡ None }
    requires write { is_write ask.request ≡ true }
    ensures waits { OnOk result (waits.new ≡ (submitted ask.ticket ask.request (owned [] waits.old)).waits) }
    ensures asks { OnOk result (asks.new ≡ asks.old ++ in_stage stage.Writes ask ∷ []) }
    ensures err_waits { OnErr result (waits.new ≡ waits.old) }
    ensures err_asks { OnErr result (asks.new ≡ asks.old) }
{
    let ticket = ask.ticket;
    let request = ask.request.copy(alloc)?;
    keep_ask(ask, Stage::Writes, asks)?;
    match waits.submit(ticket, request) {
        Ok(()) => Ok(()),
        Err(fault) => {
            drop(asks.remove(ticket));
            Err(fault)
        }
    }
}

/// The request waits in this stage. Where memory was wanting all is as before.
fn keep_ask(ask: Asked, stage: Stage, asks: &mut Asks) -> Result<(), NoMemory>
    requires { ask_at ask.ticket asks.old ≡ None }
    ensures ok { OnOk result (asks.new ≡ asks.old ++ in_stage stage ask ∷ []) }
    ensures err { OnErr result (asks.new ≡ asks.old) }
{
    let mut ask = ask;
    ask.stage = stage;
    asks.push(ask)?;
    Ok(())
}
