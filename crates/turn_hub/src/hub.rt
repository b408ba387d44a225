ghost use Rattle.std.specs.Prelude.{◌≡◌, ℕ, ◌+◌, ◌≤◌, ◌^◌, ◌++◌, [], Ok, IfOk, IfErr, length};
ghost use Rattle.std.specs.Fn.{FnOnceReturnsAt};
ghost use Rattle.turn_hub.specs.History.{Begins};
ghost use Rattle.turn_hub.specs.Views.{longer};
ghost use Rattle.turn_hub.specs.Known.{opening_of, base_of, made};
ghost use Rattle.turn_hub.specs.Steps.{Makes, Fails, Sees, IsWorn, IsAllowed, StandsAt, Closes};

use crate::fault::HubFault;
use crate::meet::{join_as, meet_as};
use crate::pass::{Pass, PassOf};
use crate::rule::Turns;
use crate::step::{last_as, look_as, step_as};
use crate::turn::split_seat;
use crate::view::{Knows, Opening, Slot, Stowed};
use crate::waiting::{LONGEST_REST_SECONDS, Rest, Waiting};
use atomic_table::{Table, TableRule};
use etcd_types::NoMemory;
use outside::{Clock, Machine};
use std::alloc::Global;
use std::marker::{Model, PhantomData};
use std::snapshot::Snapshot;
use std::sync::Wait;

/// A machine that many threads step through passes, one step at a time.
///
/// All steps stand in one history: its first step begins at the state that the machine was opened with, and each later
/// one where the one before ended. Contracts see which hub it is, the opening state and the opening count. What the
/// history is they say through the passes, each of which has seen a beginning of it.
///
/// At each step the machine is moved out of its slot and back, so a machine of more than a few words keeps its parts
/// behind one box.
pub type Hub<M> = HubOf<Slot<M>, Knows<M>, Opening<M>, Turns<M>>;

/// A `Hub`, in terms of plain types: only so does a check find that it may cross threads.
#[derive(Drop)]
pub struct HubOf<S, V, K, Q: TableRule<S, V, K>> {
    table: Table<S, V, K, Q, Global>,
    opened: K,
    waiting: Waiting,
}

impl<S, V, K, Q: TableRule<S, V, K>> Model for HubOf<S, V, K, Q> {
    ghost use Rattle.std.specs.Prelude.{◌≡◌};
    ghost use Rattle.turn_hub.specs.Known.{Home};
    ghost use Rattle.turn_hub.specs.Hubs.{IsBuilt};

    ghost Value = { Home K };

    ghost view = { λ h. record { table = h.table.shared.table_id; opened = h.table.shared.key } };

    ghost invariant = { λ h. IsBuilt h.table.shared.table_id × (h.opened ≡ h.table.shared.key) };
}

impl<M: Machine> Hub<M> {
    /// A hub of this machine that has made no step, and its first pass.
    pub fn new(alloc: Global, machine: M) -> Result<(Hub<M>, Pass<M>), NoMemory>
        ensures opened { IfOk result (λ r. (opening_of r.0 ≡ machine) × (base_of r.0 ≡ 0)) }
        ensures pass { IfOk result (λ r. (r.1.hub ≡ r.0) × (r.1.seen ≡ []) × (r.1.own ≡ [])) }
    {
        Hub::new_at(alloc, machine, 0)
    }

    /// A hub that counts `count` steps as made before its first one.
    pub fn new_at(alloc: Global, machine: M, count: u64) -> Result<(Hub<M>, Pass<M>), NoMemory>
        requires { count ≤ 2 ^ 62 }
        ensures opened { IfOk result (λ r. (opening_of r.0 ≡ machine) × (base_of r.0 ≡ count)) }
        ensures pass { IfOk result (λ r. (r.1.hub ≡ r.0) × (r.1.seen ≡ []) × (r.1.own ≡ [])) }
    {
        let waiting = Waiting::new(alloc)?;
        let opened = Opening {
            machine: Snapshot::of(&machine),
            base: count,
        };
        let mut slots = Vec::new(alloc);
        slots.push(Stowed::Machine(machine))?;
        let Ok((table, seat)) = Table::new(alloc, &[count, 0], slots, &opened) else {
            return Err(NoMemory);
        };
        let pass = PassOf {
            seat,
            opened: Snapshot::of(&opened),
            rest: Rest::new(0),
            of: PhantomData,
        };
        let hub = HubOf {
            table,
            opened,
            waiting,
        };
        Ok((hub, pass))
    }

    /// Makes one step of the machine, with the turn, and reads the clock while it has it. It may wait for the turn.
    ///
    /// It is `Worn` exactly where the hub has made 2^62 steps, the opening count included. The machine is then as it was,
    /// the event is dropped and the clock isn't read.
    pub fn step<R: Wait, C: Clock>(
        &self,
        rt: &R,
        pass: &mut Pass<M>,
        event: M::Event,
        clock: &mut C,
    ) -> Result<M::Outcome, HubFault<M::Fault>>
        requires pass { pass.old.hub ≡ self.now }
        requires event { M.may event }
        ensures pass { pass.new.hub ≡ pass.old.hub }
        ensures outcome { IfOk result (λ o. Makes M.steps pass.old pass.new event (C.last clock.new) (Ok o)) }
        ensures fault { IfErr result (λ f. Fails M.steps pass.old pass.new event (C.last clock.new) f) }
        ensures unread { IfErr result (λ f. IsWorn f → clock.new ≡ clock.old) }
    {
        step_as(
            rt,
            &self.table.shared,
            &self.waiting,
            &mut pass.seat,
            &mut pass.rest,
            event,
            clock,
        )
    }

    /// Lets the machine be looked at as the whole history has left it, which the pass sees then, and gives what `view` makes of
    /// it. The hub makes no step, the pass no entry, and the machine stays as it is.
    ///
    /// It has the turn while it looks, for which it may wait and others wait: `view` should copy out what it needs, and no more.
    pub fn look<R: Wait, T, F: FnOnce(&M) -> T>(&self, rt: &R, pass: &mut Pass<M>, view: F) -> T
        requires pass { pass.old.hub ≡ self.now }
        requires view { F.IsAlwaysCallable view }
        ensures pass { pass.new.hub ≡ pass.old.hub }
        ensures looked { (machine : M) × Sees M.steps pass.old pass.new machine × FnOnceReturnsAt F.FnOnce view machine result }
    {
        look_as(rt, &self.table.shared, &self.waiting, &mut pass.seat, view)
    }

    /// A new pass that has seen what this one had, and has no entries. It rests in the same lot.
    pub fn split(&self, pass: &mut Pass<M>) -> Pass<M>
        requires { pass.old.hub ≡ self.now }
        ensures pass { pass.new ≡ pass.old }
        ensures new { result ≡ record pass.old { own = [] } }
        ensures stands { StandsAt result }
    {
        let seat = split_seat(&self.table.shared, &mut pass.seat);
        PassOf {
            seat,
            opened: Snapshot::of(&self.opened),
            rest: pass.rest,
            of: PhantomData,
        }
    }

    /// Makes two passes one. It has seen the longer of the two histories, which both begin, and has both passes' entries.
    pub fn join(&self, pass: &mut Pass<M>, other: Pass<M>)
        requires pass { pass.old.hub ≡ self.now }
        requires other { other.hub ≡ self.now }
        ensures pass { pass.new.hub ≡ pass.old.hub }
        ensures seen { pass.new.seen ≡ longer pass.old.seen other.seen }
        ensures begins { Begins pass.old.seen pass.new.seen × Begins other.seen pass.new.seen }
        ensures own { pass.new.own ≡ pass.old.own ++ other.own }
        ensures made { made pass.new ≡ made pass.old ++ made other }
        ensures stands { StandsAt pass.new }
    {
        join_as(&self.table.shared, &mut pass.seat, other.seat);
    }

    /// Tells the pass `a` the whole history, which begins with what either pass had seen.
    pub fn meet(&self, a: &mut Pass<M>, b: &mut Pass<M>)
        requires a { a.old.hub ≡ self.now }
        requires b { b.old.hub ≡ self.now }
        ensures a { a.new.hub ≡ a.old.hub }
        ensures b { b.new ≡ b.old }
        ensures seen { Begins a.old.seen a.new.seen × Begins b.new.seen a.new.seen }
        ensures own { a.new.own ≡ a.old.own }
        ensures made { made a.new ≡ made a.old }
        ensures stands { StandsAt a.new }
        ensures allowed { IsAllowed M.steps a.new }
    {
        meet_as(&self.table.shared, &mut a.seat, &mut b.seat);
    }

    /// Rests until a step gives the pass's lot something to take, if none has since this pass last stepped. It comes
    /// directly after the step that found nothing: after a later step of the same pass it would miss what came between.
    /// It may return at any other time too, and does after `LONGEST_REST_SECONDS` seconds at the latest, so look again behind it.
    pub fn wait<R: Wait>(&self, rt: &R, pass: &mut Pass<M>)
        requires { pass.old.hub ≡ self.now }
        ensures { pass.new ≡ pass.old }
    {
        self.waiting
            .rest(rt, &pass.rest, LONGEST_REST_SECONDS * 1000);
    }

    /// The same, but returns after so many milliseconds at the latest, where they are fewer than those.
    pub fn wait_at_most<R: Wait>(&self, rt: &R, pass: &mut Pass<M>, millis: u64)
        requires { pass.old.hub ≡ self.now }
        ensures { pass.new ≡ pass.old }
    {
        self.waiting.rest(rt, &pass.rest, millis);
    }

    /// Takes the turn for good, and the machine out, which has made the whole history. It may wait for the turn.
    pub fn close<R: Wait>(self, rt: &R, pass: Pass<M>) -> M
        requires { pass.hub ≡ self }
        ensures { (count : ℕ) × Closes M.steps pass result count }
    {
        self.close_at(rt, pass).0
    }

    /// The same, with the count of all steps, the opening count included: what `new_at` takes to go on from there.
    pub fn close_at<R: Wait>(self, rt: &R, pass: Pass<M>) -> (M, u64)
        requires { pass.hub ≡ self }
        ensures { Closes M.steps pass result.0 result.1 }
    {
        let mut pass = pass;
        last_as(rt, &self.table.shared, &self.waiting, &mut pass.seat)
    }
}
