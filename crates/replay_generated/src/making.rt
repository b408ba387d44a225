ghost use Rattle.std.specs.Prelude.{◌≡◌, ◌≢◌, ◌<◌, ◌+◌, ◌/◌, ◌^◌, OnOk, IfOk, IfErr};
ghost use Rattle.replay_generated.specs.Made.{HasStreams, IsDue, Makes, Refuses, Sends, Takes};
ghost use Rattle.generated_laws.specs.Laws.{PushTaken};
ghost use Rattle.replay_generated.specs.Taken.{CanAdd, CanMake};
ghost use Rattle.replay_world.specs.Step.{IsStep};
ghost use Rattle.world_model.specs.declared.fault.WorldFault.TheVariants as fault;
ghost use Rattle.script_text.specs.declared.line.Line.TheVariants as lines;
ghost use Rattle.world_model.specs.Generated.{add, asking, call_in, drawn, push_one};

use core_face::ProxyCore;
use etcd_types::{List, NoMemory};
use replay_counts::{Tally, asking, drawn};
use replay_world::World;
use script_text::{Item, Line};
use std::alloc::Global;
use std::marker::Model;
use world_model::WorldFault;

/// No generated script comes near to so many lines.
const MOST_LINES: u64 = 0x0fff_ffff_ffff_ffff;

/// A script that is being made: the world that its lines left, what is counted of what they gained, and the state of the generator.
#[derive(Drop)]
pub struct Making<C: ProxyCore> {
    pub alloc: Global,
    pub world: World<C>,
    pub tally: Tally,
    pub state: u64,
}

impl<C: ProxyCore> Model for Making<C> {
    ghost use Rattle.std.specs.Coded.{codes};
    ghost use Rattle.etcd_types.specs.contracts.operation.Op as operation;
    ghost use Rattle.etcd_types.specs.contracts.answer.Body as body;
    ghost use Rattle.replay_generated.specs.Made.{Made};

    ghost Value = { Made };

    ghost coded = { Prim.hlevel (codes, operation.the_row.coded, body.the_row.coded) };

    ghost view = { λ m. record { world = m.world; tally = m.tally; state = m.state } };
}

impl<C: ProxyCore> Making<C> {
    /// A line is taken, what it gains is counted, and told.
    fn take(&mut self, line: Line) -> Result<List<Item>, WorldFault>
        requires { IsStep line }
        ensures taken { IfOk result (λ items. Takes line items self.old self.new) }
        ensures refused { IfErr result (λ why. why ≢ fault.NoMemory → Refuses line why self.old self.new) }
    {
        match self.next_number() {
            Ok(number) => self.take_at(number, line),
            Err(NoMemory) => {
                drop(line);
                Err(WorldFault::NoMemory)
            }
        }
    }

    /// The number of the next line.
    fn next_number(&self) -> Result<u64, NoMemory>
        ensures number { IfOk result (λ number. number ≡ self.now.world.lines + 2) }
        ensures few { OnOk result (self.now.world.lines < 2 ^ 60) }
    {
        let lines = self.lines();
        if lines < MOST_LINES {
            Ok(lines + 2)
        } else {
            Err(NoMemory)
        }
    }

    fn take_at(&mut self, number: u64, line: Line) -> Result<List<Item>, WorldFault>
        requires number { number ≡ self.old.world.lines + 2 }
        requires few { self.old.world.lines < 2 ^ 60 }
        requires line { IsStep line }
        ensures taken { IfOk result (λ items. Takes line items self.old self.new) }
        ensures refused { IfErr result (λ why. why ≢ fault.NoMemory → Refuses line why self.old self.new) }
    {
        match self.world.step(number, line) {
            Ok(items) => {
                self.tally.note_all(items.as_slice())?;
                Ok(items)
            }
            Err(why) => Err(why),
        }
    }

    /// A line is added, which the world takes.
    pub fn add(&mut self, line: Line) -> Result<(), NoMemory>
        requires line { IsStep line }
        requires goes { CanAdd line self.old }
        ensures { OnOk result (Makes (add line) self.old self.new) }
    {
        match self.take(line) {
            Ok(items) => {
                drop(items);
                Ok(())
            }
            Err(why) => Err(wanting(why)),
        }
    }

    /// The proxy sends what is due first, and the number of the call that it sent is told, where it sent one.
    pub fn add_send(&mut self, proxy: u64) -> Result<Option<u64>, NoMemory>
        requires { CanAdd (lines.Send proxy) self.old }
        ensures { IfOk result (λ call. Sends proxy call self.old self.new) }
    {
        match self.take(Line::Send { proxy }) {
            Ok(items) => Ok(call_in(items.as_slice())),
            Err(why) => Err(wanting(why)),
        }
    }

    /// A stream is pushed what the store has for it, and that is delivered.
    pub fn push_one(&mut self, stream: u64) -> Result<(), NoMemory>
        requires { CanMake (PushTaken stream) self.old }
        ensures { OnOk result (Makes (push_one stream) self.old self.new) }
    {
        match self.take(Line::Push { stream }) {
            Ok(items) => {
                drop(items);
                Ok(self.add(Line::Deliver { stream })?)
            }
            Err(why) => Ok(unless_wanting(why)?),
        }
    }

    /// The number of lines that were taken behind the first.
    pub fn lines(&self) -> u64
        ensures { result ≡ self.now.world.lines }
    {
        self.world.lines()
    }

    /// Whether something of the proxy is due to be sent.
    pub fn is_due(&self, proxy: u64) -> bool
        ensures { IsDue proxy result self.now }
    {
        self.world.has_job(proxy)
    }

    /// The number of streams that were opened.
    pub fn streams(&self) -> u64
        ensures { HasStreams result self.now }
    {
        self.world.streams()
    }

    /// The generator's next state.
    pub fn next_state(&self) -> u64
        ensures { result ≡ drawn self.now.state }
    {
        drawn(self.state)
    }

    /// What is asked in the round of this number, with the generator in this state.
    pub fn asking(&self, state: u64, number: u64) -> Result<Line, NoMemory>
        ensures { IfOk result (λ line. line ≡ asking (state / 2 ^ 33) number) }
    {
        Ok(asking(self.alloc, state, number)?)
    }

    pub fn set_state(&mut self, state: u64)
        ensures { self.new ≡ record self.old { state = state } }
    {
        self.state = state;
    }
}

/// The call that was sent among these items, where one was.
fn call_in(items: &[Item]) -> Option<u64>
    ensures { result ≡ call_in items.now }
{
    for item in items {
        if let Item::Sent { call, .. } = item {
            return Some(*call);
        }
    }
    None
}

/// A refusal other than want of memory.
fn unless_wanting(why: WorldFault) -> Result<(), NoMemory>
    ensures { OnOk result (why ≢ fault.NoMemory) }
{
    match why {
        WorldFault::NoMemory => Err(NoMemory),
        _ => Ok(()),
    }
}

/// Of a line that the world takes, memory alone can be wanting.
fn wanting(why: WorldFault) -> NoMemory
    requires { why ≡ fault.NoMemory }
{
    match why {
        WorldFault::NoMemory => NoMemory,
        _ => unreachable!(),
    }
}
