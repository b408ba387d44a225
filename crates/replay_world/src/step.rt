ghost use Rattle.std.specs.Prelude.{◌≡◌, ◌+◌, ◌<◌, ◌^◌, Err, OnOk, OnErr};
ghost use Rattle.replay_world.specs.World.{Gives, Stands};
ghost use Rattle.replay_world.specs.Promises.{StaysSound, LeavesNoneIdle, LeavesStreamsMerged, LeavesQueuesBounded, LeavesAllHeld};
ghost use Rattle.replay_world.specs.Step.{IsStep, StepsTo, IsSpent, is_wanting, line_step};
ghost use Rattle.world_model.specs.declared.fault.WorldFault.TheVariants as fault;
ghost use Rattle.world_model.specs.State.{World as Model};
ghost use Rattle.world_model.specs.Transcript.{done};

use crate::world::World;
use core_face::ProxyCore;
use etcd_types::List;
use script_text::{Item, Line};
use world_model::WorldFault;

impl<C: ProxyCore> World<C> {
    /// Takes a line behind the first, of this number in its script, and gives what it gains.
    ///
    /// Each fault leaves the world as before, but for the clock work and the count of steps of the proxy that made a step. Once
    /// memory was wanting the world answers that from then on.
    ///
    /// Where the world's proxies are sound and what the line brings to one of them is made of bytes, they are sound again, whether the
    /// line is taken or refused. Then no request and no watch of any of them waits for nothing, and their streams are merged. Their
    /// queues stay bounded, and behind lines that were all taken nothing is held back of any watch.
    pub fn step(&mut self, number: u64, line: Line) -> Result<List<Item>, WorldFault>
        requires number { number ≡ self.old.lines + 2 }
        requires lines { self.old.lines < 2 ^ 60 }
        requires line { IsStep line }
        ensures step { (w : Model) → Stands self.old w → StepsTo self.new result (done w line) }
        ensures wanting { result ≡ Err fault.NoMemory → IsSpent self.new }
        ensures counted { OnOk result (self.new.lines ≡ self.old.lines + 1) }
        ensures kept { OnErr result (self.new.lines ≡ self.old.lines) }
        ensures spent { IsSpent self.old → result ≡ Err fault.NoMemory }
        ensures sound { (w : Model) → Stands self.old w → StaysSound w line result self.new }
        ensures idle { (w : Model) → Stands self.old w → LeavesNoneIdle w line result self.new }
        ensures merged { (w : Model) → Stands self.old w → LeavesStreamsMerged w line result self.new }
        ensures bounded { (w : Model) → Stands self.old w → LeavesQueuesBounded w line result self.new }
        ensures held { OnOk result ((w : Model) → Stands self.old w → LeavesAllHeld w line self.new) }
    {
        if self.spent {
            return Err(WorldFault::NoMemory);
        }
        let gained = self.do_line(number, line);
        match gained {
            Ok(items) => {
                self.lines += 1;
                Ok(items)
            }
            Err(fault) => {
                self.spent = is_wanting(fault);
                Err(fault)
            }
        }
    }

    fn do_line(&mut self, number: u64, line: Line) -> Result<List<Item>, WorldFault>
        requires number { number ≡ self.old.lines + 2 }
        requires line { IsStep line }
        ensures step { (w : Model) → Stands self.old w → Gives self.new result (line_step w line) }
        ensures lines { self.new.lines ≡ self.old.lines }
    {
        match line {
            Line::World { .. } => unreachable!(),
            Line::Start { proxy } => self.start(proxy),
            Line::Clock { proxy, millis } => self.set_clock(proxy, millis),
            Line::Ask {
                proxy,
                ticket,
                request,
            } => self.ask(proxy, ticket, request, number),
            Line::Post {
                proxy,
                ticket,
                path,
                body,
            } => self.post(proxy, ticket, path, body, number),
            Line::Tick { proxy } => self.tick(proxy, number),
            Line::Send { proxy } => self.send(proxy),
            Line::Exec { call } => self.execute(call),
            Line::Answer { call } => self.answer(call),
            Line::Lose { call } => self.lose(call),
            Line::Push { stream } => self.push(stream),
            Line::Progress { stream } => self.tell_progress(stream),
            Line::Deliver { stream } => self.deliver(stream),
            Line::Cut { stream } => self.cut(stream),
            Line::Take { proxy, ticket } => self.take(proxy, ticket),
            Line::Leave { proxy, ticket } => self.leave(proxy, ticket),
            Line::Expire { lease } => self.expire(lease),
            Line::Apply { member, revision } => self.apply(member, revision),
        }
    }
}

/// Whether memory was wanting.
fn is_wanting(fault: WorldFault) -> bool
    ensures { result ≡ is_wanting fault }
{
    fault == WorldFault::NoMemory
}
