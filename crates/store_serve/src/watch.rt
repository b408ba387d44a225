ghost use Rattle.std.specs.Prelude.{◌≡◌, ◌≤◌, true, IfErr};
ghost use Rattle.std.specs.Io.KnownBytes.{Keeps};
ghost use Rattle.outside.specs.Faults.{Rose};
ghost use Rattle.turn_hub.specs.Known.{made};
ghost use Rattle.turn_hub.specs.Steps.{IsAllowed};
ghost use Rattle.store_machine.specs.Standing.{Steps};
ghost use Rattle.shop_dialog.specs.Steps.{has_opened, IsFull};
ghost use Rattle.shop_dialog.specs.Watching.{Breaking};
ghost use Rattle.shop_dialog.specs.Exchanges.{PassesOn, Pushes, Follows, end_in};

use crate::ends::{end_by, end_of};
use crate::shop::push;
use etcd_types::WatchItem;
use http_talk::{is_cancel, tell_item};
use outside::{Clock, Failed, Sink, Source};
use shop_dialog::{Pushed, Stop, StoreEnd};
use std::alloc::Global;
use std::sync::Wait;
use store_machine::StoreMachine;
use told_items::Told;
use turn_hub::{Hub, Pass};

/// Passes a message of a watch on to the client.
fn pass_on<K: Sink>(
    alloc: Global,
    sink: &mut K,
    begun: bool,
    item: WatchItem,
) -> Result<Pushed, Stop>
    ensures cause { IfErr result (λ why. end_in why ≡ StoreEnd.WriteFault → Rose (K.faults sink.old) (K.faults sink.new)) }
    ensures reading { IfErr result (λ why. end_in why ≡ StoreEnd.ReadFault → ⊥) }
    ensures breaking { IfErr result (λ why. Breaking (end_in why)) }
    ensures kept { K.faults sink.old ≤ K.faults sink.new }
    ensures passes { PassesOn begun item (K.written sink.old) (K.written sink.new) result }
{
    let last = is_cancel(&item);
    match tell_item(alloc, sink, begun, &Told::alone(item)) {
        Ok(()) => {
            if last {
                Ok(Pushed::Last)
            } else {
                Ok(Pushed::Part)
            }
        }
        Err(fault) => {
            let end = end_by(fault);
            if last {
                Err(Stop::Answered(end))
            } else {
                Err(Stop::Unanswered(end))
            }
        }
    }
}

/// Asks for the next message of a watch, and tells it. `begun` says whether the head of a reply in chunks was written.
fn push_one<R: Wait, K: Sink, C: Clock>(
    rt: &R,
    alloc: Global,
    hub: &Hub<StoreMachine>,
    pass: &mut Pass<StoreMachine>,
    clock: &mut C,
    sink: &mut K,
    number: u64,
    begun: bool,
) -> Result<Pushed, Stop>
    requires pass { pass.old.hub ≡ hub.now }
    requires opened { has_opened number pass.old.seen ≡ true }
    ensures home { pass.new.hub ≡ pass.old.hub }
    ensures allowed { IsAllowed Steps pass.new }
    ensures opened { has_opened number pass.new.seen ≡ true }
    ensures cause { IfErr result (λ why. end_in why ≡ StoreEnd.WriteFault → Rose (K.faults sink.old) (K.faults sink.new)) }
    ensures reading { IfErr result (λ why. end_in why ≡ StoreEnd.ReadFault → ⊥) }
    ensures breaking { IfErr result (λ why. Breaking (end_in why)) }
    ensures kept { K.faults sink.old ≤ K.faults sink.new }
    ensures pushes { Pushes (IsFull pass.new) number begun (made pass.old) (made pass.new) (K.written sink.old) (K.written sink.new) result }
{
    match push(rt, hub, pass, clock, number) {
        Ok(None) => Ok(Pushed::Nothing),
        Ok(Some(item)) => pass_on(alloc, sink, begun, item),
        Err(fault) => Err(Stop::Unanswered(end_of(fault))),
    }
}

/// Tells the messages of a watch as they come, until its cancellation was told. Where there is nothing to tell it rests, and then looks
/// whether the client is still there.
pub(crate) fn follow<R: Wait, S: Source, K: Sink, C: Clock>(
    rt: &R,
    alloc: Global,
    hub: &Hub<StoreMachine>,
    pass: &mut Pass<StoreMachine>,
    clock: &mut C,
    source: &mut S,
    sink: &mut K,
    number: u64,
) -> Result<(), Stop>
    requires pass { pass.old.hub ≡ hub.now }
    requires opened { has_opened number pass.old.seen ≡ true }
    ensures home { pass.new.hub ≡ pass.old.hub }
    ensures allowed { IsAllowed Steps pass.old → IsAllowed Steps pass.new }
    ensures read_cause { IfErr result (λ why. end_in why ≡ StoreEnd.ReadFault → Rose (S.faults source.old) (S.faults source.new)) }
    ensures write_cause { IfErr result (λ why. end_in why ≡ StoreEnd.WriteFault → Rose (K.faults sink.old) (K.faults sink.new)) }
    ensures breaking { IfErr result (λ why. Breaking (end_in why)) }
    ensures reads { S.faults source.old ≤ S.faults source.new }
    ensures writes { K.faults sink.old ≤ K.faults sink.new }
    ensures ahead { Keeps (S.left source.old) (S.left source.new) }
    ensures follows { Follows (IsFull pass.new) number (made pass.old) (made pass.new) (K.written sink.old) (K.written sink.new) result }
{
    let mut begun = false;
    'pushes: for _ in rt.forever() {
        match push_one(rt, alloc, hub, pass, clock, sink, number, begun) {
            Ok(Pushed::Nothing) => {
                hub.wait(rt, pass);
                match source.check() {
                    Ok(()) => {}
                    Err(Failed) => return Err(Stop::Unanswered(StoreEnd::ReadFault)),
                }
            }
            Ok(Pushed::Part) => begun = true,
            Ok(Pushed::Last) => return Ok(()),
            Err(why) => return Err(why),
        }
    }
    unreachable!()
}
