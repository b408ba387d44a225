ghost use Rattle.std.specs.Prelude.{◌≡◌, ◌<◌, ◌^◌, true, is_some, Some, OnOk, OnErr};
ghost use Rattle.std.specs.Option.{option_map};
ghost use Rattle.proxy_model.specs.Unwrapped.{item_without};
ghost use Rattle.watch_model.specs.Lookups.{stream_at, is_begun};
ghost use Rattle.core_model.specs.Heard.{later_header};
ghost use Rattle.core_model.specs.LeasingStream.{item_header};
ghost use Rattle.core_model.specs.Step.{on_item, client_item};
ghost use Rattle.core_machine.specs.Does.{Does};
ghost use Rattle.core_machine.specs.Items.{watches_heard_if, watches_told_if};

use crate::machine::Machine;
use core_model::{Outcome, StepFault};
use core_parts::{item_header, opening_at, raise_header};
use etcd_types::{Header, NoMemory, WatchItem};
use namespace_keys::{KeyFault, Namespace};
use std::alloc::Global;
use watch_merge::{Broadcasts, StreamPhase, WatchFault};

impl Machine {
    /// A message came on a stream.
    #[tactic(auto, unfolding(core_model::specs::Step::on_item))]
    #[inline(never)]
    pub fn on_item(&mut self, stream: u64, item: WatchItem, now: u64) -> Result<Outcome, StepFault>
        requires { self.old.core.watches.given < 2 ^ 63 }
        ensures step { Does self.old.core (on_item now stream item self.old.core) result self.new.core }
        ensures ranges { self.new.ranges ≡ self.old.ranges }
    {
        match opening_at(stream, &self.leasing) {
            Some(_) => {
                let Ok(()) = self.hear_leasing(item, now) else {
                    return Err(StepFault::NoMemory);
                };
                self.go_on();
                Ok(Outcome::Noted)
            }
            None => self.on_client_item(stream, item),
        }
    }

    /// A message came on a stream that isn't the leasing stream.
    fn on_client_item(&mut self, stream: u64, item: WatchItem) -> Result<Outcome, StepFault>
        requires { self.old.core.watches.given < 2 ^ 63 }
        ensures step { Does self.old.core (client_item stream item (stream_at stream self.old.core.watches.streams) self.old.core) result self.new.core }
        ensures ranges { self.new.ranges ≡ self.old.ranges }
    {
        let Some(phase) = self.watches.phase(stream) else {
            return Err(StepFault::NoSuchStream(stream));
        };
        let delivered = item_header(&item);
        let mut last = self.header;
        raise_header(&mut last, delivered);
        let heard = hear(
            self.alloc,
            &self.namespace,
            stream,
            phase,
            item,
            last,
            &mut self.watches,
        );
        let Ok(()) = heard else {
            return Err(StepFault::NoMemory);
        };
        self.take_header(delivered);
        self.go_on();
        Ok(Outcome::Noted)
    }
}

/// The watches of a stream in this phase hear its message, where `last` is the highest header that was delivered. One that can't
/// be read breaks the stream off. Where memory was wanting all is as before.
fn hear(
    alloc: Global,
    namespace: &Namespace,
    stream: u64,
    phase: StreamPhase,
    item: WatchItem,
    last: Header,
    watches: &mut Broadcasts,
) -> Result<(), NoMemory>
    requires given { watches.old.given < 2 ^ 63 }
    requires phase { option_map (λ s. s.phase) (stream_at stream watches.old.streams) ≡ Some phase }
    ensures ok { OnOk result (watches.new ≡ watches_heard_if namespace.now (stream_at stream watches.old.streams) item last watches.old) }
    ensures err { OnErr result (watches.new ≡ watches.old) }
{
    if !is_begun(phase) {
        return Ok(());
    }
    match namespace.unwrap_item(alloc, item) {
        Ok(item) => tell(stream, item, last, watches),
        Err(KeyFault::ForeignKey(_)) => {
            watches.cut(stream);
            Ok(())
        }
        Err(KeyFault::NoMemory) => Err(NoMemory),
    }
}

fn is_begun(phase: StreamPhase) -> bool
    ensures { result ≡ is_begun phase }
{
    matches!(phase, StreamPhase::Begun)
}

/// The watches of a known stream are told this message. Where memory was wanting all is as before.
fn tell(
    stream: u64,
    item: WatchItem,
    last: Header,
    watches: &mut Broadcasts,
) -> Result<(), NoMemory>
    requires given { watches.old.given < 2 ^ 63 }
    requires known { is_some (stream_at stream watches.old.streams) ≡ true }
    ensures ok { OnOk result (watches.new ≡ watches_told_if (stream_at stream watches.old.streams) item last watches.old) }
    ensures err { OnErr result (watches.new ≡ watches.old) }
{
    let told = match &item {
        WatchItem::Created(header) => watches.created(stream, *header, last),
        WatchItem::Events { header, events } => watches.deliver(stream, *header, events),
        WatchItem::Canceled { header, compact } => watches.cancelled(
            stream, *header, *compact, last,
        ),
    };
    match told {
        Ok(()) => Ok(()),
        Err(WatchFault::NoMemory) => Err(NoMemory),
        Err(_) => unreachable!(),
    }
}
