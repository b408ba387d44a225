ghost use Rattle.std.specs.Prelude.{◌≡◌, map, OnOk, OnErr};
ghost use Rattle.watch_model.specs.Lookups.{member_changed};
ghost use Rattle.watch_model.specs.Delivery.{created_watch};
ghost use Rattle.watch_queue.specs.Watching.{shown};
ghost use Rattle.watch_queue.specs.Entering.{prepared_member, begun_member};

use crate::entering::{begin, ready_created};
use crate::members::is_in;
use crate::watching::Watching;
use etcd_types::{Header, NoMemory};

/// The stream of this number stands created, with this next: its members are told so once, all of them, or none where
/// memory was wanting.
pub fn give_created(
    number: u64,
    next: u64,
    last: Header,
    watches: &mut Vec<Watching>,
) -> Result<(), NoMemory>
    ensures ok { OnOk result (map shown watches.new.items ≡ map (member_changed number (created_watch next last)) (map shown watches.old.items)) }
    ensures err { OnErr result (map shown watches.new.items ≡ map shown watches.old.items) }
{
    ready_all(number, next, last, watches)?;
    begin_all(number, next, watches);
    Ok(())
}

fn ready_all(
    number: u64,
    next: u64,
    last: Header,
    watches: &mut Vec<Watching>,
) -> Result<(), NoMemory>
    ensures ok { OnOk result (watches.new.items ≡ map (prepared_member number next last) watches.old.items) }
    ensures shown { map shown watches.new.items ≡ map shown watches.old.items }
{
    for at in 0..watches.len() {
        ready_one(number, next, last, &mut watches[at])?;
    }
    Ok(())
}

fn ready_one(number: u64, next: u64, last: Header, watch: &mut Watching) -> Result<(), NoMemory>
    ensures shown { shown watch.new ≡ shown watch.old }
    ensures ok { OnOk result (watch.new ≡ prepared_member number next last watch.old) }
{
    if is_in(number, watch.place) {
        ready_created(next, last, watch)
    } else {
        Ok(())
    }
}

fn begin_all(number: u64, next: u64, watches: &mut Vec<Watching>)
    ensures { watches.new.items ≡ map (begun_member number next) watches.old.items }
{
    for watch in watches.iter_mut() {
        begin_one(number, next, watch);
    }
}

fn begin_one(number: u64, next: u64, watch: &mut Watching)
    ensures { watch.new ≡ begun_member number next watch.old }
{
    if is_in(number, watch.place) {
        begin(next, watch);
    }
}
