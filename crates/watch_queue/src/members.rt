ghost use Rattle.std.specs.Prelude.{◌≡◌, map};
ghost use Rattle.watch_model.specs.Lookups.{is_in, has_member};
ghost use Rattle.watch_model.specs.Cuts.{renumbered};
ghost use Rattle.watch_queue.specs.Watching.{shown, renumbered_as};

use crate::watching::Watching;
use watch_model::WatchPlace;

/// Whether it is a member of the stream of this number.
pub fn is_in(number: u64, place: WatchPlace) -> bool
    ensures { result ≡ is_in number place }
{
    match place {
        WatchPlace::In(m) => m == number,
        WatchPlace::Split | WatchPlace::Ended => false,
    }
}

/// Whether the stream of this number has a member.
pub fn has_member(number: u64, watches: &[Watching]) -> bool
    ensures { result ≡ has_member number (map shown watches.now) }
{
    for watch in watches {
        if is_in(number, watch.place) {
            return true;
        }
    }
    false
}

/// The members of one stream are those of another.
pub fn renumber(from: u64, to: u64, watches: &mut Vec<Watching>)
    ensures { map shown watches.new.items ≡ map (renumbered from to) (map shown watches.old.items) }
{
    renumber_all(from, to, watches);
}

fn renumber_all(from: u64, to: u64, watches: &mut Vec<Watching>)
    ensures { watches.new.items ≡ map (renumbered_as from to) watches.old.items }
{
    for watch in watches.iter_mut() {
        renumber_one(from, to, watch);
    }
}

fn renumber_one(from: u64, to: u64, watch: &mut Watching)
    ensures { watch.new ≡ renumbered_as from to watch.old }
{
    if is_in(from, watch.place) {
        watch.place = WatchPlace::In(to);
    }
}
