ghost use Rattle.std.specs.Prelude.{true, ◌≡◌, map};
ghost use Rattle.watch_model.specs.Lookups.{tickets_from};
ghost use Rattle.watch_queue.specs.Watching.{shown};
ghost use Rattle.watch_merge.specs.Members.{members_of, first_from};

use crate::watches::gap;
use watch_queue::{Watching, is_in};

/// The first ticket, from this one on, of a member of the stream of this number. No watch in front of that ticket is looked at.
pub fn member_from(number: u64, from: u64, watches: &[Watching]) -> Option<u64>
    requires { tickets_from 0 (map shown watches.now) ≡ true }
    ensures { result ≡ first_from from (members_of number (map shown watches.now)) }
{
    let at = gap(from, watches);
    first_member(number, from, &watches[at..])
}

fn first_member(number: u64, from: u64, watches: &[Watching]) -> Option<u64>
    ensures { result ≡ first_from from (members_of number (map shown watches.now)) }
{
    for watch in watches {
        if is_in(number, watch.place) && from <= watch.ticket {
            return Some(watch.ticket);
        }
    }
    None
}
