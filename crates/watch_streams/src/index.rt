ghost use Rattle.std.specs.Prelude.{◌≡◌, ◌++◌, ◌∷◌, [], true, None};
ghost use Rattle.std.specs.Option.{option_copied};
ghost use Rattle.watch_model.specs.State.{Stream as StreamOf};
ghost use Rattle.watch_model.specs.Lookups.{stream_at, without_stream};
ghost use Rattle.watch_model.specs.Joining.{best_of, opening_from_now, stream_to_join};
ghost use Rattle.watch_model.specs.Splitting.{emptied_as};
ghost use Rattle.watch_streams.specs.Rows.{found_in, chosen_at, Indexed, Backed, IsAlone, IsNumbered};

use crate::rows::{Row, at_most_one, before, digest, drop_row, insert_row};
use crate::seats;
use crate::streams::{is_due, place_of};
use etcd_types::KeyRange;
use std::alloc::Global;
use watch_model::Stream;

/// The streams' numbers in the order of the digests of their ranges, so that those of a range are found in logarithmic
/// time. Where memory was wanting for a row it stands no more, until it is built anew.
#[derive(Drop)]
pub struct RangeIndex {
    rows: Vec<Row>,
    stands: bool,
}

impl RangeIndex {
    /// Of no streams.
    pub fn new(alloc: Global) -> RangeIndex
        ensures { Backed result [] }
    {
        RangeIndex {
            rows: Vec::new(alloc),
            stands: true,
        }
    }

    /// A stream of this number and range came behind all others.
    pub fn opened(&mut self, number: u64, range: &KeyRange)
        ensures { (ss : _) (t : StreamOf) → t.number ≡ number → t.stream.range ≡ range.now → Backed self.old ss → Backed self.new (ss ++ t ∷ []) }
    {
        if !self.stands {
            return;
        }
        let row = Row {
            digest: digest(range),
            number,
        };
        match insert_row(row, &mut self.rows) {
            Ok(()) => {}
            Err(_) => self.stands = false,
        }
    }

    /// The stream of this number is gone.
    pub fn dropped(&mut self, number: u64)
        ensures { (ss : _) → Backed self.old ss → Backed self.new (without_stream number ss) }
    {
        drop_row(number, &mut self.rows);
    }

    /// The stream of this number, one of these, has no members: it is to be closed, or gone where it is still due.
    pub fn emptied(&mut self, number: u64, streams: &[Stream])
        requires { IsNumbered streams.now }
        ensures { (step : _) → Backed self.old streams.now → Backed self.new (emptied_as number step streams.now (stream_at number streams.now)) }
    {
        let Some(at) = place_of(number, streams) else {
            return;
        };
        if is_due(streams[at].phase) {
            self.dropped(number);
        }
    }

    /// It stands no more, until it is built anew.
    pub fn forget(&mut self)
        ensures { (ss : _) → Backed self.new ss }
    {
        self.stands = false;
    }

    /// It stands for these streams from here on, where memory isn't wanting.
    pub fn build(&mut self, streams: &[Stream])
        requires { Backed self.old streams.now }
        ensures { Backed self.new streams.now }
    {
        if self.stands {
            return;
        }
        self.rows.clear();
        self.stands = true;
        for stream in streams {
            self.opened(stream.number, stream.stream.reopen().0);
        }
    }

    /// Whether no two streams have the range, as far as that is seen at once.
    pub fn is_alone(&self, range: &KeyRange) -> bool
        ensures { (ss : _) → Backed self.now ss → result ≡ true → IsAlone range.now ss }
    {
        self.stands && at_most_one(digest(range), &self.rows)
    }

    /// The stream that a watch of the range joins, where its own next is this, or 0 while it isn't decided, and `seen`
    /// the highest revision seen.
    pub fn stream_to_join<'a>(
        &self,
        streams: &'a [Stream],
        range: &KeyRange,
        next: u64,
        seen: u64,
    ) -> Option<&'a Stream>
        requires backed { Backed self.now streams.now }
        requires numbers { IsNumbered streams.now }
        ensures { option_copied result ≡ stream_to_join streams.now range.now next seen }
    {
        if !self.stands {
            return seats::stream_to_join(streams, range, next, seen);
        }
        if next != 0 {
            return best_under(range, next, &self.rows, streams);
        }
        match best_under(range, seen.saturating_add(1), &self.rows, streams) {
            Some(found) => Some(found),
            None => opening_under(range, &self.rows, streams),
        }
    }
}

/// The one with the greatest next up to the limit, and of equal ones the first.
fn best_under<'a>(
    range: &KeyRange,
    limit: u64,
    rows: &[Row],
    streams: &'a [Stream],
) -> Option<&'a Stream>
    requires rows { Indexed rows.now streams.now }
    requires numbers { IsNumbered streams.now }
    ensures { option_copied result ≡ best_of range.now limit None streams.now }
{
    let digest = digest(range);
    let at = before(digest, rows);
    best_in(range, limit, digest, &rows[at..], streams)
}

/// The first one that is being opened from 0.
fn opening_under<'a>(range: &KeyRange, rows: &[Row], streams: &'a [Stream]) -> Option<&'a Stream>
    requires rows { Indexed rows.now streams.now }
    requires numbers { IsNumbered streams.now }
    ensures { option_copied result ≡ opening_from_now range.now streams.now }
{
    let digest = digest(range);
    let at = before(digest, rows);
    opening_in(range, digest, &rows[at..], streams)
}

/// Of the streams of the rows that stand first under the digest, the one with the greatest next up to the limit, and of
/// equal ones the first.
fn best_in<'a>(
    range: &KeyRange,
    limit: u64,
    digest: u64,
    rows: &[Row],
    streams: &'a [Stream],
) -> Option<&'a Stream>
    requires { IsNumbered streams.now }
    ensures { option_copied result ≡ best_of range.now limit None (found_in digest rows.now streams.now) }
{
    let mut best = None;
    for row in rows {
        if row.digest != digest {
            return best;
        }
        best = best_at(range, limit, best, row.number, streams);
    }
    best
}

fn best_at<'a>(
    range: &KeyRange,
    limit: u64,
    best: Option<&'a Stream>,
    number: u64,
    streams: &'a [Stream],
) -> Option<&'a Stream>
    requires { IsNumbered streams.now }
    ensures { option_copied result ≡ chosen_at range.now limit (option_copied best.entry) (stream_at number streams.now) }
{
    match place_of(number, streams) {
        None => best,
        Some(at) => seats::best_of_two(range, limit, best, &streams[at]),
    }
}

/// Of those streams, the first one that is being opened from 0.
fn opening_in<'a>(
    range: &KeyRange,
    digest: u64,
    rows: &[Row],
    streams: &'a [Stream],
) -> Option<&'a Stream>
    requires { IsNumbered streams.now }
    ensures { option_copied result ≡ opening_from_now range.now (found_in digest rows.now streams.now) }
{
    for row in rows {
        if row.digest != digest {
            return None;
        }
        if let Some(at) = place_of(row.number, streams) {
            if seats::is_opening_from_now(range, &streams[at]) {
                return Some(&streams[at]);
            }
        }
    }
    None
}
