ghost use Rattle.std.specs.Prelude.{◌≡◌, ◌<◌, ◌+◌, ◌^◌, false, is_some, None};
ghost use Rattle.std.specs.Option.{option_map};
ghost use Rattle.watch_model.specs.State.{first_broadcasts};
ghost use Rattle.watch_model.specs.Lookups.{stream_at, watch_at};
ghost use Rattle.watch_model.specs.Merging.{merged};
ghost use Rattle.watch_model.specs.Cuts.{cut_at, cut_answer};
ghost use Rattle.watch_merge.specs.Members.{members_of, first_from};
ghost use Rattle.watch_merge.specs.Watches.{has_message};

use crate::members::member_from;
use crate::merging::{any_twins, close_others, move_members};
use crate::phases::phase_of;
use crate::watches::{has_message, place_of_watch};
use etcd_types::KeyRange;
use std::alloc::Global;
use std::marker::Model;
use watch_model::{Stream, StreamPhase};
use watch_queue::{Watching, renumber};
use watch_streams::{RangeIndex, is_closing, place_of, range_of, reopen};

mod cancellations;
mod deliveries;
mod jobs;
mod joins;
mod leaves;
mod takes;

/// The client streams, by rising numbers, and the watches, by rising tickets.
#[derive(Drop)]
pub struct Broadcasts {
    alloc: Global,
    streams: Vec<Stream>,
    index: RangeIndex,
    watches: Vec<Watching>,
    given: u64,
    step: u64,
    /// Whether no closing or opening is due; where it isn't known this is false.
    idle: bool,
}

impl Model for Broadcasts {
    ghost use Rattle.std.specs.Prelude.{map};
    ghost use Rattle.watch_model.specs.State.{Broadcasts as Parts};
    ghost use Rattle.watch_queue.specs.Watching.{shown};
    ghost use Rattle.watch_merge.specs.Standing.{Stands};

    ghost Value = { Parts };

    ghost view = { λ b. record { streams = b.streams.items; watches = map shown b.watches.items; given = b.given; step = b.step } };

    ghost invariant = { λ b. Stands b.given b.streams.items (map shown b.watches.items) b.index b.idle };
}

impl Broadcasts {
    /// No streams and no watches.
    pub fn new(alloc: Global) -> Broadcasts
        ensures { result ≡ first_broadcasts }
    {
        Broadcasts {
            alloc,
            streams: Vec::new(alloc),
            index: RangeIndex::new(alloc),
            watches: Vec::new(alloc),
            given: 0,
            step: 0,
            idle: true,
        }
    }

    /// Whether the watch with this ticket is known.
    pub fn is_known(&self, ticket: u64) -> bool
        ensures known { result ≡ is_some (watch_at ticket self.now.watches) }
        ensures unknown { result ≡ false → watch_at ticket self.now.watches ≡ None }
    {
        match place_of_watch(ticket, &self.watches) {
            None => false,
            Some(_) => true,
        }
    }

    /// Whether a message waits for the watch with this ticket.
    pub fn has_message(&self, ticket: u64) -> bool
        ensures { result ≡ has_message (watch_at ticket self.now.watches) }
    {
        has_message(ticket, &self.watches)
    }

    /// How far the opening of the stream with this number has come, or nothing where it isn't known.
    pub fn phase(&self, stream: u64) -> Option<StreamPhase>
        ensures { result ≡ option_map (λ s. s.phase) (stream_at stream self.now.streams) }
    {
        phase_of(stream, &self.streams)
    }

    /// The first ticket, from this one on, of a watch that belongs to the stream with this number. Asked again from behind each,
    /// it tells the stream's members in order, who alone are told of what the stream brings.
    pub fn member_from(&self, stream: u64, from: u64) -> Option<u64>
        ensures { result ≡ first_from from (members_of stream self.now.watches) }
    {
        member_from(stream, from, &self.watches)
    }

    /// How many stream numbers were given.
    pub fn given(&self) -> u64
        ensures { result ≡ self.now.given }
    {
        self.given
    }

    /// What becomes due from here on became due at this step.
    pub fn begin_step(&mut self, step: u64)
        ensures { self.new ≡ record self.old { step = step } }
    {
        self.step = step;
    }

    /// The next stream number, for a stream that isn't a client's.
    pub fn take_number(&mut self) -> u64
        requires { self.old.given < 2 ^ 63 }
        ensures number { result ≡ self.old.given + 1 }
        ensures given { self.new ≡ record self.old { given = self.old.given + 1 } }
    {
        self.given += 1;
        self.given
    }

    /// A stream was cut. The number under which it is due again, or none where there is no such stream or it was due to
    /// be closed.
    pub fn cut(&mut self, stream: u64) -> Option<u64>
        requires { self.old.given < 2 ^ 63 }
        ensures again { result ≡ cut_answer self.old (stream_at stream self.old.streams) }
        ensures state { self.new ≡ cut_at self.old (stream_at stream self.old.streams) }
    {
        let at = place_of(stream, &self.streams)?;
        self.idle = false;
        self.index.dropped(stream);
        if is_closing(self.streams[at].phase) {
            drop(self.streams.remove(at));
            return None;
        }
        self.given += 1;
        self.index.opened(self.given, range_of(&self.streams[at]));
        reopen(at, self.given, self.step, &mut self.streams);
        renumber(stream, self.given, &mut self.watches);
        Some(self.given)
    }

    /// Streams of the range that stand created with equal next become one: the lowest number keeps all members, and the
    /// others are due to be closed.
    pub fn merge_equal(&mut self, range: &KeyRange)
        ensures { self.new ≡ merged range.now self.old }
    {
        if !any_twins(&self.index, range, &self.streams) {
            return;
        }
        self.idle = false;
        move_members(range, &self.streams, &mut self.watches);
        close_others(range, self.step, &mut self.streams);
    }
}
