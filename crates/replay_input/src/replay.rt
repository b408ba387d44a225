ghost use Rattle.std.specs.Prelude.{◌≡◌, ◌≢◌, ◌+◌, ◌<◌, ◌≤◌, ◌==◌, true, Ok, None, length, take, ◌∷◌, ◌++◌, [], List, ℕ, Option, IfOk, IfErr, OnOk};
ghost use Rattle.std.specs.Prelude.{OnErr, MatchOption, string_bytes};
ghost use Rattle.std.specs.List.{position as first_place};
ghost use Rattle.outside.specs.Faults.{HasCause, Rose};
ghost use Rattle.outside.specs.Reads.{ReadsWhile};
ghost use Rattle.outside.specs.Streams.{WritesFront};
ghost use Rattle.replay_model.specs.Endings.{is_open};
ghost use Rattle.replay_model.specs.Script.{line_feed};
ghost use Rattle.replay_model.specs.declared.limits.TheConstants.{MOST_BYTES};
ghost use Rattle.replay_input.specs.Replay.{HasNoFeed};
ghost use Rattle.replay_input.specs.Replays.{Replays, Stops, Has, Turns, NoneIsRefused, most_at_once};
ghost use Rattle.replay_input.specs.Reads.{ReadsInTurn, LeavesRead};

use crate::script::Script;
use crate::stop::Stop;
use core_face::ProxyCore;
use etcd_types::NoMemory;
use outside::{Failed, Sink, Source, write_whole};
use replay_model::Ending;
use std::alloc::Global;

/// How many bytes may be pending before they are written.
const MOST_PENDING: usize = 65536;

/// A part of a piece that was taken: so many bytes, and whether a line of them ended the script.
#[derive(Clone, Copy)]
struct Part {
    ending: Ending,
    count: usize,
}

/// A script's bytes as far as they were taken.
#[derive(Drop)]
pub(crate) struct Replay<C: ProxyCore> {
    script: Script<C>,
    line: Vec<u8>,
    pending: String,
}

impl<C: ProxyCore> Replay<C> {
    ghost use Rattle.replay_input.specs.Replay.{Follows, IsUnderWay, TakesPart, TakesEnd, Feeds, Writes, Moves, Breaks, Finishes, taken_of, text_so_far, text_of};

    pub(crate) fn new(alloc: Global) -> Replay<C>
        ensures follows { Follows result [] }
        ensures nothing { string_bytes result.pending ≡ [] }
    {
        Replay {
            script: Script::new(alloc),
            line: Vec::new(alloc),
            pending: String::new(alloc),
        }
    }

    /// Takes the end of a line, up to its line feed. Where it refuses the line, nothing is taken behind it.
    fn take_line(&mut self, rest: &[u8]) -> Result<Ending, NoMemory>
        requires way { IsUnderWay self.old }
        requires one { HasNoFeed rest.now }
        ensures taken { (bytes : List ℕ) → Follows self.old bytes → IfOk result (λ ending. TakesPart self.old self.new bytes (rest.now ++ line_feed ∷ []) ending) }
        ensures count { IfOk result (λ ending. is_open ending ≡ true → taken_of self.new ≡ taken_of self.old + length rest.now + 1) }
        ensures few { IfOk result (λ ending. is_open ending ≡ true → taken_of self.new ≤ MOST_BYTES) }
    {
        if self.line.is_empty() {
            return Ok(self.script.take_line(rest, true, &mut self.pending)?);
        }
        self.line.extend_from_slice(rest)?;
        let ending = self
            .script
            .take_line(self.line.as_slice(), true, &mut self.pending)?;
        self.line.clear();
        Ok(ending)
    }

    /// Takes bytes of a line, which no line feed follows so far.
    fn take_front(&mut self, front: &[u8]) -> Result<Ending, NoMemory>
        requires way { IsUnderWay self.old }
        requires one { HasNoFeed front.now }
        requires some { 0 < length front.now }
        ensures taken { (bytes : List ℕ) → Follows self.old bytes → IfOk result (λ ending. TakesPart self.old self.new bytes front.now ending) }
        ensures count { IfOk result (λ ending. is_open ending ≡ true → taken_of self.new ≡ taken_of self.old + length front.now) }
        ensures few { IfOk result (λ ending. is_open ending ≡ true → taken_of self.new ≤ MOST_BYTES) }
    {
        self.line.extend_from_slice(front)?;
        if self.script.is_past_limit(self.line.as_slice()) {
            return Ok(Ending::PastLimit);
        }
        Ok(Ending::Open)
    }

    /// Takes the bytes up to the first line feed, or all of them, and says how many they are.
    fn take_part(&mut self, rest: &[u8]) -> Result<Part, NoMemory>
        requires way { IsUnderWay self.old }
        requires some { 0 < length rest.now }
        ensures part { IfOk result (λ part. (0 < part.count) × (part.count ≤ length rest.now)) }
        ensures taken { (bytes : List ℕ) → Follows self.old bytes → IfOk result (λ part. TakesPart self.old self.new bytes (take part.count rest.now) part.ending) }
        ensures count { IfOk result (λ part. is_open part.ending ≡ true → taken_of self.new ≡ taken_of self.old + part.count) }
        ensures few { IfOk result (λ part. is_open part.ending ≡ true → taken_of self.new ≤ MOST_BYTES) }
    {
        match first_feed(rest) {
            Some(end) => Ok(Part {
                ending: self.take_line(&rest[..end])?,
                count: end + 1,
            }),
            None => Ok(Part {
                ending: self.take_front(rest)?,
                count: rest.len(),
            }),
        }
    }

    /// Takes the end of the input: a last line without line feed is a line, too.
    fn take_end(&mut self) -> Result<Ending, NoMemory>
        requires { IsUnderWay self.old }
        ensures { (bytes : List ℕ) → Follows self.old bytes → IfOk result (λ ending. TakesEnd self.old self.new bytes ending) }
    {
        if self.line.is_empty() {
            return Ok(Ending::Open);
        }
        Ok(
            self.script
                .take_line(self.line.as_slice(), false, &mut self.pending)?,
        )
    }

    /// Writes what is pending.
    fn flush<K: Sink>(&mut self, output: &mut K) -> Result<(), Stop>
        ensures same { self.new ≡ record self.old { pending = self.new.pending } }
        ensures ok { OnOk result (Moves (K.written output.old) (K.written output.new) (string_bytes self.old.pending) (string_bytes self.new.pending)) }
        ensures nothing { OnOk result (string_bytes self.new.pending ≡ []) }
        ensures err { OnErr result (Breaks (K.written output.old) (K.written output.new) (string_bytes self.old.pending)) }
        ensures fault { IfErr result (λ stop. stop ≡ Stop.WriteFault) }
        ensures cause { HasCause (K.faults output.old) (K.faults output.new) result }
    {
        match write_whole(output, self.pending.as_bytes()) {
            Ok(()) => {
                self.pending.clear();
                Ok(())
            }
            Err(Failed) => Err(Stop::WriteFault),
        }
    }

    /// Writes what is pending where that is much.
    fn flush_much<K: Sink>(&mut self, output: &mut K) -> Result<(), Stop>
        ensures same { self.new ≡ record self.old { pending = self.new.pending } }
        ensures ok { OnOk result (Moves (K.written output.old) (K.written output.new) (string_bytes self.old.pending) (string_bytes self.new.pending)) }
        ensures err { OnErr result (Breaks (K.written output.old) (K.written output.new) (string_bytes self.old.pending)) }
        ensures fault { IfErr result (λ stop. stop ≡ Stop.WriteFault) }
        ensures cause { HasCause (K.faults output.old) (K.faults output.new) result }
    {
        if self.pending.len() < MOST_PENDING {
            return Ok(());
        }
        Ok(self.flush(output)?)
    }

    /// Takes a piece of the script, up to the first line that is refused.
    fn feed<K: Sink>(&mut self, piece: &[u8], output: &mut K) -> Result<Ending, Stop>
        requires { IsUnderWay self.old }
        ensures fed { (start : Option (List ℕ)) (bytes : List ℕ) → Follows self.old bytes
            → Writes start (K.written output.old) (string_bytes self.old.pending) (text_so_far bytes)
            → IfOk result (Feeds start (K.written output.new) self.new (bytes ++ piece.now)) }
        ensures stopped { (start : Option (List ℕ)) (bytes : List ℕ) → Follows self.old bytes
            → Writes start (K.written output.old) (string_bytes self.old.pending) (text_so_far bytes)
            → OnErr result (WritesFront start (K.written output.new) (text_so_far (bytes ++ piece.now))) }
        ensures count { IfOk result (λ ending. is_open ending ≡ true → taken_of self.new ≡ taken_of self.old + length piece.now) }
        ensures few { IfOk result (λ ending. is_open ending ≡ true → 0 < length piece.now → taken_of self.new ≤ MOST_BYTES) }
        ensures kept { K.faults output.old ≤ K.faults output.new }
        ensures cause { IfErr result (λ stop. stop ≡ Stop.WriteFault → Rose (K.faults output.old) (K.faults output.new)) }
        ensures no_read { IfErr result (λ stop. stop ≢ Stop.ReadFault) }
    {
        let mut at = 0;
        while at < piece.len() {
            let part = self.take_part(&piece[at..])?;
            if !part.ending.is_open() {
                return Ok(part.ending);
            }
            at += part.count;
            self.flush_much(output)?;
        }
        Ok(Ending::Open)
    }

    /// Takes the end of the script, and writes what is pending.
    fn finish<K: Sink>(&mut self, output: &mut K) -> Result<Ending, Stop>
        requires { IsUnderWay self.old }
        ensures finished { (start : Option (List ℕ)) (bytes : List ℕ) → Follows self.old bytes
            → Writes start (K.written output.old) (string_bytes self.old.pending) (text_so_far bytes)
            → IfOk result (Finishes start (K.written output.new) bytes) }
        ensures stopped { (start : Option (List ℕ)) (bytes : List ℕ) → Follows self.old bytes
            → Writes start (K.written output.old) (string_bytes self.old.pending) (text_so_far bytes)
            → OnErr result (WritesFront start (K.written output.new) (text_of bytes)) }
        ensures kept { K.faults output.old ≤ K.faults output.new }
        ensures cause { IfErr result (λ stop. stop ≡ Stop.WriteFault → Rose (K.faults output.old) (K.faults output.new)) }
        ensures no_read { IfErr result (λ stop. stop ≢ Stop.ReadFault) }
    {
        let ending = self.take_end()?;
        self.flush(output)?;
        Ok(ending)
    }

    /// Reads a piece, takes it, and writes what it gained. An ending comes at the end of the input, or with a line that is refused.
    fn turn<S: Source, K: Sink>(
        &mut self,
        room: &mut [u8],
        input: &mut S,
        output: &mut K,
    ) -> Result<Option<Ending>, Stop>
        requires way { IsUnderWay self.old }
        requires room { 0 < length room.old }
        requires small { length room.old ≤ most_at_once }
        ensures turned { (left start : Option (List ℕ)) (read : List ℕ)
            → Has left start (S.left input.old) (K.written output.old) self.old read
            → Turns left start (S.left input.new) (K.written output.new) self.new result }
        ensures in_turn { (from : S) (start : Option (List ℕ)) (read : List ℕ)
            → Has (S.left from) start (S.left input.old) (K.written output.old) self.old read
            → ReadsWhile S.reads most_at_once NoneIsRefused from input.old read
            → LeavesRead S.reads S.left from input.new start (K.written output.new) self.new result }
        ensures count { result ≡ Ok None → taken_of self.old < taken_of self.new }
        ensures few { result ≡ Ok None → taken_of self.new ≤ MOST_BYTES }
        ensures kept_input { S.faults input.old ≤ S.faults input.new }
        ensures kept_output { K.faults output.old ≤ K.faults output.new }
        ensures read_cause { IfErr result (λ stop. stop ≡ Stop.ReadFault → Rose (S.faults input.old) (S.faults input.new)) }
        ensures write_cause { IfErr result (λ stop. stop ≡ Stop.WriteFault → Rose (K.faults output.old) (K.faults output.new)) }
    {
        let count = match input.read(room) {
            Ok(count) => count,
            Err(Failed) => return Err(Stop::ReadFault),
        };
        if count == 0 {
            return Ok(Some(self.finish(output)?));
        }
        let ending = self.feed(&room[..count], output)?;
        self.flush(output)?;
        if ending.is_open() {
            Ok(None)
        } else {
            Ok(Some(ending))
        }
    }
}

/// Where the first line feed is.
fn first_feed(bytes: &[u8]) -> Option<usize>
    ensures { MatchOption result (HasNoFeed bytes.now) (λ end. (end < length bytes.now)
        × HasNoFeed (take end bytes.now) × (take (end + 1) bytes.now ≡ take end bytes.now ++ line_feed ∷ [])) }
{
    position(bytes)
}

fn position(bytes: &[u8]) -> Option<usize>
    ensures { result ≡ first_place (λ b. b == line_feed) bytes.now }
{
    bytes.iter().position(|b| *b == b'\n')
}

/// How many bytes are read at once.
const ROOM: usize = 65536;

/// Replays the script that `input` gives, and writes its transcript to `output`. `C` is the machine of each proxy.
///
/// It answers how the script ended: `Open` where no line is refused, `Refused` at the first line that is, `PastLimit` where that
/// line passes a limit. `ReadFault` comes where the input failed, `WriteFault` where the output did, `NoMemory` where memory was
/// wanting.
pub fn replay_script<C: ProxyCore, S: Source, K: Sink>(
    alloc: Global,
    input: &mut S,
    output: &mut K,
) -> Result<Ending, Stop>
    ensures ended { IfOk result (Replays (S.left input.old) (S.left input.new) (K.written output.old) (K.written output.new)) }
    ensures stopped { IfErr result (Stops (S.left input.old) (S.left input.new) (K.written output.old) (K.written output.new)) }
    ensures in_turn { ReadsInTurn S.reads S.left input.old input.new }
    ensures read_cause { IfErr result (λ stop. stop ≡ Stop.ReadFault → Rose (S.faults input.old) (S.faults input.new)) }
    ensures write_cause { IfErr result (λ stop. stop ≡ Stop.WriteFault → Rose (K.faults output.old) (K.faults output.new)) }
{
    let mut room = Vec::from_elem(alloc, 0u8, ROOM)?;
    let mut replay = Replay::<C>::new(alloc);
    'turns: loop {
        match replay.turn(room.as_mut_slice(), input, output)? {
            Some(ending) => return Ok(ending),
            None => {}
        }
    }
}
