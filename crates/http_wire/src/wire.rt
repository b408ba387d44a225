ghost use Rattle.std.specs.Prelude.{◌≡◌, ◌≤◌, ◌↔◌, [], None, IfOk, IfErr, IfSome, IsErrOf, IsTrue};
ghost use Rattle.outside.specs.Faults.{Rose};

use crate::buffer::Buffer;
use crate::fault::WireFault;
use crate::heads::{next_answer, next_head};
use crate::lines::whole_line;
use crate::message::{AnswerHead, Framing, Head};
use crate::turns::{request_body, whole_body};
use etcd_types::{Bytes, NoMemory};
use outside::Source;
use std::alloc::Global;
use std::marker::Model;

/// The reading end of a connection: the bytes that were read from its source and not used yet. Each call takes the
/// source, and reads from it no more than it needs. What a call gives depends on the bytes alone, in whatever pieces
/// they come. After a fault, want of memory too, each reading call answers that fault again.
///
/// It begins with 4 KB and grows with what it has to hold at once, up to twice the limit of a head. Where it grew above 16 KB and
/// holds nothing, it begins anew before the next head is read.
#[derive(Debug, Drop)]
pub struct Wire {
    buffer: Buffer,
    fault: Option<WireFault>,
    alloc: Global,
}

impl Model for Wire {
    ghost use Rattle.http_wire.specs.Connections.{WireState};

    ghost Value = { WireState };

    ghost use Rattle.http_wire.specs.Held.{held};

    ghost view = { λ w. record { held = held w.buffer; fault = w.fault } };
}

impl Wire {
    ghost use Rattle.http_wire.specs.Bodies.{BodyRead, WholeRead};
    ghost use Rattle.http_wire.specs.Connections.{bytes_ahead, fault_after, IsOfReading, Repeats};
    ghost use Rattle.http_wire.specs.Heads.{HeadRead, AnswerRead};
    ghost use Rattle.http_wire.specs.Held.{ReadsAhead};
    ghost use Rattle.http_wire.specs.Steps.{NextLine};

    /// A wire that holds nothing yet.
    pub fn new(alloc: Global) -> Result<Wire, NoMemory>
        ensures held { IfOk result (λ wire. wire.held ≡ []) }
        ensures fault { IfOk result (λ wire. wire.fault ≡ None) }
    {
        let buffer = Buffer::new(alloc)?;
        Ok(Wire {
            buffer,
            fault: None,
            alloc,
        })
    }

    /// Whether no byte is held: all that was read of the source was used.
    pub fn is_clear(&self) -> bool
        ensures { IsTrue result ↔ (self.now.held ≡ []) }
    {
        self.buffer.is_empty()
    }

    /// The head of the next request, or none where the bytes end before it. The source hears that a head was read.
    ///
    /// BadHead, HeadTooLong and EndedEarly say what the bytes are; ReadFault that the source failed.
    pub fn read_head<S: Source>(&mut self, source: &mut S) -> Result<Option<Head>, WireFault>
        ensures read { self.old.fault ≡ None → ReadsAhead HeadRead (bytes_ahead (S.left source.old) self.old)
            (bytes_ahead (S.left source.new) self.new) result }
        ensures fault { self.old.fault ≡ None → self.new.fault ≡ fault_after result }
        ensures again { IfSome self.old.fault (λ fault. Repeats fault self.old self.new source.old source.new result) }
        ensures reading { self.old.fault ≡ None → IfErr result IsOfReading }
        ensures cause { self.old.fault ≡ None → IsErrOf result WireFault.ReadFault → Rose (S.faults source.old) (S.faults source.new) }
        ensures kept { S.faults source.old ≤ S.faults source.new }
    {
        if let Some(fault) = self.fault {
            return Err(fault);
        }
        self.buffer.settle();
        let head = next_head(self.alloc, &mut self.buffer, source);
        self.remember(head)
    }

    /// The body that follows a request's head. The source hears that it was read.
    ///
    /// BodyTooLong comes as soon as its length, or the size of a chunk, says more than the limit; BadChunk, EndedEarly and,
    /// for a trailer, BadHead and HeadTooLong say what the bytes are; ReadFault that the source failed.
    pub fn read_body<S: Source>(&mut self, source: &mut S, head: &Head) -> Result<Bytes, WireFault>
        ensures read { self.old.fault ≡ None → ReadsAhead (BodyRead head.now.framing) (bytes_ahead (S.left source.old) self.old)
            (bytes_ahead (S.left source.new) self.new) result }
        ensures fault { self.old.fault ≡ None → self.new.fault ≡ fault_after result }
        ensures again { IfSome self.old.fault (λ fault. Repeats fault self.old self.new source.old source.new result) }
        ensures reading { self.old.fault ≡ None → IfErr result IsOfReading }
        ensures cause { self.old.fault ≡ None → IsErrOf result WireFault.ReadFault → Rose (S.faults source.old) (S.faults source.new) }
        ensures kept { S.faults source.old ≤ S.faults source.new }
    {
        if let Some(fault) = self.fault {
            return Err(fault);
        }
        let body = request_body(self.alloc, &mut self.buffer, source, head.framing);
        self.remember(body)
    }

    /// The head of the next answer. One with a status of 1xx is given like any other.
    ///
    /// BadHead, HeadTooLong and EndedEarly say what the bytes are; ReadFault that the source failed.
    pub fn read_answer<S: Source>(&mut self, source: &mut S) -> Result<AnswerHead, WireFault>
        ensures read { self.old.fault ≡ None → ReadsAhead AnswerRead (bytes_ahead (S.left source.old) self.old)
            (bytes_ahead (S.left source.new) self.new) result }
        ensures fault { self.old.fault ≡ None → self.new.fault ≡ fault_after result }
        ensures again { IfSome self.old.fault (λ fault. Repeats fault self.old self.new source.old source.new result) }
        ensures reading { self.old.fault ≡ None → IfErr result IsOfReading }
        ensures cause { self.old.fault ≡ None → IsErrOf result WireFault.ReadFault → Rose (S.faults source.old) (S.faults source.new) }
        ensures kept { S.faults source.old ≤ S.faults source.new }
    {
        if let Some(fault) = self.fault {
            return Err(fault);
        }
        let answer = next_answer(&mut self.buffer, source);
        self.remember(answer)
    }

    /// The whole body of an answer, of at most `most` bytes.
    ///
    /// The faults are those of a request's body, by this limit.
    pub fn read_whole<S: Source>(
        &mut self,
        source: &mut S,
        framing: Framing,
        most: usize,
    ) -> Result<Bytes, WireFault>
        ensures read { self.old.fault ≡ None → ReadsAhead (WholeRead most framing) (bytes_ahead (S.left source.old) self.old)
            (bytes_ahead (S.left source.new) self.new) result }
        ensures fault { self.old.fault ≡ None → self.new.fault ≡ fault_after result }
        ensures again { IfSome self.old.fault (λ fault. Repeats fault self.old self.new source.old source.new result) }
        ensures reading { self.old.fault ≡ None → IfErr result IsOfReading }
        ensures cause { self.old.fault ≡ None → IsErrOf result WireFault.ReadFault → Rose (S.faults source.old) (S.faults source.new) }
        ensures kept { S.faults source.old ≤ S.faults source.new }
    {
        if let Some(fault) = self.fault {
            return Err(fault);
        }
        let body = whole_body(self.alloc, &mut self.buffer, source, framing, most);
        self.remember(body)
    }

    /// The next line of a body, with its line feed where it has one, or none at the body's end. The framing says how the
    /// rest of the body goes on. A line has at most `most` bytes, its line feed counted; `LINE_LIMIT` is the usual limit.
    ///
    /// BodyTooLong comes where more of the line came than the limit; the other faults are those of a body.
    pub fn next_line<S: Source>(
        &mut self,
        source: &mut S,
        framing: &mut Framing,
        most: usize,
    ) -> Result<Option<Bytes>, WireFault>
        ensures read { self.old.fault ≡ None → ReadsAhead (NextLine most framing.old framing.new) (bytes_ahead (S.left source.old) self.old)
            (bytes_ahead (S.left source.new) self.new) result }
        ensures fault { self.old.fault ≡ None → self.new.fault ≡ fault_after result }
        ensures again { IfSome self.old.fault (λ fault. Repeats fault self.old self.new source.old source.new result) }
        ensures reading { self.old.fault ≡ None → IfErr result IsOfReading }
        ensures cause { self.old.fault ≡ None → IsErrOf result WireFault.ReadFault → Rose (S.faults source.old) (S.faults source.new) }
        ensures kept { S.faults source.old ≤ S.faults source.new }
    {
        if let Some(fault) = self.fault {
            return Err(fault);
        }
        let line = whole_line(self.alloc, &mut self.buffer, source, framing, most);
        self.remember(line)
    }

    /// Gives the outcome on, and keeps its fault.
    fn remember<T>(&mut self, outcome: Result<T, WireFault>) -> Result<T, WireFault>
        requires { self.old.fault ≡ None }
        ensures given { result ≡ outcome }
        ensures held { self.new.held ≡ self.old.held }
        ensures fault { self.new.fault ≡ fault_after outcome }
    {
        match outcome {
            Ok(value) => Ok(value),
            Err(fault) => {
                self.fault = Some(fault);
                Err(fault)
            }
        }
    }
}
