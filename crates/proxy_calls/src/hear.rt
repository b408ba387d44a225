ghost use Rattle.std.specs.Prelude.{◌≡◌};
ghost use Rattle.server_model.specs.Calls.{Heard, Says, end_of, lost_by, tells};

use api_reply::decode_reply;
use call_kinds::is_known;
use etcd_types::{Answer, Request};
use http_wire::{AnswerHead, Framing, Wire, WireFault};
use json_model::NotReply;
use outside::{AnswerEnd, CALL_LIMIT, Source};
use server_model::CallFault;
use std::alloc::Global;

/// Whether an answer says what became of its call.
fn tells(answer: &Answer) -> bool
    ensures { result ≡ tells answer.now }
{
    match answer {
        Answer::Done(_) => true,
        Answer::Refused(refusal) => is_known(refusal.code),
    }
}

/// What a fault of the wire over an answer says.
fn lost_by(fault: WireFault) -> CallFault
    ensures { result ≡ lost_by fault }
{
    match fault {
        WireFault::WriteFault | WireFault::NoMemory => CallFault::NoMemory,
        WireFault::ReadFault
        | WireFault::BadHead
        | WireFault::HeadTooLong
        | WireFault::BodyTooLong
        | WireFault::BadChunk
        | WireFault::EndedEarly => CallFault::Lost,
    }
}

/// How an answer with this head ended that was read whole, by whether nothing was read beyond it.
fn end_of(head: AnswerHead, is_clear: bool) -> AnswerEnd
    ensures { result ≡ end_of head is_clear }
{
    let is_to_end = matches!(head.framing, Framing::ToEnd);
    if !head.closes && head.status >= 200 && !is_to_end && is_clear {
        AnswerEnd::Whole
    } else {
        AnswerEnd::Broken
    }
}

/// What an answer of this status and body says to a request.
fn say(alloc: Global, request: &Request, status: u16, body: &[u8]) -> Result<Answer, CallFault>
    ensures { Says request.now status body.now result }
{
    match decode_reply(alloc, request, status, body) {
        Ok(answer) => {
            if tells(&answer) {
                Ok(answer)
            } else {
                Err(CallFault::Lost)
            }
        }
        Err(NotReply::Unreadable) => Err(CallFault::Lost),
        Err(NotReply::NoMemory) => Err(CallFault::NoMemory),
    }
}

/// Reads an answer whole. What it says to a request, and how far it was read.
pub(crate) fn hear<S: Source>(
    alloc: Global,
    request: &Request,
    source: &mut S,
) -> (Result<Answer, CallFault>, AnswerEnd)
    requires fresh { S.faults source.old ≡ 0 }
    ensures { Heard request.now (S.left source.old) (S.left source.new) (S.faults source.new)
        result.1 result.0 }
{
    let Ok(mut wire) = Wire::new(alloc) else {
        return (Err(CallFault::NoMemory), AnswerEnd::Broken);
    };
    let head = match wire.read_answer(source) {
        Ok(head) => head,
        Err(fault) => {
            let why = lost_by(fault);
            return (Err(why), AnswerEnd::Broken);
        }
    };
    let body = match wire.read_whole(source, head.framing, CALL_LIMIT) {
        Ok(body) => body,
        Err(fault) => {
            let why = lost_by(fault);
            return (Err(why), AnswerEnd::Broken);
        }
    };
    let said = say(alloc, request, head.status, body.as_slice());
    let how = end_of(head, wire.is_clear());
    (said, how)
}
