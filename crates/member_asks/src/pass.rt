ghost use Rattle.std.specs.Prelude.{◌≡◌, IfOk};
ghost use Rattle.member_asks.specs.Passing as spec;

use crate::call::AskFault;
use etcd_types::{Bytes, NoMemory};
use http_wire::{Wire, WireFault, write_call};
use outside::{AnswerEnd, CallKind, Link, LinkFault, Source};
use std::alloc::Global;

/// An answer that is given back has a body of so many bytes at most.
pub const STATUS_LIMIT: usize = 4_194_304;

/// What a member answered, as it came.
#[derive(Debug, Drop)]
pub struct Passed {
    /// The status, from 0 to 999.
    pub status: u16,
    pub body: Bytes,
}

/// The bytes of a call of the status of a member, with this body.
fn status_call(alloc: Global, host: &[u8], body: &[u8]) -> Result<Bytes, NoMemory>
    ensures { IfOk result (λ bytes. bytes ≡ spec.status_call host.now body.now) }
{
    Ok(write_call(alloc, host, b"/v3/maintenance/status", body)?)
}

/// What a fault of the wire over an answer says.
fn lost_by(fault: WireFault) -> AskFault {
    match fault {
        WireFault::WriteFault | WireFault::NoMemory => AskFault::NoMemory,
        _ => AskFault::Lost,
    }
}

/// Reads an answer whole.
fn read<S: Source>(alloc: Global, source: &mut S) -> Result<Passed, AskFault>
    ensures { IfOk result (λ passed. spec.Reads (S.left source.old) passed.status passed.body) }
{
    let Ok(mut wire) = Wire::new(alloc) else {
        return Err(AskFault::NoMemory);
    };
    let head = match wire.read_answer(source) {
        Ok(head) => head,
        Err(fault) => return Err(lost_by(fault)),
    };
    match wire.read_whole(source, head.framing, STATUS_LIMIT) {
        Ok(body) => Ok(Passed {
            status: head.status,
            body,
        }),
        Err(fault) => Err(lost_by(fault)),
    }
}

/// Passes a call of the status of a member on to it, with this body, by one call on the link, and gives its answer back as it came. A status
/// changes nothing, and no other path is passed on. For want of memory the call may not be made.
pub fn pass_status<L: Link>(
    alloc: Global,
    link: &mut L,
    host: &[u8],
    member: u32,
    body: &[u8],
) -> Result<Passed, AskFault>
    ensures { spec.Passes host.now member body.now (L.made link.old) (L.made link.new) result }
{
    let Ok(bytes) = status_call(alloc, host, body) else {
        return Err(AskFault::NoMemory);
    };
    match link.begin(member, CallKind::Asks, bytes.as_slice()) {
        Ok(answer) => {
            let mut source = answer;
            let passed = read(alloc, &mut source);
            link.end(source, AnswerEnd::Broken);
            passed
        }
        Err(LinkFault::Failed) => Err(AskFault::Lost),
        Err(LinkFault::NoMemory) => Err(AskFault::NoMemory),
    }
}
