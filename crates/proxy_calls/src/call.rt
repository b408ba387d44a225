ghost use Rattle.std.specs.Prelude.{◌≡◌, IfOk};
ghost use Rattle.server_model.specs.Calls.{IsCalled, call_of, kept_call_of, lost_on};

use crate::hear::hear;
use api_request::encode_request;
use etcd_types::{Answer, Bytes, NoMemory, Request};
use http_wire::{write_call, write_kept_call};
use outside::{CallKind, Link, LinkFault};
use server_model::CallFault;
use std::alloc::Global;

/// The bytes of a request's call to a host, which asks for the connection's end behind its answer.
pub fn call_bytes(alloc: Global, host: &[u8], request: &Request) -> Result<Bytes, NoMemory>
    ensures { IfOk result (λ bytes. bytes ≡ call_of host.now request.now) }
{
    let (path, body) = encode_request(alloc, request)?;
    Ok(write_call(alloc, host, path.as_slice(), body.as_slice())?)
}

/// The bytes of a request's call to a host, behind whose answer the connection may stay.
fn kept_call_bytes(alloc: Global, host: &[u8], request: &Request) -> Result<Bytes, NoMemory>
    ensures { IfOk result (λ bytes. bytes ≡ kept_call_of host.now request.now) }
{
    let (path, body) = encode_request(alloc, request)?;
    Ok(write_kept_call(alloc, host, path.as_slice(), body.as_slice())?)
}

/// What a link's failure says of its call.
fn lost_on(fault: LinkFault) -> CallFault
    ensures { result ≡ lost_on fault }
{
    match fault {
        LinkFault::Failed => CallFault::Lost,
        LinkFault::NoMemory => CallFault::NoMemory,
    }
}

/// Makes one call of a request to a member, and says what its answer is. The answer is given back to the link, which hears whether its
/// connection may carry another call. For want of memory the call may not be made.
pub fn make_call<L: Link>(
    alloc: Global,
    link: &mut L,
    host: &[u8],
    member: u32,
    kind: CallKind,
    request: &Request,
) -> Result<Answer, CallFault>
    ensures { IsCalled host.now member kind request.now (L.made link.old) (L.made link.new)
        (L.faults link.old) (L.faults link.new) result }
{
    let Ok(bytes) = kept_call_bytes(alloc, host, request) else {
        return Err(CallFault::NoMemory);
    };
    match link.begin(member, kind, bytes.as_slice()) {
        Ok(answer) => {
            let mut source = answer;
            let (said, how) = hear(alloc, request, &mut source);
            link.end(source, how);
            said
        }
        Err(fault) => Err(lost_on(fault)),
    }
}
