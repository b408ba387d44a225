ghost use Rattle.std.specs.Prelude.{◌≡◌, ◌≤◌, IfOk, IfErr, IsErrOf, codes, nat_eq};
ghost use Rattle.std.specs.Cmp.Lexicographic.{pointwise};
ghost use Rattle.outside.specs.Faults.{Rose};
ghost use Rattle.http_wire.specs.Written.{Writes};
ghost use Rattle.http_talk.specs.Refusals as spec;
ghost use Rattle.http_talk.specs.Telling.{IsOfWriting};

use crate::form::{RefusalForm, encode_by};
use crate::ready::Ready;
use crate::refused::Refused;
use etcd_types::code::{INVALID_ARGUMENT, NOT_FOUND, UNIMPLEMENTED};
use etcd_types::{Answer, Bytes, NoMemory, Refusal};
use http::Method;
use http_wire::{WireFault, write_bodiless_reply, write_reply};
use json_model::ApiFault;
use outside::Sink;
use std::alloc::Global;

fn is_head(method: &Method) -> bool
    ensures { result ≡ pointwise nat_eq method.now (codes "HEAD") }
{
    method.as_str() == "HEAD"
}

fn code_of(refused: &Refused) -> u32
    ensures { result ≡ spec.refused_code refused.now }
{
    match refused {
        Refused::Encoding | Refused::Method | Refused::Request(ApiFault::Unsupported(_)) => {
            UNIMPLEMENTED
        }
        Refused::Request(ApiFault::NoSuchPath) => NOT_FOUND,
        Refused::Bytes | Refused::Request(_) => INVALID_ARGUMENT,
    }
}

#[tactic(auto, unfolding(crate::specs::Refusals::refused_words))]
fn words(alloc: Global, refused: &Refused) -> Result<Bytes, NoMemory>
    ensures { IfOk result (λ words. words ≡ spec.refused_words refused.now) }
{
    match refused {
        Refused::Bytes => Bytes::from_slice(alloc, b"proxy: bad request"),
        Refused::Encoding => Bytes::from_slice(alloc, b"proxy: unsupported: Content-Encoding"),
        Refused::Method => Bytes::from_slice(alloc, b"proxy: method not allowed"),
        Refused::Request(fault) => fault.words(alloc),
    }
}

/// The status and the body of a refusal.
fn refusal(alloc: Global, form: RefusalForm, refused: &Refused) -> Result<(u16, Bytes), NoMemory>
    ensures status { IfOk result (λ r. r.0 ≡ spec.refused_status refused.now) }
    ensures text { IfOk result (λ r. r.1 ≡ spec.refused_body form refused.now) }
{
    let answer = Answer::Refused(Refusal {
        code: code_of(refused),
        text: words(alloc, refused)?,
    });
    let (status, body) = encode_by(alloc, form, &answer)?;
    match refused {
        Refused::Method => Ok((405, body)),
        Refused::Bytes | Refused::Encoding | Refused::Request(_) => Ok((status, body)),
    }
}

/// Refuses bytes that are no request.
#[tactic(auto, unfolding(crate::specs::Refusals::refusal))]
pub fn refuse<K: Sink>(
    alloc: Global,
    form: RefusalForm,
    sink: &mut K,
    refused: &Refused,
) -> Result<(), WireFault>
    ensures written { Writes (K.written sink.old) (K.written sink.new)
        (spec.refusal form refused.now) result }
    ensures fault { IfErr result IsOfWriting }
    ensures cause { IsErrOf result WireFault.WriteFault
        → Rose (K.faults sink.old) (K.faults sink.new) }
    ensures kept { K.faults sink.old ≤ K.faults sink.new }
{
    let Ok((status, body)) = refusal(alloc, form, refused) else {
        return Err(WireFault::NoMemory);
    };
    write_reply(alloc, sink, status, body.as_slice())
}

/// Writes a reply to a request with this method. The reply to a HEAD has no body.
fn write_reply_to<K: Sink>(
    alloc: Global,
    sink: &mut K,
    method: &Method,
    status: u16,
    body: &[u8],
) -> Result<(), WireFault>
    ensures written { Writes (K.written sink.old) (K.written sink.new)
        (spec.reply_to method.now status body.now) result }
    ensures fault { IfErr result IsOfWriting }
    ensures cause { IsErrOf result WireFault.WriteFault
        → Rose (K.faults sink.old) (K.faults sink.new) }
    ensures kept { K.faults sink.old ≤ K.faults sink.new }
{
    if is_head(method) {
        write_bodiless_reply(alloc, sink, status, body)
    } else {
        write_reply(alloc, sink, status, body)
    }
}

/// Refuses a request with this method with no step.
#[tactic(auto, unfolding(crate::specs::Refusals::refusal_to))]
#[inline(never)]
pub fn refuse_request<K: Sink>(
    alloc: Global,
    form: RefusalForm,
    sink: &mut K,
    method: &Method,
    refused: &Refused,
) -> Result<(), WireFault>
    ensures written { Writes (K.written sink.old) (K.written sink.new)
        (spec.refusal_to form method.now refused.now) result }
    ensures fault { IfErr result IsOfWriting }
    ensures cause { IsErrOf result WireFault.WriteFault
        → Rose (K.faults sink.old) (K.faults sink.new) }
    ensures kept { K.faults sink.old ≤ K.faults sink.new }
{
    let Ok((status, body)) = refusal(alloc, form, refused) else {
        return Err(WireFault::NoMemory);
    };
    write_reply_to(alloc, sink, method, status, body.as_slice())
}

/// Writes a reply that is ready to a request with this method.
#[inline(never)]
pub fn write_ready<K: Sink>(
    alloc: Global,
    sink: &mut K,
    method: &Method,
    ready: &Ready,
) -> Result<(), WireFault>
    ensures written { Writes (K.written sink.old) (K.written sink.new)
        (spec.reply_to method.now ready.now.status ready.now.body) result }
    ensures fault { IfErr result IsOfWriting }
    ensures cause { IsErrOf result WireFault.WriteFault
        → Rose (K.faults sink.old) (K.faults sink.new) }
    ensures kept { K.faults sink.old ≤ K.faults sink.new }
{
    write_reply_to(alloc, sink, method, ready.status, ready.body.as_slice())
}
