ghost use Rattle.std.specs.Prelude.{◌≡◌, IfOk};
ghost use Rattle.proxy_model.specs.PassingOn.{chosen_lease, passed_on, replied, call_lost};

use etcd_types::code::UNAVAILABLE;
use etcd_types::{Answer, Bytes, NoMemory, Refusal, Request};
use namespace_keys::{KeyFault, Namespace};
use proxy_model::FIRST_SESSION;
use std::alloc::Global;

/// How many numbers a lease may be given that are no session's: those below the first session's.
const LEASE_NUMBERS: u64 = FIRST_SESSION - 1;

/// The call that a request becomes: each key is under the namespace, and a grant that leaves its number open has one that the
/// random `word` chooses. `NoMemory` where memory was wanting.
pub fn passed_on(
    alloc: Global,
    namespace: &Namespace,
    word: u64,
    request: &Request,
) -> Result<Request, NoMemory>
    ensures { IfOk result (λ call. call ≡ passed_on namespace.now word request.now) }
{
    match request {
        Request::Grant { ttl, lease: 0 } => Ok(Request::Grant {
            ttl: *ttl,
            lease: chosen_lease(word),
        }),
        _ => Ok(namespace.wrap_request(alloc, request)?),
    }
}

fn chosen_lease(word: u64) -> u64
    ensures { result ≡ chosen_lease word }
{
    1 + word % LEASE_NUMBERS
}

/// The reply that a call's answer becomes: its keys are without the namespace. An answer with a key of another namespace
/// counts as lost. `NoMemory` where memory was wanting.
pub fn replied(alloc: Global, namespace: &Namespace, answer: Answer) -> Result<Answer, NoMemory>
    ensures { IfOk result (λ reply. reply ≡ replied namespace.now answer) }
{
    match answer {
        Answer::Refused(refusal) => Ok(Answer::Refused(refusal)),
        Answer::Done(reply) => match namespace.unwrap_reply(alloc, reply) {
            Ok(reply) => Ok(Answer::Done(reply)),
            Err(KeyFault::ForeignKey(_)) => Ok(Answer::Refused(call_lost(alloc)?)),
            Err(KeyFault::NoMemory) => Err(NoMemory),
        },
    }
}

fn call_lost(alloc: Global) -> Result<Refusal, NoMemory>
    ensures { IfOk result (λ refusal. refusal ≡ call_lost) }
{
    Ok(Refusal {
        code: UNAVAILABLE,
        text: Bytes::from_slice(alloc, b"proxy: upstream call lost")?,
    })
}
