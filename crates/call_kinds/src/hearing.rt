ghost use Rattle.std.specs.Prelude.{◌≡◌, IfOk};
ghost use Rattle.core_model.specs.Heard.{heard, is_known};

use etcd_types::code::{
    FAILED_PRECONDITION, INVALID_ARGUMENT, NOT_FOUND, OUT_OF_RANGE, PERMISSION_DENIED,
    UNIMPLEMENTED,
};
use etcd_types::{Answer, NoMemory};
use namespace_keys::{KeyFault, Namespace};
use std::alloc::Global;

/// The answer without the namespace; nothing where it counts as a loss: where a refusal's code says nothing of whether the call was
/// done, or where a key is of another namespace.
pub fn heard(
    alloc: Global,
    namespace: &Namespace,
    answer: Answer,
) -> Result<Option<Answer>, NoMemory>
    ensures { IfOk result (λ told. told ≡ heard namespace.now answer) }
{
    match answer {
        Answer::Refused(refusal) => {
            if is_known(refusal.code) {
                Ok(Some(Answer::Refused(refusal)))
            } else {
                Ok(None)
            }
        }
        Answer::Done(reply) => match namespace.unwrap_reply(alloc, reply) {
            Ok(reply) => Ok(Some(Answer::Done(reply))),
            Err(KeyFault::ForeignKey(_)) => Ok(None),
            Err(KeyFault::NoMemory) => Err(NoMemory),
        },
    }
}

/// Whether a refusal with this code says that nothing was done.
pub fn is_known(code: u32) -> bool
    ensures { result ≡ is_known code }
{
    code == INVALID_ARGUMENT
        || code == NOT_FOUND
        || code == PERMISSION_DENIED
        || code == FAILED_PRECONDITION
        || code == OUT_OF_RANGE
        || code == UNIMPLEMENTED
}
