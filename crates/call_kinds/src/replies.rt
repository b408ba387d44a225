ghost use Rattle.std.specs.Prelude.{◌≡◌, IfOk};
ghost use Rattle.etcd_types.specs.declared.answer.Answer.TheVariants.{Refused};
ghost use Rattle.core_model.specs.Verdicts.{reply_of};
ghost use Rattle.call_kinds.specs.Texts.{text_of};

use core_model::Verdict;
use etcd_types::code::{DEADLINE_EXCEEDED, FAILED_PRECONDITION, UNAVAILABLE};
use etcd_types::{Answer, Bytes, NoMemory, Refusal};
use std::alloc::Global;

/// The text of the refusal that the verdict stands for; empty where it has an answer.
pub fn text_of(alloc: Global, verdict: &Verdict) -> Result<Bytes, NoMemory>
    ensures { IfOk result (λ text. text ≡ text_of verdict.now) }
{
    match verdict {
        Verdict::Said(_) => Ok(Bytes::new(alloc)),
        Verdict::TimedOut => Ok(Bytes::from_slice(alloc, b"proxy: request timed out")?),
        Verdict::Lost => Ok(Bytes::from_slice(alloc, b"proxy: upstream call lost")?),
        Verdict::Stale => Ok(Bytes::from_slice(
            alloc,
            b"etcdclient: no cluster members have a revision higher than the previously received revision",
        )?),
    }
}

/// The reply that the verdict stands for, whose text is handed in. It takes no memory.
pub fn reply_of(verdict: Verdict, text: Bytes) -> Answer
    requires { text ≡ text_of verdict }
    ensures { result ≡ reply_of verdict }
{
    match verdict {
        Verdict::Said(answer) => answer,
        Verdict::TimedOut => refused(DEADLINE_EXCEEDED, text),
        Verdict::Lost => refused(UNAVAILABLE, text),
        Verdict::Stale => refused(FAILED_PRECONDITION, text),
    }
}

fn refused(code: u32, text: Bytes) -> Answer
    ensures { result ≡ Refused (record { code = code; text = text }) }
{
    Answer::Refused(Refusal { code, text })
}
