ghost use Rattle.std.specs.Prelude.{◌≡◌, IfOk};
ghost use Rattle.member_asks.specs.Asking.{Asks, asking, told_by};

use crate::standing::Standing;
use etcd_types::{Answer, Bytes, KeyRange, NoMemory, RangeAsk, Request, Sort};
use outside::{CallKind, Link};
use proxy_calls::{CallFault, make_call};
use std::alloc::Global;
use thiserror::Error;

/// Why an asking was in vain.
#[derive(Clone, Copy, Debug, PartialEq, Eq, Error)]
pub enum AskFault {
    /// It was refused, with this code of gRPC's.
    #[error("refused with code {0}")]
    Refused(u32),
    /// The call was lost.
    #[error("the call was lost")]
    Lost,
    /// Memory was wanting.
    #[error("no memory")]
    NoMemory,
}

/// The request by which a member is asked: how many records one key has.
fn asking(alloc: Global) -> Result<Request, NoMemory>
    ensures { IfOk result (λ request. request ≡ asking) }
{
    Ok(Request::Range(RangeAsk {
        range: KeyRange {
            key: Bytes::from_slice(alloc, &[0])?,
            end: Bytes::new(alloc),
        },
        revision: 0,
        limit: 0,
        serializable: false,
        keys_only: false,
        count_only: true,
        sort: Sort {
            order: 0,
            target: 0,
            min_mod: 0,
            max_mod: 0,
            min_create: 0,
            max_create: 0,
        },
    }))
}

/// What an answer tells.
fn told_by(answer: Result<Answer, CallFault>) -> Result<Standing, AskFault>
    ensures { result ≡ told_by answer }
{
    match answer {
        Ok(Answer::Done(reply)) => Ok(Standing {
            cluster: reply.header.cluster,
            member: reply.header.member,
            revision: reply.header.revision,
            term: reply.header.term,
        }),
        Ok(Answer::Refused(refusal)) => Err(AskFault::Refused(refusal.code)),
        Err(CallFault::Lost) => Err(AskFault::Lost),
        Err(CallFault::NoMemory) => Err(AskFault::NoMemory),
    }
}

/// Asks a member whether it answers, by one call on the link, and says what its reply tells of the cluster's history. For want of memory
/// the call may not be made.
pub fn ask<L: Link>(
    alloc: Global,
    link: &mut L,
    host: &[u8],
    member: u32,
) -> Result<Standing, AskFault>
    ensures { Asks host.now member (L.made link.old) (L.made link.new) (L.faults link.old) (L.faults link.new) result }
{
    match asking(alloc) {
        Ok(request) => told_by(make_call(alloc, link, host, member, CallKind::Asks, &request)),
        Err(NoMemory) => Err(AskFault::NoMemory),
    }
}
