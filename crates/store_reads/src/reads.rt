ghost use Rattle.std.specs.Prelude.{◌≡◌, ◌≤◌, IfOk};
ghost use Rattle.store_model.specs.History.{History, with_revision, up_to_revision};
ghost use Rattle.store_model.specs.Reads.{read};
ghost use Rattle.store_index.specs.Index.{HoldsKept};

use crate::records::records_seen;
use etcd_types::{Body, NoMemory, RangeAsk, Refusal};
use std::alloc::Global;
use store_history::{is_unsupported, range_body};
use store_index::Index;
use store_model::KeyChange;
use store_refusals as refusals;

/// What the range is answered on the history up to the revision `latest`.
pub fn read(
    alloc: Global,
    index: &Index,
    made: &[KeyChange],
    latest: u64,
    ask: &RangeAsk,
) -> Result<Result<Body, Refusal>, NoMemory>
    requires { index.now.compacted ≤ latest }
    ensures { IfOk result (λ told. (h : History) → HoldsKept index.now h
        → told ≡ read (up_to_revision (with_revision h made.now) latest) latest index.now.compacted ask.now) }
{
    if latest < ask.revision {
        return Ok(Err(refusals::future_revision(alloc)?));
    }
    if ask.revision != 0 && ask.revision < index.compacted {
        return Ok(Err(refusals::compacted_revision(alloc)?));
    }
    if is_unsupported(&ask.sort) {
        return Ok(Err(refusals::unsupported(alloc)?));
    }
    let revision = if ask.revision == 0 {
        latest
    } else {
        ask.revision
    };
    let records = records_seen(index, made, revision, &ask.range)?;
    Ok(Ok(range_body(alloc, ask, records)?))
}
