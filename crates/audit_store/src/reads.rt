ghost use Rattle.std.specs.Prelude.{◌≡◌, IfOk};
ghost use Rattle.audit_store.specs.Visible.{is_dropped as is_read_dropped};
ghost use Rattle.store_model.specs.History.{History, with_revision, up_to_revision};
ghost use Rattle.store_model.specs.Reads.{read as read_at};
ghost use Rattle.store_index.specs.Index.{HoldsKept};

use etcd_types::{Body, NoMemory, RangeAsk, Refusal};
use std::alloc::Global;
use store_index::Index;
use store_model::KeyChange;
use store_reads::read;
use store_refusals as refusals;

/// Whether the range asks for a revision below the compaction.
fn is_dropped(compacted: u64, latest: u64, ask: &RangeAsk) -> bool
    ensures { result ≡ is_read_dropped compacted latest ask.now }
{
    !(latest < ask.revision) && (ask.revision != 0 && ask.revision < compacted)
}

/// What the range is answered on the history up to the revision `latest`, at this compaction.
pub(crate) fn visible_read(
    alloc: Global,
    index: &Index,
    compacted: u64,
    made: &[KeyChange],
    latest: u64,
    ask: &RangeAsk,
) -> Result<Result<Body, Refusal>, NoMemory>
    requires { index.now.compacted ≡ 0 }
    ensures { IfOk result (λ told. (h : History) → HoldsKept index.now h
        → told ≡ read_at (up_to_revision (with_revision h made.now) latest) latest compacted ask.now) }
{
    if is_dropped(compacted, latest, ask) {
        return Ok(Err(refusals::compacted_revision(alloc)?));
    }
    Ok(read(alloc, index, made, latest, ask)?)
}
