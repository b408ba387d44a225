ghost use Rattle.std.specs.Prelude.{◌≡◌, IfOk};
ghost use Rattle.store_model.specs.History.{History, with_revision};
ghost use Rattle.store_model.specs.Compares.{all_hold};
ghost use Rattle.store_index.specs.Index.{HoldsKept};

use etcd_types::{Compare, NoMemory};
use store_history::holds_of;
use store_index::Index;
use store_model::KeyChange;

/// Whether all compares hold.
pub fn all_hold(index: &Index, made: &[KeyChange], compares: &[Compare]) -> Result<bool, NoMemory>
    ensures { IfOk result (λ holds. (h : History) → HoldsKept index.now h → holds ≡ all_hold (with_revision h made.now) compares.now) }
{
    for compare in compares {
        let records = index.records_with(&compare.range, made)?;
        if !holds_of(compare, records.as_slice()) {
            return Ok(false);
        }
    }
    Ok(true)
}
