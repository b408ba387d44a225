ghost use Rattle.std.specs.Prelude.{◌≡◌, IfOk};
ghost use Rattle.std.specs.Option.{option_to_list};
ghost use Rattle.etcd_types.specs.Keys.{up_to};
ghost use Rattle.proxy_model.specs.SeveralKeys.{parts, part_before, part_behind};

use crate::asks::is_zero;
use etcd_types::{Bytes, KeyRange, NoMemory};
use namespace_keys::prefix_end;
use std::alloc::Global;

/// What a range delete has to delete round the leasing range.
pub(crate) fn parts(
    alloc: Global,
    prefix: &Bytes,
    range: &KeyRange,
) -> Result<Vec<KeyRange>, NoMemory>
    ensures { IfOk result (λ all. all.items ≡ parts prefix.now range.now) }
{
    let leasing = KeyRange {
        key: prefix.copy(alloc)?,
        end: prefix_end(alloc, prefix)?,
    };
    let mut parts = Vec::new(alloc);
    if range.is_one() || !range.overlaps(&leasing) {
        parts.push(range.copy(alloc)?)?;
        return Ok(parts);
    }
    if let Some(part) = part_before(alloc, prefix, range)? {
        parts.push(part)?;
    }
    if let Some(part) = part_behind(alloc, &leasing.end, range)? {
        parts.push(part)?;
    }
    Ok(parts)
}

/// What the range has before the leasing range.
fn part_before(
    alloc: Global,
    prefix: &Bytes,
    range: &KeyRange,
) -> Result<Option<KeyRange>, NoMemory>
    ensures { IfOk result (λ part. option_to_list part ≡ part_before prefix.now range.now) }
{
    let end = if is_zero(&range.end) || !is_up_to(&range.end, prefix) {
        prefix
    } else {
        &range.end
    };
    if is_up_to(end, &range.key) || is_zero(end) {
        return Ok(None);
    }
    Ok(Some(KeyRange {
        key: range.key.copy(alloc)?,
        end: end.copy(alloc)?,
    }))
}

/// What the range has behind the leasing range, whose end this is.
fn part_behind(
    alloc: Global,
    leasing_end: &Bytes,
    range: &KeyRange,
) -> Result<Option<KeyRange>, NoMemory>
    ensures { IfOk result (λ part. option_to_list part ≡ part_behind leasing_end.now range.now) }
{
    let key = if is_up_to(&range.key, leasing_end) {
        leasing_end
    } else {
        &range.key
    };
    let reaches = is_zero(&range.end) || !is_up_to(&range.end, key);
    if is_zero(leasing_end) || !reaches {
        return Ok(None);
    }
    Ok(Some(KeyRange {
        key: key.copy(alloc)?,
        end: range.end.copy(alloc)?,
    }))
}

fn is_up_to(a: &Bytes, b: &Bytes) -> bool
    ensures { result ≡ up_to a.now b.now }
{
    a.cmp(b).is_le()
}
