use etcd_types::{Bytes, KeyRange, Kv};
use std::alloc::Global;
use std::cmp::Ordering;
use table_rows::Wrong;
use text_words::{Words, read_bytes, read_number};

/// How two keys stand to each other.
pub fn order(alloc: Global, case: &str) -> Result<String, Wrong> {
    let mut words = Words::of(b' ', case.as_bytes());
    let key = read_bytes(alloc, &mut words)?;
    let other = read_bytes(alloc, &mut words)?;
    words.end()?;
    let name = match key.cmp(&other) {
        Ordering::Less => "less",
        Ordering::Equal => "equal",
        Ordering::Greater => "greater",
    };
    Ok(format!(in alloc; "{name}")?)
}

/// Whether a range is the range of one key.
pub fn one(alloc: Global, case: &str) -> Result<String, Wrong> {
    let mut words = Words::of(b' ', case.as_bytes());
    let range = read_range(alloc, &mut words)?;
    words.end()?;
    told(alloc, range.is_one())
}

/// Whether a range has a key.
pub fn contained(alloc: Global, case: &str) -> Result<String, Wrong> {
    let mut words = Words::of(b' ', case.as_bytes());
    let range = read_range(alloc, &mut words)?;
    let key = read_bytes(alloc, &mut words)?;
    words.end()?;
    told(alloc, range.contains(&key))
}

/// Whether two ranges overlap, or `turned` where that depends on which of them is asked.
pub fn overlapping(alloc: Global, case: &str) -> Result<String, Wrong> {
    let mut words = Words::of(b' ', case.as_bytes());
    let range = read_range(alloc, &mut words)?;
    let other = read_range(alloc, &mut words)?;
    words.end()?;
    let overlap = range.overlaps(&other);
    if overlap != other.overlaps(&range) {
        return Ok(format!(in alloc; "turned")?);
    }
    told(alloc, overlap)
}

/// The numbers of the record after a put.
pub fn put(alloc: Global, case: &str) -> Result<String, Wrong> {
    let mut words = Words::of(b' ', case.as_bytes());
    let create = read_number(&mut words)?;
    let version = read_number(&mut words)?;
    let lease = read_number(&mut words)?;
    let named = read_number(&mut words)?;
    let revision = read_number(&mut words)?;
    words.end()?;
    let key = Bytes::from_slice(alloc, b"k")?;
    let value = Bytes::from_slice(alloc, b"new")?;
    let old = Kv {
        key: key.copy(alloc)?,
        value: Bytes::from_slice(alloc, b"old")?,
        create,
        modified: create,
        version,
        lease,
    };
    let before = if create == 0 { None } else { Some(&old) };
    let after = Kv::after_put(alloc, before, &key, &value, named, revision)?;
    if after.key != key || after.value != value || after.modified != revision {
        return Ok(format!(in alloc; "another record")?);
    }
    Ok(format!(in alloc; "{} {} {}", after.create, after.version, after.lease)?)
}

fn read_range(alloc: Global, words: &mut Words) -> Result<KeyRange, Wrong> {
    Ok(KeyRange {
        key: read_bytes(alloc, words)?,
        end: read_bytes(alloc, words)?,
    })
}

fn told(alloc: Global, holds: bool) -> Result<String, Wrong> {
    Ok(format!(in alloc; "{}", if holds { "yes" } else { "no" })?)
}
