ghost use Rattle.std.specs.Prelude.{◌≡◌, ◌++◌, IfOk, MatchOption, None, Some};
ghost use Rattle.etcd_types.specs.Keys.{is_zero};
ghost use Rattle.proxy_model.specs.Prefixes.{prefix_end, end_under, under, without};

use etcd_types::{Bytes, KeyRange, NoMemory};
use std::alloc::Global;

/// The end of the range of all keys with the prefix (`range_end` in the etcd API reference): its last byte below FF is
/// raised by one, and what follows it is cut off. It is one zero byte, the end above every key, where no byte is below FF.
/// `NoMemory` where memory was wanting.
pub fn prefix_end(alloc: Global, prefix: &Bytes) -> Result<Bytes, NoMemory>
    ensures { IfOk result (λ end. end ≡ prefix_end prefix.now) }
{
    let mut rest = prefix.as_slice();
    while let Some((last, front)) = rest.split_last() {
        if *last < 255 {
            return Ok(join(alloc, front, &[*last + 1])?);
        }
        rest = front;
    }
    Ok(Bytes::from_slice(alloc, b"\0")?)
}

/// The key under the prefix. `NoMemory` where memory was wanting.
pub fn key_under(alloc: Global, prefix: &Bytes, key: &Bytes) -> Result<Bytes, NoMemory>
    ensures { IfOk result (λ bytes. bytes ≡ prefix.now ++ key.now) }
{
    Ok(join(alloc, prefix.as_slice(), key.as_slice())?)
}

/// The keys of the range, each under the prefix: an empty end stays empty, and an end above every key becomes the prefix's
/// own end. `NoMemory` where memory was wanting.
pub fn range_under(alloc: Global, prefix: &Bytes, range: &KeyRange) -> Result<KeyRange, NoMemory>
    ensures { IfOk result (λ wrapped. wrapped ≡ under prefix.now range.now) }
{
    Ok(KeyRange {
        key: key_under(alloc, prefix, &range.key)?,
        end: end_under(alloc, prefix, &range.end)?,
    })
}

/// What stands behind the prefix in the key, if it has it.
pub(crate) fn without<'a>(prefix: &Bytes, key: &'a Bytes) -> Option<&'a [u8]>
    ensures { MatchOption result (without prefix.now key.now ≡ None) (λ rest. without prefix.now key.now ≡ Some rest.now) }
{
    key.as_slice().strip_prefix(prefix.as_slice())
}

fn end_under(alloc: Global, prefix: &Bytes, end: &Bytes) -> Result<Bytes, NoMemory>
    ensures { IfOk result (λ wrapped. wrapped ≡ end_under prefix.now end.now) }
{
    if end.is_empty() {
        Ok(Bytes::new(alloc))
    } else if is_zero(end.as_slice()) {
        Ok(prefix_end(alloc, prefix)?)
    } else {
        Ok(key_under(alloc, prefix, end)?)
    }
}

/// Whether these bytes are one zero byte, which as an end stands above every key.
fn is_zero(bytes: &[u8]) -> bool
    ensures { result ≡ is_zero bytes.now }
{
    match bytes {
        [only] => *only == 0,
        _ => false,
    }
}

fn join(alloc: Global, front: &[u8], back: &[u8]) -> Result<Bytes, NoMemory>
    ensures { IfOk result (λ bytes. bytes ≡ front.now ++ back.now) }
{
    let mut bytes = Vec::from_slice(alloc, front)?;
    bytes.extend_from_slice(back)?;
    Ok(Bytes::from_vec(bytes))
}
