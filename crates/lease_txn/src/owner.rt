ghost use Rattle.std.specs.Prelude.{◌≡◌, ◌++◌, length, drop, map, IfOk, OnOk};
ghost use Rattle.std.specs.Option.{option_copied, option_map};
ghost use Rattle.etcd_types.specs.Keys.{same};
ghost use Rattle.proxy_model.specs.Foreign.{owner_of, revoke_word};
ghost use Rattle.proxy_model.specs.Readings.{records_of};

use etcd_types::{Body, Bytes, Kv, List, NoMemory};
use proxy_model::Owner;
use std::alloc::Global;

/// What an ownership key has as its value once its owner was asked to give it up.
pub(crate) const REVOKE: &[u8] = b"REVOKE";

/// The owner that an ownership key's record shows.
pub(crate) fn owner_of(alloc: Global, prefix: &Bytes, kv: &Kv) -> Result<Owner, NoMemory>
    ensures { IfOk result (λ owner. owner ≡ owner_of prefix.now kv.now) }
{
    Ok(Owner {
        key: owned_key(alloc, prefix, &kv.key)?,
        lease: kv.lease,
        create: kv.create,
        revoked: is_revoke(&kv.value),
    })
}

/// The key that is owned by this ownership key, which stands under the leasing prefix.
pub fn owned_key(alloc: Global, prefix: &Bytes, key: &Bytes) -> Result<Bytes, NoMemory>
    ensures { IfOk result (λ owned. owned ≡ drop (length prefix.now) key.now) }
{
    let rest = behind(key.as_slice(), prefix.as_slice().len());
    Ok(Bytes::from_slice(alloc, rest)?)
}

/// Whether an ownership key's value asks its owner to give the key up.
pub fn is_revoke(value: &Bytes) -> bool
    ensures { result ≡ same value.now revoke_word }
{
    value.as_slice().cmp(REVOKE).is_eq()
}

pub(crate) fn owner_in(
    alloc: Global,
    prefix: &Bytes,
    kv: Option<&Kv>,
) -> Result<Option<Owner>, NoMemory>
    ensures { IfOk result (λ owner. owner ≡ option_map (owner_of prefix.now) (option_copied kv.entry)) }
{
    match kv {
        None => Ok(None),
        Some(kv) => Ok(Some(owner_of(alloc, prefix, kv)?)),
    }
}

/// Adds the owner that each record of a range shows.
pub(crate) fn add_owners(
    alloc: Global,
    prefix: &Bytes,
    body: &Body,
    owners: &mut List<Owner>,
) -> Result<(), NoMemory>
    ensures { OnOk result (owners.new ≡ owners.old ++ map (owner_of prefix.now) (records_of body.now)) }
{
    match body {
        Body::Range { kvs, .. } => {
            for kv in kvs.as_slice() {
                owners.push(owner_of(alloc, prefix, kv)?)?;
            }
            Ok(())
        }
        _ => Ok(()),
    }
}

/// What stands behind the first bytes, as many as `len`.
fn behind(bytes: &[u8], len: usize) -> &[u8]
    ensures { result.now ≡ drop len bytes.now }
{
    if len <= bytes.len() {
        &bytes[len..]
    } else {
        &[]
    }
}
