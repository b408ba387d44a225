ghost use Rattle.std.specs.Prelude.{◌≡◌, ◌++◌, map, IfOk, OnOk};
ghost use Rattle.std.specs.List.{flat_map, list_all};
ghost use Rattle.proxy_model.specs.Fits.{fits_all, is_delete};
ghost use Rattle.proxy_model.specs.Foreign.{owner_of};
ghost use Rattle.proxy_model.specs.Guarded.{IsWrite, written, write_ops, read_owners, owners_in, answer_of, delete_part};
ghost use Rattle.proxy_model.specs.Readings.{deleted_of, prevs_of, first_body};
ghost use Rattle.proxy_model.specs.SeveralKeys.{joined};
ghost use Rattle.lease_txn.specs.Results.{Reads};
ghost use Rattle.lease_txn.specs.Writes.{are_deletes};

use crate::fits::{branch_of, fits_range, fits_txn, is_delete, is_put};
use crate::guarded::written_ranges;
use crate::not_shape::NotShape;
use crate::owner::add_owners;
use crate::parts::parts;
use etcd_types::{Body, Bytes, KeyRange, Kv, List, NoMemory, Reply, Request};
use namespace_keys::range_under;
use proxy_model::{Owner, Written};
use std::alloc::Global;

/// What the answer to a guarded write says, be it an owner write, a guest write, or one of several keys. `Shape` comes
/// exactly where it is none that the write's transaction can have.
pub fn read_write(
    alloc: Global,
    prefix: &Bytes,
    write: &Request,
    reply: Reply,
) -> Result<Written, NotShape>
    requires { IsWrite write.now }
    ensures { Reads result (written prefix.now write.now reply) }
{
    match branch_of(&reply.body) {
        None => Err(NotShape::Shape),
        Some((true, bodies)) => {
            if !fits_write(alloc, prefix, write, bodies)? {
                return Err(NotShape::Shape);
            }
            Ok(Written::Wrote(Reply {
                header: reply.header,
                body: answer_of(alloc, write, bodies)?,
            }))
        }
        Some((false, bodies)) => {
            let ranges = written_ranges(alloc, write)?;
            if !fits_owners(alloc, prefix, ranges.as_slice(), bodies)? {
                return Err(NotShape::Shape);
            }
            Ok(Written::Blocked(owners_in(alloc, prefix, bodies)?))
        }
    }
}

/// Whether the bodies are those that the operations of the write can have.
#[tactic(auto, using(proxy_model::proofs::FitsLaws::of_fits, crate::proofs::Uneven::of_parts))]
fn fits_write(
    alloc: Global,
    prefix: &Bytes,
    write: &Request,
    bodies: &[Body],
) -> Result<bool, NoMemory>
    requires { IsWrite write.now }
    ensures { IfOk result (λ fit. fit ≡ fits_all (write_ops prefix.now write.now) bodies.now) }
{
    match write {
        Request::Put(_) => match bodies {
            [only] => Ok(is_put(only)),
            _ => Ok(false),
        },
        Request::Delete(ask) => {
            let parts = parts(alloc, prefix, &ask.range)?;
            Ok(are_deletes(parts.len(), bodies))
        }
        Request::Txn(txn) => match bodies {
            [only] => Ok(fits_txn(txn, only)),
            _ => Ok(false),
        },
        _ => unreachable!(),
    }
}

/// Whether there are that many bodies, each of a delete.
fn are_deletes(count: usize, bodies: &[Body]) -> bool
    ensures { result ≡ are_deletes count bodies.now }
{
    bodies.len() == count && all_deletes(bodies)
}

fn all_deletes(bodies: &[Body]) -> bool
    ensures { result ≡ list_all is_delete bodies.now }
{
    bodies.iter().all(|body| is_delete(body))
}

/// Whether the bodies are those that reads of these ranges' ownership keys can have.
#[tactic(auto, using(crate::proofs::Uneven::of_reads))]
fn fits_owners(
    alloc: Global,
    prefix: &Bytes,
    ranges: &[KeyRange],
    bodies: &[Body],
) -> Result<bool, NoMemory>
    ensures { IfOk result (λ fit. fit ≡ fits_all (map (read_owners prefix.now) ranges.now) bodies.now) }
{
    if ranges.len() != bodies.len() {
        return Ok(false);
    }
    for (at, range) in ranges.iter().enumerate() {
        if !fits_range(&range_under(alloc, prefix, range)?, &bodies[at]) {
            return Ok(false);
        }
    }
    Ok(true)
}

/// The answer to the write itself, of the bodies of its operations.
fn answer_of(alloc: Global, write: &Request, bodies: &[Body]) -> Result<Body, NoMemory>
    ensures { IfOk result (λ body. body ≡ answer_of write.now bodies.now) }
{
    match write {
        Request::Delete(ask) => {
            if ask.range.is_one() {
                return Ok(first_body(alloc, bodies)?);
            }
            Ok(joined(alloc, bodies)?)
        }
        _ => Ok(first_body(alloc, bodies)?),
    }
}

fn first_body(alloc: Global, bodies: &[Body]) -> Result<Body, NoMemory>
    ensures { IfOk result (λ body. body ≡ first_body bodies.now) }
{
    match bodies.first() {
        None => Ok(Body::Compact),
        Some(body) => Ok(body.copy(alloc)?),
    }
}

/// The answers to the parts of a range delete as one.
fn joined(alloc: Global, bodies: &[Body]) -> Result<Body, NoMemory>
    ensures { IfOk result (λ body. body ≡ joined bodies.now) }
{
    let mut deleted = 0u64;
    let mut prevs = List::new(alloc);
    for body in bodies {
        deleted = deleted.saturating_add(deleted_of(body));
        add_prevs(alloc, body, &mut prevs)?;
    }
    Ok(Body::Delete { deleted, prevs })
}

fn deleted_of(body: &Body) -> u64
    ensures { result ≡ deleted_of body.now }
{
    match body {
        Body::Delete { deleted, .. } => *deleted,
        _ => 0,
    }
}

/// Adds the records that the body says were deleted.
fn add_prevs(alloc: Global, body: &Body, prevs: &mut List<Kv>) -> Result<(), NoMemory>
    ensures { OnOk result (prevs.new ≡ prevs.old ++ prevs_of body.now) }
{
    match body {
        Body::Delete { prevs: more, .. } => {
            for kv in more.as_slice() {
                prevs.push(kv.copy(alloc)?)?;
            }
            Ok(())
        }
        _ => Ok(()),
    }
}

/// The owner that each record in the bodies shows, in their order.
fn owners_in(alloc: Global, prefix: &Bytes, bodies: &[Body]) -> Result<List<Owner>, NoMemory>
    ensures { IfOk result (λ owners. owners ≡ owners_in prefix.now bodies.now) }
{
    let mut owners = List::new(alloc);
    for body in bodies {
        add_owners(alloc, prefix, body, &mut owners)?;
    }
    Ok(owners)
}
