ghost use Rattle.std.specs.Prelude.{◌≡◌, ◌&&◌, nat_le, [], List as Values, IfOk};
ghost use Rattle.std.specs.Option.{option_copied, unwrap_or};
ghost use Rattle.audit_lives.specs.Keeps.{first_kept, keeps, members_in, namespace_in};
ghost use Rattle.audit_model.specs.Order.{is_member as is_of_members};
ghost use Rattle.script_text.specs.declared.item.Item.{Item as Told};

use crate::kept::Kept;
use etcd_types::{Bytes, NoMemory};
use std::alloc::Global;

fn members_in(kept: &Kept) -> Option<u64>
    ensures { result ≡ members_in kept.now }
{
    match kept {
        Kept::World { members, .. } => Some(*members),
        _ => None,
    }
}

/// How many members the world has, or 0 where there is none.
fn members_of(kept: &[Kept]) -> u64
    ensures { result ≡ unwrap_or (first_kept members_in kept.now) 0 }
{
    for one in kept {
        if let Some(members) = members_in(one) {
            return members;
        }
    }
    0
}

/// Whether the world has a member of this number.
pub(crate) fn is_member(kept: &[Kept], member: u64) -> bool
    ensures { (items : Values Told) → kept.now ≡ keeps items → result ≡ is_of_members items member }
{
    is_within(member, members_of(kept))
}

fn is_within(number: u64, count: u64) -> bool
    ensures { result ≡ nat_le 1 number && nat_le number count }
{
    1 <= number && number <= count
}

fn namespace_in(kept: &Kept) -> Option<&Bytes>
    ensures { option_copied result ≡ namespace_in kept.now }
{
    match kept {
        Kept::World { namespace, .. } => Some(namespace),
        _ => None,
    }
}

/// The namespace of the world, or none where there is no world.
pub(crate) fn namespace_of(alloc: Global, kept: &[Kept]) -> Result<Bytes, NoMemory>
    ensures { IfOk result (λ namespace. namespace ≡ unwrap_or (first_kept namespace_in kept.now) []) }
{
    for one in kept {
        if let Some(namespace) = namespace_in(one) {
            return Ok(namespace.copy(alloc)?);
        }
    }
    Ok(Bytes::new(alloc))
}
