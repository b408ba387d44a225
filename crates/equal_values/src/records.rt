ghost use Rattle.std.specs.Prelude.{◌≡◌};
ghost use Rattle.etcd_types.specs.Keys.{same};
ghost use Rattle.equal_values.specs.Records.{same_header as is_same_header, same_kv as is_same_kv, same_prev as is_same_prev};

use etcd_types::{Bytes, Header, Kv};

pub fn same_bytes(told: &Bytes, due: &Bytes) -> bool
    ensures { result ≡ same told.now due.now }
{
    told == due
}

/// Whether two headers are the same in every field.
pub fn same_header(told: &Header, due: &Header) -> bool
    ensures { result ≡ is_same_header told.now due.now }
{
    told.cluster == due.cluster
        && told.member == due.member
        && told.revision == due.revision
        && told.term == due.term
}

/// Whether two records are the same in every field.
pub fn same_kv(told: &Kv, due: &Kv) -> bool
    ensures { result ≡ is_same_kv told.now due.now }
{
    same_bytes(&told.key, &due.key)
        && same_bytes(&told.value, &due.value)
        && told.create == due.create
        && told.modified == due.modified
        && told.version == due.version
        && told.lease == due.lease
}

/// Whether both are the same record, or none.
pub fn same_prev(told: &Option<Kv>, due: &Option<Kv>) -> bool
    ensures { result ≡ is_same_prev told.now due.now }
{
    match (told, due) {
        (None, None) => true,
        (Some(told), Some(due)) => same_kv(told, due),
        (_, _) => false,
    }
}
