ghost use Rattle.std.specs.Prelude.{◌≡◌, nat_eq};
ghost use Rattle.etcd_types.specs.Keys.{same};
ghost use Rattle.equal_values.specs.Lists.{same_all};
ghost use Rattle.equal_values.specs.Records.{same_kv as is_same_kv};

use crate::records::{same_bytes, same_kv};
use etcd_types::{Bytes, Kv, List};

pub(crate) fn same_kvs(told: &List<Kv>, due: &List<Kv>) -> bool
    ensures { result ≡ same_all is_same_kv told.now due.now }
{
    let due = due.as_slice();
    if told.len() != due.len() {
        return false;
    }
    for (place, one) in told.as_slice().iter().enumerate() {
        if !same_kv(one, &due[place]) {
            return false;
        }
    }
    true
}

pub(crate) fn same_keys(told: &List<Bytes>, due: &List<Bytes>) -> bool
    ensures { result ≡ same_all same told.now due.now }
{
    let due = due.as_slice();
    if told.len() != due.len() {
        return false;
    }
    for (place, one) in told.as_slice().iter().enumerate() {
        if !same_bytes(one, &due[place]) {
            return false;
        }
    }
    true
}

pub(crate) fn same_numbers(told: &List<u64>, due: &List<u64>) -> bool
    ensures { result ≡ same_all nat_eq told.now due.now }
{
    let due = due.as_slice();
    if told.len() != due.len() {
        return false;
    }
    for (place, one) in told.as_slice().iter().enumerate() {
        if !(*one == due[place]) {
            return false;
        }
    }
    true
}
