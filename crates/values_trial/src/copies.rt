use etcd_types::List;
use std::alloc::Global;
use table_rows::Wrong;

/// How many of these values equal the copy.
pub fn equal_copies<T: PartialEq>(
    alloc: Global,
    values: &List<T>,
    copy: &T,
) -> Result<String, Wrong> {
    let equal = values
        .as_slice()
        .iter()
        .filter(|value| *value == copy)
        .count();
    Ok(format!(in alloc; "{equal}")?)
}
