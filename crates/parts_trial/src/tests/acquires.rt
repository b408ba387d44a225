use acquire_rows::Acquires;
use etcd_types::Bytes;
use std::alloc::Global;
use std::test::Fail;

fn bytes(alloc: Global, text: &[u8]) -> Result<Bytes, Fail> {
    Ok(Bytes::from_vec(Vec::from_slice(alloc, text)?))
}

/// The acquire of the key is due, where it has none.
fn begin(
    alloc: Global,
    acquires: &mut Acquires,
    key: &[u8],
    ticket: u64,
    since: u64,
) -> Result<(), Fail> {
    let key = bytes(alloc, key)?;
    if acquires.find(&key).is_none() {
        acquires.begin(alloc, &key, ticket, 1, since)?;
    }
    Ok(())
}

/// The key whose acquire is sent first.
fn first(acquires: &Acquires) -> Option<&[u8]> {
    match acquires.first_due() {
        Some(due) => Some(due.key.as_slice()),
        None => None,
    }
}

#[test]
fn the_one_that_is_due_longest_is_sent_first(rt: HostRuntime) -> Result<(), Fail> {
    let alloc = rt.alloc();
    let mut acquires = Acquires::new(alloc);
    for (key, ticket, since) in [
        (b"a".as_slice(), 9, 7),
        (b"d", 5, 2),
        (b"c", 4, 2),
        (b"b", 4, 2),
        (b"e", 1, 3),
    ] {
        begin(alloc, &mut acquires, key, ticket, since)?;
    }
    assert_eq!(rt; acquires.as_slice().len(), 5);
    for (call, key) in [(0, b"b".as_slice()), (1, b"c"), (2, b"d"), (3, b"e")] {
        assert_eq!(rt; first(&acquires), Some(key));
        acquires.send_out(call, &bytes(alloc, key)?);
        assert!(rt; !acquires.is_due(&bytes(alloc, key)?));
    }
    assert_eq!(rt; first(&acquires), Some(b"a".as_slice()));
    acquires.remove(&bytes(alloc, b"e")?);
    assert_eq!(rt; acquires.as_slice().len(), 4);
    acquires.remove_due();
    assert_eq!(rt; first(&acquires), None);
    assert_eq!(rt; acquires.as_slice().len(), 3);
    begin(alloc, &mut acquires, b"a", 3, 9)?;
    assert_eq!(rt; first(&acquires), Some(b"a".as_slice()));
    acquires.remove(&bytes(alloc, b"a")?);
    assert_eq!(rt; first(&acquires), None);
    Ok(())
}
