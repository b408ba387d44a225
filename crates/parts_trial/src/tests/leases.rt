ghost use Rattle.std.specs.Prelude.{◌≡◌};
ghost use Rattle.proxy_model.specs.Keyed.{at};
ghost use Rattle.proxy_model.specs.LeaseTable.{is_held, is_writing};

use etcd_types::{Bytes, KeyRange, Kv};
use lease_table::{Entry, LeaseTable, Phase};
use std::alloc::Global;
use std::test::Fail;

fn holds(table: &LeaseTable, key: &Bytes) -> bool
    ensures { result ≡ is_held (at table.now.entries key.now) }
{
    match table.find(key) {
        None => false,
        Some(entry) => match entry.phase {
            Phase::Held => true,
            Phase::Writing { .. } | Phase::Leaving { .. } => false,
        },
    }
}

fn writes(table: &LeaseTable, key: &Bytes) -> bool
    ensures { result ≡ is_writing (at table.now.entries key.now) }
{
    match table.find(key) {
        None => false,
        Some(entry) => match entry.phase {
            Phase::Writing { .. } => true,
            Phase::Held | Phase::Leaving { .. } => false,
        },
    }
}

fn bytes(alloc: Global, text: &[u8]) -> Result<Bytes, Fail> {
    Ok(Bytes::from_vec(Vec::from_slice(alloc, text)?))
}

fn record(alloc: Global, key: &[u8], value: &[u8]) -> Result<Kv, Fail> {
    Ok(Kv {
        key: bytes(alloc, key)?,
        value: bytes(alloc, value)?,
        create: 3,
        modified: 3,
        version: 1,
        lease: 0,
    })
}

/// The table after `a`, `b`, `c` and `ca` were acquired, in another order, all absent.
fn four_held(alloc: Global) -> Result<LeaseTable, Fail> {
    let mut table = LeaseTable::new(alloc);
    for (key, create) in [(b"c".as_slice(), 4), (b"a", 2), (b"ca", 5), (b"b", 3)] {
        table.reserve(1)?;
        let key = bytes(alloc, key)?;
        if table.find(&key).is_none() && table.spare() >= 1 {
            let kv = None;
            let phase = Phase::Held;
            table.hold(key, Entry { create, kv, phase });
        }
    }
    Ok(table)
}

fn phase(table: &LeaseTable, key: &Bytes) -> Option<(u64, Phase)> {
    match table.find(key) {
        None => None,
        Some(entry) => Some((entry.create, entry.phase)),
    }
}

#[test]
fn entries_are_found_by_key(rt: HostRuntime) -> Result<(), Fail> {
    let alloc = rt.alloc();
    let mut table = four_held(alloc)?;
    assert_eq!(rt; table.len(), 4);
    for (key, found) in [
        (b"".as_slice(), None),
        (b"a", Some((2, Phase::Held))),
        (b"aa", None),
        (b"b", Some((3, Phase::Held))),
        (b"ca", Some((5, Phase::Held))),
        (b"d", None),
    ] {
        assert_eq!(rt; phase(&table, &bytes(alloc, key)?), found);
    }

    let room = table.spare();
    table.remove(&bytes(alloc, b"bb")?);
    table.remove(&bytes(alloc, b"b")?);
    assert_eq!(rt; table.spare(), room.saturating_add(1));
    assert_eq!(rt; table.len(), 3);
    assert_eq!(rt;
        phase(&table, &bytes(alloc, b"ca")?),
        Some((5, Phase::Held))
    );
    table.drop_all();
    assert_eq!(rt; table.len(), 0);
    Ok(())
}

#[test]
fn a_write_ends_held_or_given_up(rt: HostRuntime) -> Result<(), Fail> {
    let alloc = rt.alloc();
    let mut table = four_held(alloc)?;
    for (key, marked, done, after) in [
        (b"a".as_slice(), false, true, Phase::Held),
        (b"b", true, true, Phase::Leaving { sent: false }),
        (b"c", false, false, Phase::Held),
        (b"ca", true, false, Phase::Leaving { sent: false }),
    ] {
        let name = bytes(alloc, key)?;
        if holds(&table, &name) {
            table.begin_write(&name);
        }
        if marked && writes(&table, &name) {
            table.mark(&name);
        }
        assert_eq!(rt;
            phase(&table, &name).map(|found| found.1),
            Some(Phase::Writing { revoked: marked })
        );
        if done && writes(&table, &name) {
            table.wrote(&name, Some(record(alloc, key, b"x")?));
        }
        if !done && writes(&table, &name) {
            table.unwrite(&name);
        }
        let want = if done {
            Some(record(alloc, key, b"x")?)
        } else {
            None
        };
        match table.find(&name) {
            None => assert!(rt; false),
            Some(entry) => {
                assert_eq!(rt; entry.phase, after);
                assert!(rt; entry.kv == want);
            }
        }
    }
    Ok(())
}

#[test]
fn a_range_gives_up_its_own_keys_alone(rt: HostRuntime) -> Result<(), Fail> {
    let alloc = rt.alloc();
    let mut table = four_held(alloc)?;
    let (b, ca) = (bytes(alloc, b"b")?, bytes(alloc, b"ca")?);
    if holds(&table, &b) {
        table.begin_write(&b);
    }
    if table.find(&ca).is_some() {
        table.leave(&ca);
    }
    let range = KeyRange {
        key: bytes(alloc, b"b")?,
        end: bytes(alloc, b"cb")?,
    };
    assert!(rt; table.has_in(&range));
    table.leave_range(&range);
    for (key, after) in [
        (b"a".as_slice(), Phase::Held),
        (b"b", Phase::Writing { revoked: true }),
        (b"c", Phase::Leaving { sent: false }),
        (b"ca", Phase::Leaving { sent: false }),
    ] {
        assert_eq!(rt;
            phase(&table, &bytes(alloc, key)?).map(|found| found.1),
            Some(after)
        );
    }
    let empty = KeyRange {
        key: bytes(alloc, b"aa")?,
        end: bytes(alloc, b"b")?,
    };
    assert!(rt; !table.has_in(&empty));
    Ok(())
}
