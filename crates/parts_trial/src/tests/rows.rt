use etcd_types::Bytes;
use slot_rows::SlotRows;
use std::alloc::Global;
use std::test::Fail;

/// What was seen of rows while others came and went.
#[derive(Clone, Copy, Debug, PartialEq, Eq)]
struct Seen {
    /// How many rows there were before and behind the removals.
    before: usize,
    behind: usize,
    /// How often a row wasn't found, was found where it was removed, or was another one.
    wrong: u64,
    hinted: u64,
}

fn key(alloc: Global, number: u64) -> Result<Bytes, Fail> {
    Ok(Bytes::from_slice(alloc, &number.to_be_bytes())?)
}

/// Puts in the numbers below this one in an order that is none of theirs, each with its own number.
fn fill(alloc: Global, rows: &mut SlotRows<u64>, count: u64) -> Result<(), Fail> {
    for step in 0..count {
        let number = step.wrapping_mul(7919) % count.max(1);
        rows.reserve(1)?;
        let key = key(alloc, number)?;
        let gap = rows.place(&key);
        if let Err(gap) = gap {
            if rows.spare() >= 1 {
                rows.insert(gap, key, number);
            }
        }
    }
    Ok(())
}

/// Removes every third number, and looks for each before that. Answers how often one was another one.
fn remove_thirds(alloc: Global, rows: &mut SlotRows<u64>, count: u64) -> Result<u64, Fail> {
    let mut wrong = 0u64;
    for number in 0..count {
        let key = key(alloc, number)?;
        if rows.find(&key).copied() != Some(number) {
            wrong = wrong.saturating_add(1);
        }
        if number % 3 == 0 {
            let place = rows.place(&key);
            match place {
                Ok(place) if rows.remove(place).1 == number => {}
                _ => wrong = wrong.saturating_add(1),
            }
        }
    }
    Ok(wrong)
}

/// Looks for each number behind that. Answers how often one was another one, and how many have a hint.
fn look(alloc: Global, rows: &SlotRows<u64>, count: u64) -> Result<(u64, u64), Fail> {
    let (mut wrong, mut hinted) = (0u64, 0u64);
    for number in 0..count {
        let key = key(alloc, number)?;
        let want = if number % 3 == 0 { None } else { Some(number) };
        if rows.find(&key).copied() != want {
            wrong = wrong.saturating_add(1);
        }
        if rows.hinted(&key).is_some() {
            hinted = hinted.saturating_add(1);
        }
    }
    Ok((wrong, hinted))
}

fn come_and_go(alloc: Global, rows: &mut SlotRows<u64>, count: u64) -> Result<Seen, Fail> {
    fill(alloc, rows, count)?;
    let before = rows.len();
    let removed = remove_thirds(alloc, rows, count)?;
    let behind = rows.len();
    let (looked, hinted) = look(alloc, rows, count)?;
    let wrong = removed.saturating_add(looked);
    Ok(Seen {
        before,
        behind,
        wrong,
        hinted,
    })
}

#[test]
fn rows_are_found_while_others_come_and_go(rt: HostRuntime) -> Result<(), Fail> {
    let one = key(rt.alloc(), 1)?;
    let mut rows = SlotRows::new(rt.alloc());
    let seen = come_and_go(rt.alloc(), &mut rows, 1000);
    rows.clear();
    let (left, is_left) = (rows.len(), rows.find(&one).is_some());
    drop(rows);
    let seen = seen?;
    assert_eq!(rt; (seen.before, seen.behind, seen.wrong), (1000, 666, 0));
    // A full bucket loses a hint now and then.
    assert!(rt;
        seen.hinted > 640,
        "{} of 666 rows have a hint",
        seen.hinted
    );
    assert!(rt; left == 0 && !is_left);
    Ok(())
}
