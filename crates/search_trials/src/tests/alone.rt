//! The searches of small tables by one thread against their greatest keys.
use super::{BELOW, MOST, RIGHT};
use crate::{RefusesOnce, Table, Watched};
use box_search::{Alone, FromFn, HeadStart, Noted, Searcher, Space};
use layout_limits::OutOfMemory;
use std::alloc::Global;
use std::process::Abort;
use std::test::Fail;

/// Searches by any searcher.
fn best_of<S: Space, F: Searcher<S>>(
    alloc: Global,
    searcher: &mut F,
    space: &S,
) -> Result<u64, OutOfMemory>
    requires ready { F.ready searcher.old }
{
    searcher.best(alloc, space)
}

/// Searches a table in both ways, and compares the answers and the note with the greatest key.
fn compare(rt: &impl Abort, alloc: Global, table: &Table<'_>) -> Result<(), OutOfMemory> {
    let greatest = table
        .keys
        .iter()
        .copied()
        .fold(0, |most, key| most.max(key));
    assert_eq!(rt; best_of(alloc, &mut Alone, table)?, greatest);
    for low in [0, 2, MOST] {
        let mut noted = Noted { space: table, low };
        assert_eq!(rt; Alone.best_on(alloc, &mut noted)?, greatest);
        assert!(rt; noted.low >= greatest.min(low));
        assert!(rt; noted.low <= low);
    }
    Ok(())
}

#[test]
fn greatest_key_of_every_small_table(rt: HostRuntime) -> Result<(), Fail> {
    for places in 0..5_usize {
        for spelled in 0..256_u64 {
            let keys = [spelled % 4, spelled / 4 % 4, spelled / 16 % 4, spelled / 64];
            compare(&rt, rt.alloc(), &Table::new(&keys[..places.min(4)]))?;
        }
    }
    Ok(())
}

/// The key of a search that ended.
fn key_of<W: Drop>(start: HeadStart<W>) -> Option<u64> {
    match start {
        HeadStart::Ended(key) => Some(key),
        HeadStart::Open(_) => None,
    }
}

// The search of two keys opens the root and then the greater of its parts; where nothing is open it opens nothing.
#[test]
fn search_within_so_many_boxes(rt: HostRuntime) -> Result<(), Fail> {
    let keys = Table::new(&[BELOW, RIGHT]);
    for (boxes, found) in [(0, None), (1, None), (2, Some(RIGHT)), (200, Some(RIGHT))] {
        let ended = key_of(Alone.best_within(rt.alloc(), &keys, boxes)?);
        assert_eq!(rt; ended, found, "{boxes}");
    }
    let ended = key_of(Alone.best_within(rt.alloc(), &Table::new(&[]), 0)?);
    assert_eq!(rt; ended, Some(0));
    Ok(())
}

// No place, one place, no key, equal bounds everywhere, and rising keys, where each split has eight parts.
#[test]
fn greatest_key_of_special_tables(rt: HostRuntime) -> Result<(), Fail> {
    let mut rising = [0; 64];
    for (place, key) in rising.iter_mut().enumerate() {
        *key = place as u64;
    }
    let tables: [&[u64]; 7] = [&[], &[5], &[0], &[0; 64], &[7; 64], &rising, &[MOST; 9]];
    for keys in tables {
        assert!(rt; keys.len() < 100);
        compare(&rt, rt.alloc(), &Table::new(keys))?;
    }
    Ok(())
}

// Whichever step finds no memory, the search says so, and finds the greatest key when it is called again.
#[test]
fn a_refused_search_can_be_called_again(rt: HostRuntime) -> Result<(), Fail> {
    let table = Table::new(&[
        3, 1, 4, 1, 5, 9, 2, 6, 5, 3, 5, 8, 9, 7, 9, 3, 2, 3, 8, 4, 6, 2, 6, 4,
    ]);
    let mut refused = false;
    let mut passed = false;
    for left in 0..12_u64 {
        let space = Watched {
            space: &table,
            watcher: &RefusesOnce::after(left),
        };
        let mut noted = Noted {
            space: &space,
            low: MOST,
        };
        match Alone.best_on(rt.alloc(), &mut noted) {
            Ok(key) => {
                passed = true;
                assert_eq!(rt; key, 9);
            }
            Err(_) => {
                refused = true;
                assert_eq!(rt; Alone.best_on(rt.alloc(), &mut noted)?, 9);
            }
        }
        assert!(rt; noted.low >= 9);
    }
    assert!(rt; refused && passed);
    Ok(())
}

// A function that searches is asked as any searcher is.
#[test]
fn searcher_from_a_function(rt: HostRuntime) -> Result<(), Fail> {
    let alloc = rt.alloc();
    let mut searcher = FromFn {
        search: |table: &Table<'_>| Alone.best(alloc, table),
    };
    let tables: [(&[u64], u64); 3] = [(&[3, 9, 4], 9), (&[0], 0), (&[], 0)];
    for (keys, greatest) in tables {
        assert_eq!(rt; best_of(alloc, &mut searcher, &Table::new(keys))?, greatest);
    }
    Ok(())
}
