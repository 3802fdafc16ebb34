// A full turn by hand: as many times as there are entries, the last one is looked up where its value is even, and taken out
// where it is odd. Those that stay are there in the order that they had.
use op_cache::Bounded;
use std::alloc::Global;
use std::test::Fail;

// From the front: 3, which was looked up, and 6, 5, 4, 2, 1.
fn six_entries(alloc: Global) -> Result<Bounded<u32, u32>, Fail> {
    let mut map = Bounded::new(alloc, 6)?;
    for (key, value) in [(1, 10), (2, 21), (3, 32), (4, 43), (5, 50), (6, 67)] {
        map.keep(key, value)?;
    }
    let _ = map.look(&3);
    Ok(map)
}

// One turn, and the entry whose turn it was.
fn turn(map: &mut Bounded<u32, u32>) -> Option<(u32, u32)> {
    let (key, value) = map.last()?;
    if value % 2 == 0 {
        let _ = map.look(&key);
    } else {
        let _ = map.pop_last();
    }
    Some((key, value))
}

/// Of six entries the three with an even value stay.
#[test]
fn full_turn(rt: HostRuntime) -> Result<(), Fail> {
    let mut map = six_entries(rt.alloc())?;
    for shown in [(1, 10), (2, 21), (4, 43), (5, 50), (6, 67), (3, 32)] {
        assert_eq!(rt; turn(&mut map), Some(shown));
    }
    assert_eq!(rt; map.len(), 3);
    for left in [(1, 10), (5, 50), (3, 32)] {
        assert_eq!(rt; map.pop_last(), Some(left));
    }
    assert_eq!(rt; map.pop_last(), None);
    Ok(())
}
