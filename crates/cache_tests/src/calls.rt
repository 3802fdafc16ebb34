// Calls drawn by a fixed seed, each compared with the same call of the plain list, and the whole list at the end.
ghost use Rattle.std.specs.Prelude.{◌≤◌};

use crate::plain::Plain;
use op_cache::Bounded;
use std::alloc::Global;
use std::process::Abort;
use std::test::Fail;

const CALLS: u32 = 4000;

// Numbers below ten, by a linear congruence. (Knuth: The Art of Computer Programming 2, section 3.3.4.)
#[derive(Drop)]
struct Draws {
    state: u64,
}

impl Draws {
    fn digit(&mut self) -> u32 {
        self.state = self
            .state
            .wrapping_mul(6364136223846793005)
            .wrapping_add(1442695040888963407);
        ((self.state >> 33) % 10) as u32
    }
}

fn expect_look(
    rt: &impl Abort,
    map: &mut Bounded<u32, u32>,
    plain: &mut Plain,
    key: u32,
) -> Result<(), Fail> {
    let expected = plain.look(key)?;
    assert_eq!(rt; map.look(&key), expected, "look {key}");
    Ok(())
}

fn expect_keep(
    rt: &impl Abort,
    map: &mut Bounded<u32, u32>,
    plain: &mut Plain,
    key: u32,
    value: u32,
) -> Result<(), Fail> {
    let expected = plain.keep(key, value)?;
    assert_eq!(rt; map.keep(key, value)?, expected, "keep {key} {value}");
    Ok(())
}

fn expect_pop(rt: &impl Abort, map: &mut Bounded<u32, u32>, plain: &mut Plain) {
    let expected = plain.pop_last();
    assert_eq!(rt; map.pop_last(), expected);
}

fn expect_same_end(rt: &impl Abort, map: &Bounded<u32, u32>, plain: &Plain) {
    assert_eq!(rt; (map.last(), map.len()), (plain.last(), plain.len()));
}

// One call in ten takes an entry out; the others are looks and keeps by half.
fn one_call(
    rt: &impl Abort,
    map: &mut Bounded<u32, u32>,
    plain: &mut Plain,
    draws: &mut Draws,
    value: u32,
) -> Result<(), Fail> {
    let kind = draws.digit();
    let key = draws.digit();
    if kind == 0 {
        expect_pop(rt, map, plain);
        Ok(())
    } else if kind < 5 {
        expect_look(rt, map, plain, key)
    } else {
        expect_keep(rt, map, plain, key, value)
    }
}

fn all_calls(rt: &impl Abort, map: &mut Bounded<u32, u32>, plain: &mut Plain) -> Result<(), Fail> {
    let mut draws = Draws { state: 12345 };
    for value in 0..CALLS {
        one_call(rt, map, plain, &mut draws, value)?;
        expect_same_end(rt, map, plain);
    }
    Ok(())
}

// One more than there can be, so that the last one finds nothing.
fn expect_rest(rt: &impl Abort, map: &mut Bounded<u32, u32>, plain: &mut Plain) {
    for _ in 0..8 {
        expect_pop(rt, map, plain);
    }
}

fn expect_calls(rt: &impl Abort, alloc: Global, capacity: u32) -> Result<(), Fail>
    requires { 1 ≤ capacity }
{
    let mut map = Bounded::new(alloc, capacity)?;
    let mut plain = Plain::new(alloc, capacity as usize);
    all_calls(rt, &mut map, &mut plain)?;
    expect_rest(rt, &mut map, &mut plain);
    assert_eq!(rt; (map.len(), map.capacity()), (0, capacity as usize));
    Ok(())
}

/// One entry, two, and seven of ten keys.
#[test]
fn as_a_plain_list(rt: HostRuntime) -> Result<(), Fail> {
    expect_calls(&rt, rt.alloc(), 1)?;
    expect_calls(&rt, rt.alloc(), 2)?;
    expect_calls(&rt, rt.alloc(), 7)
}
