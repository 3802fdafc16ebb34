// The search for a way down to True: depth first, low first. At a ranked variable both children are open, at another the one that the
// values choose. A cell without an open child that may lead to True is marked, and each cell is looked at once at most.
ghost use Rattle.std.specs.Prelude.{◌≡◌, ◌<◌, ◌≤◌, ◌+◌, ℕ, false, IsTrue, IfOk, length, slice_index_or};
ghost use Rattle.cnf_base.specs.Truth.{assignment_of};
ghost use Rattle.reconstruction.specs.Cells.{AreOrdered};
ghost use Rattle.reconstruction.specs.Ranks.{rank_of};
ghost use Rattle.reconstruction.specs.Way.{AreDead, AreMarksBefore, IsDead, Leads, live, next_in};

use crate::cells::{Cell, chosen};
use crate::ranks::{Rank, rank_of};
use cnf_base::OutOfMemory;

/// Whether there is a way from a key to True. Then the path has the keys of its cells.
pub fn find_way(
    cells: &[Cell],
    first: u32,
    ranks: &[Rank],
    round: u32,
    values: &[bool],
    marks: &mut Vec<u32>,
    path: &mut Vec<u32>,
) -> Result<bool, OutOfMemory>
    requires ordered { AreOrdered cells.now }
    requires within { first < length cells.now + 2 }
    requires room { first < length marks.old.items }
    requires before { AreMarksBefore round marks.old.items }
    ensures before { IfOk result (λ _. AreMarksBefore (round + 1) marks.new.items) }
    ensures dead { IfOk result (λ _. AreDead cells.now (rank_of ranks.now round) (assignment_of values.now) (live marks.new.items round)) }
    ensures found { IfOk result (λ found. IsTrue found → Leads (next_in cells.now (rank_of ranks.now round) (assignment_of values.now)
        (live marks.new.items round)) first path.new.items 1) }
    ensures none { IfOk result (λ found. found ≡ false → IsDead cells.now (rank_of ranks.now round) (assignment_of values.now) first) }
{
    path.clear();
    if first < 2 {
        return Ok(first == 1);
    }
    let mut key = first;
    'cells: loop {
        let child = next_key(cells, key, ranks, round, values, marks);
        if child > 0 {
            path.push(key)?;
            if child == 1 {
                return Ok(true);
            }
            key = child;
            continue;
        }
        marks[key as usize] = round;
        let Some(above) = path.pop() else {
            return Ok(false);
        };
        key = above;
    }
}

// The child that is next on the way down, False where all that are open are dead.
#[inline(always)]
fn next_key(
    cells: &[Cell],
    key: u32,
    ranks: &[Rank],
    round: u32,
    values: &[bool],
    marks: &[u32],
) -> u32
    requires ordered { AreOrdered cells.now }
    requires inner { 2 ≤ key }
    requires within { key < length cells.now + 2 }
    ensures { result ≡ next_in cells.now (rank_of ranks.now round) (assignment_of values.now) (live marks.now round) key }
{
    let cell = cells[key as usize - 2];
    if rank_of(ranks, round, cell.variable) == 0 {
        return live(marks, round, chosen(&cell, values));
    }
    let low = live(marks, round, cell.low);
    if low == 0 {
        live(marks, round, cell.high)
    } else {
        low
    }
}

/// A key, but False where it is marked with this round.
#[inline(always)]
pub fn live(marks: &[u32], round: u32, key: u32) -> u32
    ensures { result ≡ live marks.now round key }
{
    if mark_of(marks, key as usize) == round {
        0
    } else {
        key
    }
}

// The mark of a key, 0 where there is none.
#[inline(always)]
fn mark_of(marks: &[u32], key: usize) -> u32
    ensures { result ≡ slice_index_or marks.now key 0 }
{
    match marks.get(key) {
        Some(mark) => *mark,
        None => 0,
    }
}
