// The values along a way: a set's variables are false but those of cells that the way leaves by their high children.
ghost use Rattle.std.specs.Prelude.{◌≡◌, ◌<◌, ◌≤◌, ◌+◌, ℕ, Contains, IsTrue, length, if◌then◌else◌};
ghost use Rattle.cnf_base.specs.Truth.{assignment_of};
ghost use Rattle.reconstruction.specs.declared.entries.Entry.{Entry as EntryValue};
ghost use Rattle.reconstruction.specs.Cells.{AreOrdered, cell_value};
ghost use Rattle.reconstruction.specs.Entries.{variables_of};
ghost use Rattle.reconstruction.specs.SetsBack.{is_among};
ghost use Rattle.reconstruction.specs.Ranks.{rank_of};
ghost use Rattle.reconstruction.specs.Way.{Agrees, AreDead, AreInner, IsCleared, IsWalked, Leads, live, next_in};

use crate::cells::Cell;
use crate::entries::Entry;
use crate::ranks::{Rank, rank_of};
use crate::way::live;
use clause_terms::Model;

/// Gives the variables of entries this value.
pub fn fill(entries: &[Entry], value: bool, values: &mut Model)
    requires { (entry : EntryValue) → Contains entries.now entry → (0 < entry.variable) × (entry.variable ≤ length values.old) }
    ensures one_each { length values.new ≡ length values.old }
    ensures filled { (v : ℕ) → 0 < v → assignment_of values.new v
        ≡ (if is_among (variables_of entries.now) v then value else assignment_of values.old v) }
{
    'entries: for entry in entries {
        values.set(entry.variable, value);
    }
}

/// Sets the ranked variables of a way's cells whose low children are dead, where all ranked ones are false. Whether ranks rise along the
/// way: else the values of ranked variables mean nothing.
pub fn raise(
    cells: &[Cell],
    ranks: &[Rank],
    round: u32,
    marks: &[u32],
    path: &[u32],
    values: &mut Model,
) -> bool
    requires ordered { AreOrdered cells.now }
    requires inner { AreInner cells.now path.now }
    requires within { (v : ℕ) → 0 < v → 0 < rank_of ranks.now round v → v ≤ length values.old }
    requires cleared { IsCleared (rank_of ranks.now round) (assignment_of values.old) }
    requires dead { AreDead cells.now (rank_of ranks.now round) (assignment_of values.old) (live marks.now round) }
    ensures one_each { length values.new ≡ length values.old }
    ensures rest { Agrees (rank_of ranks.now round) (assignment_of values.old) (assignment_of values.new) }
    ensures walked { IsTrue result → (first : ℕ) → first < length cells.now + 2
        → Leads (next_in cells.now (rank_of ranks.now round) (assignment_of values.old) (live marks.now round)) first path.now 1
        → IsWalked (λ b. cell_value cells.now b first) (rank_of ranks.now round) (assignment_of values.old) (assignment_of values.new) }
{
    let mut last = 0;
    'way: for key in path {
        let cell = cells[*key as usize - 2];
        let rank = rank_of(ranks, round, cell.variable);
        if rank == 0 {
            continue;
        }
        if rank <= last {
            return false;
        }
        last = rank;
        if live(marks, round, cell.low) > 0 {
            continue;
        }
        values.set(cell.variable, true);
    }
    true
}
