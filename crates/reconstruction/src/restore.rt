// Quantified variables are set back by stored terms, the last one first: a set in one walk, where its variables fall in the order in
// which its cells have them, else one by one.
ghost use Rattle.std.specs.Prelude.{◌≡◌, ◌<◌, ◌≤◌, ◌+◌, ◌-◌, ◌^◌, ◌++◌, List, Contains, IsTrue, IfOk, OnOk, false, length, reverse, take};
ghost use Rattle.cnf_base.specs.Truth.{assignment_of};
ghost use Rattle.clause_terms.specs.Walk.{AreAlike};
ghost use Rattle.reconstruction.specs.declared.entries.Entry.{Entry as EntryValue};
ghost use Rattle.reconstruction.specs.Cells.{AreOrdered, cell_value};
ghost use Rattle.reconstruction.specs.Entries.{IsSet, variables_of};
ghost use Rattle.reconstruction.specs.SetBack.{set_cells_back};
ghost use Rattle.reconstruction.specs.SetsBack.{AreFree, one_back_by};
ghost use Rattle.reconstruction.specs.Stack.{AreWithin};
ghost use Rattle.reconstruction.specs.Walker.{IsWalker};

use crate::cells::Cell;
use crate::entries::Entry;
use crate::walker::Walker;
use clause_terms::Model;
use cnf_base::OutOfMemory;

/// Sets the variables of entries back, the last one first. A refusal gives the values up.
pub fn set_all_back(
    walker: &mut Walker,
    cells: &[Cell],
    entries: &[Entry],
    values: &mut Model,
) -> Result<(), OutOfMemory>
    requires walker { IsWalker walker.old }
    requires ordered { AreOrdered cells.now }
    requires free { AreFree cells.now }
    requires within { AreWithin cells.now entries.now }
    requires variables { (entry : EntryValue) → Contains entries.now entry
        → (0 < entry.variable) × (entry.variable ≤ length values.old) }
    ensures walker { OnOk result (IsWalker walker.new) }
    ensures one_each { length values.new ≡ length values.old }
    ensures set { OnOk result (AreAlike (assignment_of values.new)
        (set_cells_back cells.now (assignment_of values.old) (reverse entries.now))) }
{
    let mut left = entries.len();
    'back: while left > 0 {
        left = set_last_back(walker, cells, &entries[..left], values)?;
    }
    Ok(())
}

// Sets the variable of the last entry back, and those of its set where one walk does. How many entries are left.
fn set_last_back(
    walker: &mut Walker,
    cells: &[Cell],
    entries: &[Entry],
    values: &mut Model,
) -> Result<usize, OutOfMemory>
    requires some { 0 < length entries.now }
    requires walker { IsWalker walker.old }
    requires ordered { AreOrdered cells.now }
    requires free { AreFree cells.now }
    requires within { AreWithin cells.now entries.now }
    requires variables { (entry : EntryValue) → Contains entries.now entry
        → (0 < entry.variable) × (entry.variable ≤ length values.old) }
    ensures walker { OnOk result (IsWalker walker.new) }
    ensures one_each { length values.new ≡ length values.old }
    ensures fewer { IfOk result (λ left. left < length entries.now) }
    ensures set { IfOk result (λ left. AreAlike (set_cells_back cells.now (assignment_of values.new) (reverse (take left entries.now)))
        (set_cells_back cells.now (assignment_of values.old) (reverse entries.now))) }
{
    let place = entries.len() - 1;
    let entry = entries[place];
    let first = before(place, entry.later);
    let done = set_whole_back(walker, cells, &entries[first..], entry.key, values)?;
    if done {
        return Ok(first);
    }
    set_one_back(walker, cells, &entry, &entries[first..place], values)?;
    Ok(place)
}

// The place so many before another; the first where there are fewer.
fn before(place: usize, count: u32) -> usize
    ensures is { result ≡ place - count }
    ensures near { place - result < 2 ^ 32 }
{
    place.saturating_sub(count as usize)
}

// Sets all these entries back, where they are a whole set and one walk does; else nothing is lost.
fn set_whole_back(
    walker: &mut Walker,
    cells: &[Cell],
    set: &[Entry],
    key: u32,
    values: &mut Model,
) -> Result<bool, OutOfMemory>
    requires walker { IsWalker walker.old }
    requires ordered { AreOrdered cells.now }
    requires key { key < length cells.now + 2 }
    requires variables { (entry : EntryValue) → Contains set.now entry → (0 < entry.variable) × (entry.variable ≤ length values.old) }
    ensures walker { OnOk result (IsWalker walker.new) }
    ensures one_each { length values.new ≡ length values.old }
    ensures done { IfOk result (λ done. IsTrue done → (older : List EntryValue) → AreAlike
        (set_cells_back cells.now (assignment_of values.new) older)
        (set_cells_back cells.now (assignment_of values.old) (reverse set.now ++ older))) }
    ensures same { IfOk result (λ done. done ≡ false → (older : List EntryValue) → AreAlike
        (set_cells_back cells.now (assignment_of values.new) (reverse set.now ++ older))
        (set_cells_back cells.now (assignment_of values.old) (reverse set.now ++ older))) }
{
    if set.len() < 2 || !is_set(set, key) {
        return Ok(false);
    }
    walker.set_back(cells, set, key, values)
}

// Whether entries are a set's, all of them and no more.
fn is_set(entries: &[Entry], key: u32) -> bool
    ensures set { IsTrue result → IsSet key (reverse entries.now) }
    ensures few { IsTrue result → length entries.now < 2 ^ 32 }
{
    if entries.len() > u32::MAX as usize {
        return false;
    }
    'entries: for place in 0..entries.len() {
        let entry = entries[place];
        if entry.key != key || entry.later as usize != place {
            return false;
        }
    }
    true
}

// Makes a variable false where some values of the later ones make the stored term true so, else true.
fn set_one_back(
    walker: &mut Walker,
    cells: &[Cell],
    entry: &Entry,
    later: &[Entry],
    values: &mut Model,
) -> Result<(), OutOfMemory>
    requires walker { IsWalker walker.old }
    requires ordered { AreOrdered cells.now }
    requires free { AreFree cells.now }
    requires key { entry.now.key < length cells.now + 2 }
    requires some { 0 < entry.now.variable }
    requires within { entry.now.variable ≤ length values.old }
    requires few { length later.now < 2 ^ 32 }
    requires variables { (entry : EntryValue) → Contains later.now entry → (0 < entry.variable) × (entry.variable ≤ length values.old) }
    ensures walker { OnOk result (IsWalker walker.new) }
    ensures one_each { length values.new ≡ length values.old }
    ensures set { OnOk result (AreAlike (assignment_of values.new)
        (one_back_by (λ a. cell_value cells.now a entry.now.key) (assignment_of values.old) entry.now.variable (variables_of later.now))) }
{
    values.set(entry.variable, false);
    let can = walker.can_be_true(cells, later, entry.key, values.as_slice())?;
    values.set(entry.variable, !can);
    Ok(())
}
