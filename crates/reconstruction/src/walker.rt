// Values of a set's variables, found in one walk over the cells of its term.
ghost use Rattle.std.specs.Prelude.{◌≡◌, ◌<◌, ◌≤◌, ◌+◌, ◌^◌, ℕ, false, Contains, IsTrue, IfOk, OnOk, length};
ghost use Rattle.cnf_base.specs.Truth.{assignment_of};
ghost use Rattle.clause_terms.specs.Walk.{AreAlike};
ghost use Rattle.reconstruction.specs.declared.entries.Entry.{Entry as EntryValue};
ghost use Rattle.reconstruction.specs.Cells.{AreOrdered, cell_value};
ghost use Rattle.reconstruction.specs.Entries.{variables_of};
ghost use Rattle.reconstruction.specs.SetsBack.{AreFree, holds_by, is_among, set_back_by};
ghost use Rattle.reconstruction.specs.Walker.{IsReady, IsWalker};

use crate::cells::{Cell, value};
use crate::entries::Entry;
use crate::ranks::{Rank, rank_all};
use crate::walked::{fill, raise};
use crate::way::find_way;
use clause_terms::Model;
use cnf_base::OutOfMemory;
use std::alloc::Global;

/// What walks need: a mark for each key, a rank for each variable, and the way down. It stays from one walk to the next. A set costs the
/// cells that its walk looks at, each once, and its variables.
#[derive(Drop)]
pub struct Walker {
    // The last round in which the cell of a key was found to be dead.
    marks: Vec<u32>,
    ranks: Vec<Rank>,
    round: u32,
    path: Vec<u32>,
}

impl Walker {
    /// One that holds nothing yet.
    pub fn new(alloc: Global) -> Walker
        ensures { IsWalker result }
    {
        Walker {
            marks: Vec::new(alloc),
            ranks: Vec::new(alloc),
            round: 0,
            path: Vec::new(alloc),
        }
    }

    /// Sets the variables of a set back, where its ways fall in the set's order; else their values mean nothing.
    pub fn set_back(
        &mut self,
        cells: &[Cell],
        set: &[Entry],
        key: u32,
        values: &mut Model,
    ) -> Result<bool, OutOfMemory>
        requires walker { IsWalker self.old }
        requires ordered { AreOrdered cells.now }
        requires within { key < length cells.now + 2 }
        requires few { length set.now < 2 ^ 32 }
        requires variables { (entry : EntryValue) → Contains set.now entry → (0 < entry.variable) × (entry.variable ≤ length values.old) }
        ensures walker { OnOk result (IsWalker self.new) }
        ensures one_each { length values.new ≡ length values.old }
        ensures rest { (v : ℕ) → 0 < v → is_among (variables_of set.now) v ≡ false
            → assignment_of values.new v ≡ assignment_of values.old v }
        ensures set { IfOk result (λ done. IsTrue done → AreAlike (assignment_of values.new)
            (set_back_by (λ a. cell_value cells.now a key) (assignment_of values.old) (variables_of set.now))) }
    {
        self.ready(key as usize + 1, values.as_slice().len())?;
        if !rank_all(set, self.round, &mut self.ranks) {
            return Ok(false);
        }
        fill(set, false, values);
        let found = find_way(
            cells,
            key,
            &self.ranks,
            self.round,
            values.as_slice(),
            &mut self.marks,
            &mut self.path,
        )?;
        if !found {
            fill(set, true, values);
            return Ok(true);
        }
        Ok(raise(
            cells,
            &self.ranks,
            self.round,
            &self.marks,
            &self.path,
            values,
        ))
    }

    /// Whether some values of these variables make the term of a key true.
    pub fn can_be_true(
        &mut self,
        cells: &[Cell],
        later: &[Entry],
        key: u32,
        values: &[bool],
    ) -> Result<bool, OutOfMemory>
        requires walker { IsWalker self.old }
        requires ordered { AreOrdered cells.now }
        requires free { AreFree cells.now }
        requires within { key < length cells.now + 2 }
        requires few { length later.now < 2 ^ 32 }
        requires variables { (entry : EntryValue) → Contains later.now entry → (0 < entry.variable) × (entry.variable ≤ length values.now) }
        ensures walker { OnOk result (IsWalker self.new) }
        ensures can { IfOk result (λ can.
            can ≡ holds_by (λ a. cell_value cells.now a key) (variables_of later.now) (assignment_of values.now)) }
    {
        if later.is_empty() {
            return Ok(value(cells, key, values));
        }
        self.ready(key as usize + 1, values.len())?;
        rank_all(later, self.round, &mut self.ranks);
        find_way(
            cells,
            key,
            &self.ranks,
            self.round,
            values,
            &mut self.marks,
            &mut self.path,
        )
    }

    // A round of its own, in which nothing is marked or ranked yet, with places for so many keys and variables.
    fn ready(&mut self, keys: usize, variables: usize) -> Result<(), OutOfMemory>
        requires walker { IsWalker self.old }
        ensures ready { OnOk result (IsReady keys variables self.new) }
    {
        if self.round == u32::MAX {
            self.marks.clear();
            self.ranks.clear();
            self.round = 0;
        }
        if self.marks.len() < keys {
            self.marks.resize(keys, 0)?;
        }
        if self.ranks.len() < variables {
            self.ranks.resize(variables, Rank { round: 0, rank: 0 })?;
        }
        self.round += 1;
        Ok(())
    }
}
