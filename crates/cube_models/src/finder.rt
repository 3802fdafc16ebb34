// A finder of least assignments, with what it keeps from one search to the next.
ghost use Rattle.std.specs.Prelude.{◌≡◌, ◌≤◌, ◌∷◌, [], ℕ, false, IsTrue, IfOk, length, slice_index_or};
ghost use Rattle.std.specs.List.{list_all};
ghost use Rattle.cnf_base.specs.Cube.{is_consistent};
ghost use Rattle.cnf_base.specs.Truth.{is_literal_of};
ghost use Rattle.cnf_base.specs.Cube.{forbidding};
ghost use Rattle.lrat_rules.specs.State.{clause_at};
ghost use Rattle.lrat_rules.specs.Strict.{RefutesStrictly};
ghost use Rattle.hint_chain.specs.Atoms.{clause_from_atoms};
ghost use Rattle.node_table.specs.Defined.{atom_of};
ghost use Rattle.node_table.specs.Diagram.{is_node, levels};
ghost use Rattle.node_table.specs.Table.{IsSound};
ghost use Rattle.cube_models.specs.Denied.{AreSums};
ghost use Rattle.cube_models.specs.Finder.{FindsNone, IsFinder, Readies};
ghost use Rattle.cube_models.specs.Least.{HasNoModel, IsLeastModel};

use crate::hints::hints_of;
use crate::signs::assume;
use crate::values::{assumed, raise};
use crate::walk::find_way;
use cnf_base::{Id, Lit, OutOfMemory};
use host_io::Sink;
use node_table::{Node, Table};
use std::alloc::Global;

/// Finds least assignments. What it takes memory for stays from one search to the next: a mark for each key of a node, a sign and a value
/// for each variable, the way down, and the dead nodes.
#[derive(Drop)]
pub struct Finder {
    // The last round in which the node of a key was found to be dead.
    marks: Vec<u32>,
    round: u32,
    signs: Vec<Option<bool>>,
    path: Vec<u32>,
    // Where nothing was found, the nodes that were looked at, each behind those of its children.
    dead: Vec<u32>,
    values: Vec<bool>,
}

impl Finder {
    /// One that holds nothing yet.
    pub fn new(alloc: Global) -> Finder
        ensures { IsFinder result }
    {
        Finder {
            marks: Vec::new(alloc),
            round: 0,
            signs: Vec::new(alloc),
            path: Vec::new(alloc),
            dead: Vec::new(alloc),
            values: Vec::new(alloc),
        }
    }

    /// Whether an assignment makes the node and all literals of the cube true. Then the least one is kept. The table's nodes that the cube
    /// leaves a way to are looked at once at most. Only want of memory is refused.
    pub fn find<S: Sink + Drop>(
        &mut self,
        table: &Table<S>,
        node: Node,
        cube: &[Lit],
    ) -> Result<bool, OutOfMemory>
        requires finder { IsFinder self.old }
        requires node { IsTrue (is_node table.now.graph node) }
        requires variables { IsTrue (list_all (is_literal_of (levels table.now.graph)) cube.now) }
        requires consistent { IsTrue (is_consistent cube.now) }
        ensures finder { IsFinder self.new }
        ensures least { IfOk result (λ found. IsTrue found → IsLeastModel table.now.graph node cube.now self.new.values.items) }
        ensures none { IfOk result (λ found. found ≡ false → HasNoModel table.now.graph node cube.now) }
        ensures denied { IfOk result (λ found. found ≡ false → FindsNone table.now.graph node cube.now self.new) }
    {
        table.table_law();
        self.ready(table.key_end() as usize)?;
        assume(&mut self.signs, table.order().len(), cube)?;
        assumed(&mut self.values, &self.signs)?;
        let found = find_way(
            table,
            node,
            &self.signs,
            self.round,
            &mut self.marks,
            &mut self.path,
            &mut self.dead,
        )?;
        if found {
            raise(
                table,
                &self.signs,
                self.round,
                &self.marks,
                &self.path,
                &mut self.values,
            );
        }
        Ok(found)
    }

    /// The values that the last search found, that of variable 1 first.
    pub fn values(&self) -> &[bool]
        ensures { result.now ≡ self.now.values.items }
    {
        self.values.as_slice()
    }

    /// The hints by which the clause that forbids the cube follows, for which the last search found nothing: one for each node that it
    /// looked at, and the clause that proves the node.
    pub fn hints<S: Sink + Drop>(
        &self,
        table: &Table<S>,
        node: Node,
        cube: &[Lit],
        sums: &[Id],
        unit: Id,
    ) -> Result<Vec<Id>, OutOfMemory>
        requires sound { IsSound table.now }
        requires none { FindsNone table.now.graph node cube.now self.now }
        requires node { IsTrue (is_node table.now.graph node) }
        requires variables { IsTrue (list_all (is_literal_of (levels table.now.graph)) cube.now) }
        requires sums { AreSums table.now.graph table.now.book.state.live sums.now }
        requires unit { clause_at table.now.book.state.live unit ≡ clause_from_atoms (atom_of table.now.graph node ∷ []) }
        ensures strict { IfOk result (λ hints. RefutesStrictly table.now.book.state.live (forbidding cube.now) hints.items) }
    {
        hints_of(
            *self.dead.allocator(),
            table,
            &self.signs,
            sums,
            &self.dead,
            unit,
        )
    }

    // A round of its own, in which no node is marked yet, and a mark for each key.
    fn ready(&mut self, end: usize) -> Result<(), OutOfMemory>
        requires finder { IsFinder self.old }
        ensures finder { IsFinder self.new }
        ensures ready { IfOk result (λ _. Readies end self.new) }
    {
        if self.round == u32::MAX {
            self.marks.clear();
            self.round = 0;
        }
        if self.marks.len() < end {
            self.marks.resize(end, 0)?;
        }
        self.round += 1;
        Ok(())
    }
}
