// The hints by which the clause that forbids a cube follows.
ghost use Rattle.std.specs.Prelude.{◌≡◌, ◌++◌, ◌∷◌, [], IfOk, length, map, slice_index_or};
ghost use Rattle.node_table.specs.Diagram.{levels};
ghost use Rattle.cube_models.specs.Denied.{hint_at, number_of};

use crate::signs::sign_of;
use cnf_base::{Id, OutOfMemory};
use host_io::Sink;
use node_table::{Node, NodeKey, Table};
use std::alloc::Global;

/// A hint for each of these nodes, and the unit behind them.
pub fn hints_of<S: Sink + Drop>(
    alloc: Global,
    table: &Table<S>,
    signs: &[Option<bool>],
    sums: &[Id],
    dead: &[u32],
    unit: Id,
) -> Result<Vec<Id>, OutOfMemory>
    requires one_each { length signs.now ≡ levels table.now.graph }
    ensures { IfOk result (λ hints. hints.items ≡ map (hint_at table.now.graph signs.now sums.now) dead.now ++ unit ∷ []) }
{
    let mut hints = Vec::new(alloc);
    'dead: for key in dead {
        hints.push(hint_of(table, signs, sums, *key))?;
    }
    hints.push(unit)?;
    Ok(hints)
}

// The clause from a node down to the child that is left open, or its sum.
fn hint_of<S: Sink + Drop>(table: &Table<S>, signs: &[Option<bool>], sums: &[Id], key: u32) -> Id
    requires one_each { length signs.now ≡ levels table.now.graph }
    ensures { result ≡ hint_at table.now.graph signs.now sums.now key }
{
    table.table_law();
    let node = Node::Inner(NodeKey { index: key });
    let Some((level, _high, _low)) = table.parts(node) else {
        return Id(0);
    };
    let Some(ids) = table.definitions(node) else {
        return Id(0);
    };
    match sign_of(signs, table.order()[level as usize]) {
        None => number_at(sums, key as usize),
        Some(true) => number_of(ids.hd),
        Some(false) => number_of(ids.ld),
    }
}

// The number at a key, 0 where there is none.
fn number_at(sums: &[Id], key: usize) -> Id
    ensures { result ≡ slice_index_or sums.now key 0 }
{
    match sums.get(key) {
        Some(id) => *id,
        None => Id(0),
    }
}

fn number_of(id: Option<Id>) -> Id
    ensures { result ≡ number_of id }
{
    match id {
        Some(id) => id,
        None => Id(0),
    }
}
