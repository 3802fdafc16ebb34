// The sum of a node: where it is true one of its children is. It follows from the clauses down to both.
ghost use Rattle.std.specs.Prelude.{◌≡◌, None, Some, MatchOption};
ghost use Rattle.hint_chain.specs.Atoms.{clause_from_atoms};
ghost use Rattle.node_table.specs.declared.node.Branch.{Branch as BranchValue};
ghost use Rattle.node_table.specs.Diagram.{branch_at};
ghost use Rattle.node_table.specs.Table.{IsSound};
ghost use Rattle.cube_models.specs.Denied.{sum_atoms};
ghost use Rattle.cube_models.specs.Sum.{IsSum};

use cnf_base::Id;
use hint_chain::{Atom, ShortClause, clause_from_atoms};
use host_io::Sink;
use node_table::{Node, NodeKey, Table};

/// A clause with its two hints.
#[derive(Drop)]
pub struct Sum {
    pub clause: ShortClause,
    pub high: Id,
    pub low: Id,
}

/// The sum of the node of this key; None where there is no such node, or a child is True.
pub fn sum_of<S: Sink + Drop>(table: &Table<S>, key: u32) -> Option<Sum>
    requires sound { IsSound table.now }
    ensures { MatchOption result
        ((branch : BranchValue) → branch_at table.now.graph key ≡ Some branch → clause_from_atoms (sum_atoms table.now.graph branch) ≡ None)
        (λ sum. IsSum table.now.graph table.now.book.state.live key sum.clause sum.high sum.low) }
{
    table.table_law();
    let node = Node::Inner(NodeKey { index: key });
    let (_level, high, low) = table.parts(node)?;
    let ids = table.definitions(node)?;
    let clause = clause_from_atoms(&[
        table.atom(node).negated(),
        table.atom(high),
        table.atom(low),
    ])?;
    Some(Sum {
        clause,
        high: ids.hd?,
        low: ids.ld?,
    })
}
