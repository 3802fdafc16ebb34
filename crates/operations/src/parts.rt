// The clauses that may serve as hints: the defining clauses of a node at a level, and the justification of what was found
// for the children. Of each is kept what the greedy choice needs of it.
ghost use Rattle.std.specs.Prelude.{◌≡◌, List, Some, IsTrue, MatchOption};
ghost use Rattle.hint_chain.specs.declared.atom.Atom.{Atom as AtomValue};
ghost use Rattle.node_table.specs.declared.node.Branch.{Branch};
ghost use Rattle.node_table.specs.Diagram.{branch_of, is_node, high_at, low_at};
ghost use Rattle.lrat_rules.specs.State.{Live};
ghost use Rattle.node_table.specs.Defined.{defs_of};
ghost use Rattle.node_table.specs.Tied.{IsTied};
ghost use Rattle.node_table.specs.Justification.{IsJustified};
ghost use Rattle.operations.specs.Sides.{High, Low, HasDownPart, HasJustPart, HasUpPart, kept_part};

use cnf_base::Id;
use hint_chain::{Atom, ChildPart, clause_law};
use host_io::Sink;
use node_table::{Defs, Justification, Node, Table};

/// What is kept of the clauses between a node and its children: where the variable of a level is true, and where it is false.
#[derive(Clone, Copy)]
pub struct ChildParts {
    pub high: Option<ChildPart>,
    pub low: Option<ChildPart>,
}

/// The clauses from a node's children up to the node, where the node is of this level and there are such.
pub fn up_parts<S: Sink + Drop>(table: &Table<S>, level: u32, node: Node) -> ChildParts
    requires tied { IsTied table.now.graph table.now.book.state }
    requires stands { IsTrue (is_node table.now.graph node) }
    ensures high { HasUpPart High table.now.graph table.now.book.state.live level node result.high }
    ensures low { HasUpPart Low table.now.graph table.now.book.state.live level node result.low }
{
    match definitions_at(table, level, node) {
        None => ChildParts {
            high: None,
            low: None,
        },
        Some(defs) => {
            let (high, low) = table.cofactors(level, node);
            ChildParts {
                high: kept_part(defs.hu, table.atom(high).negated()),
                low: kept_part(defs.lu, table.atom(low).negated()),
            }
        }
    }
}

/// The clauses from a node down to its children, where the node is of this level and there are such.
pub fn down_parts<S: Sink + Drop>(table: &Table<S>, level: u32, node: Node) -> ChildParts
    requires tied { IsTied table.now.graph table.now.book.state }
    requires stands { IsTrue (is_node table.now.graph node) }
    ensures high { HasDownPart High table.now.graph table.now.book.state.live level node result.high }
    ensures low { HasDownPart Low table.now.graph table.now.book.state.live level node result.low }
{
    match definitions_at(table, level, node) {
        None => ChildParts {
            high: None,
            low: None,
        },
        Some(defs) => {
            let (high, low) = table.cofactors(level, node);
            ChildParts {
                high: kept_part(defs.hd, table.atom(high)),
                low: kept_part(defs.ld, table.atom(low)),
            }
        }
    }
}

/// The number of the clause that a justification names, where there is one.
pub fn just_number(just: &Justification) -> Option<Id>
    ensures { (live : Live) (atoms : List AtomValue) → IsJustified live atoms just.now → HasJustPart live atoms result }
{
    clause_law();
    match just {
        Justification::Trivial => None,
        Justification::Clause(id) => Some(*id),
    }
}

// The numbers of a node's defining clauses, where it is of this level.
#[inline(always)]
fn definitions_at<S: Sink + Drop>(table: &Table<S>, level: u32, node: Node) -> Option<Defs>
    ensures { MatchOption result ((high_at table.now.graph level node ≡ node) × (low_at table.now.graph level node ≡ node))
        (λ defs. (branch : Branch) × (branch_of table.now.graph node ≡ Some branch) × (branch.level ≡ level) × (defs ≡ defs_of branch)) }
{
    match table.parts(node) {
        None => None,
        Some((own, _, _)) if own == level => table.definitions(node),
        Some(_) => None,
    }
}

#[inline(always)]
fn kept_part(id: Option<Id>, child: Atom) -> Option<ChildPart>
    ensures { result ≡ kept_part id child }
{
    let Some(id) = id else {
        return None;
    };
    match child {
        Atom::Always => None,
        Atom::Never => Some(ChildPart {
            id,
            child: Atom::Never,
        }),
        Atom::Of(literal) => Some(ChildPart {
            id,
            child: Atom::Of(literal),
        }),
    }
}
