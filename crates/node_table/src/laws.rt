// Laws of diagrams, over everything: functions without work, each of which ensures a record of `specs/Laws.antt`. The
// crates above cite them by a call.
ghost use Rattle.std.specs.Prelude.{◌≡◌, ◌+◌, ◌-◌, ◌<◌, ◌≤◌, ℕ, ℤ, List, [], Contains, IsTrue, is_some, length};
ghost use Rattle.cnf_base.specs.Truth.{AreClausesOf};
ghost use Rattle.lrat_rules.specs.State.{State, Live, clause_at, start};
ghost use Rattle.clause_ledger.specs.Book.{Book};
ghost use Rattle.lrat_rules.specs.Marks.{in_use};
ghost use Rattle.node_table.specs.Diagram.{Graph, IsOrder, levels};
ghost use Rattle.node_table.specs.Tied.{IsTied};
ghost use Rattle.node_table.specs.Table.{TableState, IsSound, live_nodes, opened};
ghost use Rattle.node_table.specs.Progress.{ComesSince};
ghost use Rattle.node_table.specs.Lean.{HasAdded, IsLean, live_above};
ghost use Rattle.node_table.specs.Laws.{Canonical, Missing, Growth, Kept, Cofactors, Subfunctions, Reachability, StepByStep};

use hint_chain::clause_law;
use host_io::Sink;
use lrat_rules::start_law;

/// Two nodes of equal value under every assignment are the same node. (Bryant 1986, theorem 1.)
pub fn canonical_law()
    ensures { Canonical }
{}

/// What a graph that grows says of the nodes that it had, and more live clauses of what they justified.
pub fn growth_law()
    ensures { Growth }
{
    clause_law();
}

/// What a graph that keeps what is reachable from a node says of this node.
pub fn kept_law()
    ensures { Kept }
{}

/// The steps of an operation, one call after another.
pub fn steps_law<S: Sink + Drop>()
    ensures { StepByStep S }
{}

/// A node by its cofactors at a level, whether or not it is of it.
pub fn cofactor_law()
    ensures { Cofactors }
{}

/// A function with its first levels fixed, and the nodes that calls make for it.
pub fn subfunction_law()
    ensures { Subfunctions }
{}

/// A node that is missing has the function of no other one. (Bryant 1986, theorem 1.)
pub fn missing_law()
    ensures { Missing }
{}

/// Reachable nodes, and those that calls make.
pub fn reach_law()
    ensures { Reachability }
{}

/// A table without nodes, over the clauses of a formula that are all live, is sound.
pub fn opening_law<S: Sink + Drop>()
    ensures { (order : List ℕ) (clauses : List (List ℤ)) (book : Book S) (max_nodes : ℕ) → IsOrder order
        → AreClausesOf (length order) clauses → book.state ≡ start clauses → IsTrue book.in_step → IsSound (opened order book max_nodes) }
{
    start_law();
}

/// The extension variables in use on the proof are as many as the nodes.
pub fn in_use_law()
    ensures { (graph : Graph) (state : State) → IsTied graph state → in_use (levels graph) state ≡ live_nodes graph }
{}

/// Of the clauses above the formula's no more are live than four for each extension variable in use, those that were added
/// beside the definitions of nodes, and those that came since. Where a list has all that are live, there are no more of them.
pub fn lean_law<S: Sink + Drop>()
    ensures few { (inputs : ℕ) (live : Live) (ids : List ℕ) → ((id : ℕ) → inputs < id → IsTrue (is_some (clause_at live id))
        → Contains ids id) → live_above inputs live ≤ length ids }
    ensures lean { (old : TableState S) (number : ℕ) (state : State) → IsSound old → HasAdded old number → ComesSince old.book.state state
        → IsLean (levels old.graph) old.inputs (number + (state.top - old.book.state.top)) state }
{}
