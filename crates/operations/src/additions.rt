// A clause over nodes by two additions over the variable x of a step. The high clause is -x and the clause: with x true the
// parts of the high side close. The low one drops -x: the high clause makes x false, and the same holds on the low side. The high
// one has served then, and is retired. (Bryant, Heule: Generating Extended Resolution Proofs with a BDD-Based SAT Solver, 2021,
// sections 4.2 and 4.3.)
ghost use Rattle.std.specs.Prelude.{◌≡◌, ◌≢◌, ◌≤◌, ◌+◌, ◌++◌, ◌∷◌, [], Err, IfErr, IfOk, OnOk, Some, true};
ghost use Rattle.lrat_rules.specs.Strict.{RefutesStrictly};
ghost use Rattle.lrat_rules.specs.State.{clause_at};
ghost use Rattle.clause_ledger.specs.Book.{AreTold, addition};
ghost use Rattle.node_table.specs.declared.error.TableError.TheVariants.{IdLimit, NodeLimit, WriteFault};
ghost use Rattle.node_table.specs.Progress.{Steps, error_of};
ghost use Rattle.node_table.specs.Table.{IsSame, IsSound, IsUsedUp, UnlessTorn};
ghost use Rattle.node_table.specs.Tied.{IsOverNodes};
ghost use Rattle.operations.specs.Accounts.{GivesOne, RetiresNew, given_clause};
ghost use Rattle.operations.specs.Additions.{AddsBoth, AreBoth, IsAdded, high_of};

use crate::clauses::behind;
use crate::laws::{high_clause_law, literal_law};
use cnf_base::{Id, Lit};
use hint_chain::{StepParts, closing_law, greedy_law, step_hints, step_hints_behind};
use host_io::Sink;
use node_table::{Table, TableError, steps_law};

/// Adds a clause from the parts of both sides of a level's variable. Unless a write failed, the high clause is retired, also
/// where the low one is refused.
pub fn add_both<S: Sink + Drop>(
    table: &mut Table<S>,
    level: u32,
    clause: &[Lit],
    high: &StepParts,
    low: &StepParts,
) -> Result<Id, TableError>
    requires sound { IsSound table.old }
    requires both { AreBoth table.old.graph table.old.book.state.live level clause.now high.now low.now }
    ensures clause { IfOk result (λ id. clause_at table.new.book.state.live id ≡ Some clause.now) }
    // exactly these two steps are told, their hints in the turn of the parts
    ensures told { OnOk result ((both : AreBoth table.old.graph table.old.book.state.live level clause.now high.now low.now)
        → AddsBoth table.old.book table.new.book (high_of table.old.graph level clause.now) clause.now both.highs both.lows) }
    ensures two_added { IfOk result (λ id. (id ≡ table.old.book.state.top + 2) × (table.new.book.state.top ≡ id)
        × (table.new.retired ≡ table.old.retired ++ (table.old.book.state.top + 1) ∷ [])) }
    ensures nodes { table.new.graph ≡ table.old.graph }
    ensures steps { Steps table.old table.new 2 (error_of result) }
    ensures retires { RetiresNew table.old table.new }
    // All clauses that were added are retired, but for the one that is given.
    ensures gives { UnlessTorn result (GivesOne table.old table.new (given_clause result)) }
    ensures no_node_limit { result ≢ Err NodeLimit }
    ensures id_limit { result ≡ Err IdLimit → IsUsedUp table.new }
{
    steps_law::<S>();
    literal_law();
    closing_law();
    greedy_law();
    high_clause_law::<S>();
    let x = table.variable(level);
    let long = behind(x.negated(), clause);
    let own = long.as_slice();
    let alloc = table.alloc();
    let hints = step_hints(alloc, own, high);
    let first = add(table, own, hints.as_slice())?;
    let low_hints = step_hints_behind(alloc, first, x, clause, low);
    match add(table, clause, low_hints.as_slice()) {
        Ok(id) => {
            table.retire(first);
            Ok(id)
        }
        Err(e) if e == TableError::WriteFault => Err(e),
        Err(e) => {
            table.retire(first);
            Err(e)
        }
    }
}

// One addition, by these hints.
fn add<S: Sink + Drop>(table: &mut Table<S>, clause: &[Lit], hints: &[Id]) -> Result<Id, TableError>
    requires sound { IsSound table.old }
    requires some { clause.now ≢ [] }
    requires strict { RefutesStrictly table.old.book.state.live clause.now hints.now }
    requires over_nodes { IsOverNodes table.old.graph clause.now }
    ensures clause { IfOk result (λ id. clause_at table.new.book.state.live id ≡ Some clause.now) }
    ensures added { IfOk result (λ id. IsAdded table.old table.new id) }
    ensures told { OnOk result (AreTold true table.old.book table.new.book (addition table.old.book.state clause.now hints.now ∷ [])) }
    ensures nodes { table.new.graph ≡ table.old.graph }
    ensures steps { Steps table.old table.new 1 (error_of result) }
    ensures retired { table.new.retired ≡ table.old.retired }
    ensures no_node_limit { result ≢ Err NodeLimit }
    ensures id_limit { result ≡ Err IdLimit → IsUsedUp table.new }
    ensures refused { IfErr result (λ e. e ≢ WriteFault → IsSame table.old table.new) }
{
    high_clause_law::<S>();
    table.justify(clause, hints)
}
