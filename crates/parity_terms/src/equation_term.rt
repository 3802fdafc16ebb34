// The term of an equation's clauses: that of the first one, joined with the others one by one.
ghost use Rattle.std.specs.Prelude.{◌≡◌, ◌≤◌, ◌<◌, ◌&&◌, ◌*◌, ◌-◌, ◌∷◌, ℕ, Err, List, [], length, slice_index_or};
ghost use Rattle.cnf_base.specs.Truth.{clause_holds};
ghost use Rattle.node_table.specs.declared.error.TableError.TheVariants.{NodeLimit};
ghost use Rattle.quantify.specs.SomeValues.{function_of};
ghost use Rattle.bdd_terms.specs.declared.held.HeldTerm.{HeldTerm as HeldValue};
ghost use Rattle.bdd_terms.specs.Runner.{IsRunner, holds_in};
ghost use Rattle.parity_terms.specs.Clauses.{AreNumbers, Joins, TakesClauses};
ghost use Rattle.bdd_terms.specs.Full.{IsFull};
ghost use Rattle.parity_terms.specs.Limit.{AreBounded, AreClausesAmong, IsClauseAmong};
ghost use Rattle.parity_terms.specs.Numbered.{DependsOn};
ghost use Rattle.parity_terms.specs.Owned.{AreOwned, IsOwned, Owns};

use crate::steps::both_into;
use bdd_terms::{Runner, Term, counting_law};
use host_io::Sink;
use node_table::{TableError, growth_law, steps_law};

/// The term that holds where the clauses of these numbers do; none where the empty clause came.
pub(crate) fn term_of_clauses<S: Sink + Drop>(
    runner: &mut Runner<'_, S>,
    numbers: &[u32],
) -> Result<Option<Term>, TableError>
    requires runner { IsRunner runner.old }
    requires owned { AreOwned runner.old.terms.out.items }
    requires some { 0 < length numbers.now }
    requires numbers { AreNumbers (length runner.old.formula.now.clauses) numbers.now }
    ensures takes { (terms : List HeldValue) → Owns terms runner.old.terms.out.items
        → TakesClauses terms numbers.now runner.old runner.new result }
    ensures full { result ≡ Err NodeLimit → IsFull runner.new }
    // Over eight levels a clause and two conjunctions need 518 parts at most.
    ensures bounds { (terms : List HeldValue) (few : List ℕ) → Owns terms runner.old.terms.out.items → length few ≤ 8
        → AreClausesAmong runner.old.terms.table.graph.order few runner.old.formula.now.clauses numbers.now
        → AreBounded 518 (2 * length numbers.now) 255 terms runner.old runner.new result }
{
    growth_law();
    steps_law::<S>();
    counting_law::<S>();
    let mut term = runner.term(numbers[0])?;
    let mut place = 1;
    'clauses: while place < numbers.len() && !runner.is_refuted() {
        term = with_clause(runner, term, numbers[place])?;
        place += 1;
    }
    if runner.is_refuted() {
        runner.release(term);
        return Ok(None);
    }
    Ok(Some(term))
}

// The term that holds where a term and a clause do. The former is released, however it ends.
fn with_clause<S: Sink + Drop>(
    runner: &mut Runner<'_, S>,
    term: Term,
    number: u32,
) -> Result<Term, TableError>
    requires runner { IsRunner runner.old }
    requires owned { IsOwned term.held runner.old.terms.out.items }
    requires from_one { 1 ≤ number }
    requires to_len { number ≤ length runner.old.formula.now.clauses }
    ensures joins { (terms : List HeldValue) → Owns (term.held ∷ terms) runner.old.terms.out.items
        → Joins terms (λ a. holds_in runner.old term.held a
        && clause_holds a (slice_index_or runner.old.formula.now.clauses (number - 1) [])) runner.old runner.new result }
    ensures full { result ≡ Err NodeLimit → IsFull runner.new }
    ensures bounds { (terms : List HeldValue) (few : List ℕ) → Owns (term.held ∷ terms) runner.old.terms.out.items → length few ≤ 8
        → IsClauseAmong runner.old.terms.table.graph.order few (slice_index_or runner.old.formula.now.clauses (number - 1) [])
        → DependsOn few (function_of runner.old.terms.table.graph term.held.node)
        → AreBounded 518 2 255 terms runner.old runner.new result }
{
    growth_law();
    steps_law::<S>();
    counting_law::<S>();
    match runner.term(number) {
        Err(error) => {
            runner.release(term);
            Err(error)
        }
        Ok(clause) => {
            let both = both_into(runner, &term, clause);
            runner.release(term);
            both
        }
    }
}
