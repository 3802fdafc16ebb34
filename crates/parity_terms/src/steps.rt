// Steps of an elimination: two terms together, and the sum of two equations. A term that is used up is released.
ghost use Rattle.std.specs.Prelude.{◌≡◌, ◌&&◌, ◌↔◌, ◌∷◌, List, Err, IsTrue, true};
ghost use Rattle.cnf_base.specs.Truth.{Assignment};
ghost use Rattle.node_table.specs.declared.error.TableError.TheVariants.{NodeLimit};
ghost use Rattle.parity_nodes.specs.Sums.{sum_is};
ghost use Rattle.bdd_terms.specs.declared.held.HeldTerm.{HeldTerm as HeldValue};
ghost use Rattle.bdd_terms.specs.Parity.{AreVariables};
ghost use Rattle.bdd_terms.specs.Full.{IsFull};
ghost use Rattle.bdd_terms.specs.Runner.{IsGood, IsRunner, holds_in};
ghost use Rattle.parity_terms.specs.Limit.{IsBounded};
ghost use Rattle.parity_terms.specs.Owned.{AreOwned, IsOwned, Owns};
ghost use Rattle.parity_terms.specs.Steps.{Takes};

use bdd_terms::{Runner, Term, counting_law};
use host_io::Sink;
use node_table::{TableError, cofactor_law, growth_law, steps_law};

/// The term that holds where both do. The second one is released, however it ends.
pub(crate) fn both_into<S: Sink + Drop>(
    runner: &mut Runner<'_, S>,
    u: &Term,
    v: Term,
) -> Result<Term, TableError>
    requires runner { IsRunner runner.old }
    requires first { IsGood runner.old u.now.held }
    requires second { IsOwned v.held runner.old.terms.out.items }
    ensures takes { (terms : List HeldValue) → Owns (v.held ∷ terms) runner.old.terms.out.items
        → Takes terms (λ a. holds_in runner.old u.now.held a && holds_in runner.old v.held a) runner.old runner.new result }
    ensures full { result ≡ Err NodeLimit → IsFull runner.new }
    ensures bounds { (terms : List HeldValue) → Owns (v.held ∷ terms) runner.old.terms.out.items
        → IsBounded (v.held ∷ terms) (λ a. holds_in runner.old u.now.held a && holds_in runner.old v.held a) runner.old
        runner.new result }
{
    steps_law::<S>();
    let both = runner.meet(u, &v);
    runner.release(v);
    both
}

/// The term that the sum of these variables is the bit, which a term implies. That one is released, however it ends.
pub(crate) fn sum_into<S: Sink + Drop>(
    runner: &mut Runner<'_, S>,
    u: Term,
    variables: &[u32],
    bit: bool,
) -> Result<Term, TableError>
    requires runner { IsRunner runner.old }
    requires owned { IsOwned u.held runner.old.terms.out.items }
    requires variables { AreVariables runner.old.formula.now.vars variables.now }
    requires implies { (a : Assignment) → holds_in runner.old u.held a ≡ true → sum_is bit variables.now a ≡ true }
    ensures takes { (terms : List HeldValue) → Owns (u.held ∷ terms) runner.old.terms.out.items
        → Takes terms (sum_is bit variables.now) runner.old runner.new result }
    ensures full { result ≡ Err NodeLimit → IsFull runner.new }
    ensures bounds { (terms : List HeldValue) → Owns (u.held ∷ terms) runner.old.terms.out.items
        → IsBounded (u.held ∷ terms) (sum_is bit variables.now) runner.old
        runner.new result }
{
    steps_law::<S>();
    let sum = sum_of(runner, &u, variables, bit);
    runner.release(u);
    sum
}

// The term that the sum of these variables is the bit, which a term implies. That one stays.
fn sum_of<S: Sink + Drop>(
    runner: &mut Runner<'_, S>,
    u: &Term,
    variables: &[u32],
    bit: bool,
) -> Result<Term, TableError>
    requires runner { IsRunner runner.old }
    requires owned { AreOwned runner.old.terms.out.items }
    requires good { IsGood runner.old u.now.held }
    requires variables { AreVariables runner.old.formula.now.vars variables.now }
    requires implies { (a : Assignment) → holds_in runner.old u.now.held a ≡ true → sum_is bit variables.now a ≡ true }
    ensures takes { (terms : List HeldValue) → Owns terms runner.old.terms.out.items
        → Takes terms (sum_is bit variables.now) runner.old runner.new result }
    ensures full { result ≡ Err NodeLimit → IsFull runner.new }
    ensures bounds { (terms : List HeldValue) → Owns terms runner.old.terms.out.items
        → IsBounded terms (sum_is bit variables.now) runner.old
        runner.new result }
{
    growth_law();
    cofactor_law();
    steps_law::<S>();
    counting_law::<S>();
    let node = runner.parity(variables, bit)?;
    let found = runner.weaken(u, node)?;
    let Some(term) = found else {
        unreachable!();
    };
    Ok(term)
}

/// Whether a call met the limit of nodes.
pub(crate) fn met_limit<T>(found: &Result<T, TableError>) -> bool
    ensures { IsTrue result ↔ (found.now ≡ Err NodeLimit) }
{
    match found {
        Err(TableError::NodeLimit) => true,
        _ => false,
    }
}
