// A width, so that the promises by it don't speak of nothing; and the width of all terms.
ghost use Rattle.std.specs.Prelude.{Bool, List, ℕ};
ghost use Rattle.cnf_base.specs.Formula.{Formula};
ghost use Rattle.schedule_plan.specs.declared.plan.Move.{Move};
ghost use Rattle.schedule_plan.specs.Plan.{conjoin};
ghost use Rattle.term_runner.specs.Examples.{one_clause, one_variable};
ghost use Rattle.term_runner.specs.WholeWidth.{IsWiderWhole};
ghost use Rattle.term_runner.specs.Width.{HasWidth, IsWider, IsWiderWith};

use node_table::subfunction_law;

/// A plan that pushes one clause of one literal has one part in hand, the clause itself: its width is one.
pub fn width_example()
    ensures at_most { HasWidth one_clause one_variable (conjoin 1) 1 }
    ensures at_least { IsWider one_clause one_variable (conjoin 1) 0 }
{
    subfunction_law();
}

/// For the prover alone: a plan that is wider than a number is so where all terms count whole, too.
pub fn whole_width_law()
    ensures { (trail : Bool) (formula : Formula) (order : List ℕ) (moves : List Move) (number : ℕ)
        → IsWiderWith trail formula order moves number → IsWiderWhole formula order moves number }
{}
