// What new names keep, as clauses of a function without work.
ghost use Rattle.std.specs.Prelude.{◌≡◌, ℕ, ◌+◌, ℤ, List, length};
ghost use Rattle.std.specs.List.{range_with_len};
ghost use Rattle.cnf_base.specs.Truth.{AreClausesOf};
ghost use Rattle.drat_text.specs.declared.step.DratStep.{DratStep};
ghost use Rattle.drat_rules.specs.Hits.{DeletesStanding};
ghost use Rattle.drat_rules.specs.Run.{DratRefutes};
ghost use Rattle.fresh_names.specs.Fresh.{fresh};
ghost use Rattle.fresh_names.specs.Uses.{come_into_use};

use drat_rules::quiet_law;

/// Steps over a formula, of which each deletion names a clause that stands, by the new names: they refute the formula where they did, and
/// each deletion still names a clause that stands. The variables that come into use are the formula's number plus 1, plus 2, .., in turn,
/// as many as came into use by their own names. So none comes into use twice.
pub fn fresh_law()
    ensures refutes { (vars : ℕ) (clauses : List (List ℤ)) (steps : List DratStep) → AreClausesOf vars clauses
        → DeletesStanding clauses steps → DratRefutes clauses steps → DratRefutes clauses (fresh vars steps) }
    ensures stand { (vars : ℕ) (clauses : List (List ℤ)) (steps : List DratStep) → AreClausesOf vars clauses
        → DeletesStanding clauses steps → DeletesStanding clauses (fresh vars steps) }
    ensures once { (vars : ℕ) (clauses : List (List ℤ)) (steps : List DratStep) → AreClausesOf vars clauses
        → DeletesStanding clauses steps → come_into_use vars clauses (fresh vars steps)
        ≡ range_with_len (vars + 1) (length (come_into_use vars clauses steps)) }
{
    quiet_law();
}
