// When it doesn't matter how deletions tell clauses, as a clause of a function without work.
ghost use Rattle.std.specs.Prelude.{◌≡◌, ℤ, List};
ghost use Rattle.drat_text.specs.declared.step.DratStep.{DratStep};
ghost use Rattle.drat_rules.specs.Clauses.{same_set};
ghost use Rattle.drat_rules.specs.Run.{drat_verdict, drat_verdict_by};
ghost use Rattle.drat_rules.specs.Hits.{DeletesStanding};

/// Steps whose deletions name clauses that stand, literal by literal, have one verdict, whether deletions tell clauses by their lists or
/// by their sets of literals.
pub fn any_order_law()
    ensures { (clauses : List (List ℤ)) (steps : List DratStep) → DeletesStanding clauses steps
        → drat_verdict_by same_set clauses steps ≡ drat_verdict clauses steps }
{}
