// Steps with their verdicts, worked out by hand: a row is the clauses at the start, the steps, and the verdict.
ghost use Rattle.std.specs.Prelude.{◌≡◌, [], ◌∷◌, None, Some, pos, negsuc};
ghost use Rattle.drat_text.specs.declared.step.DratStep.TheVariants.{Add as adds, Delete as deletes};
ghost use Rattle.lrat_rules.specs.declared.outcome.Reason.TheVariants.{NoConflict, CandidateOpen, NoEmptyClause};
ghost use Rattle.drat_rules.specs.Clauses.{same_set};
ghost use Rattle.drat_rules.specs.Run.{drat_verdict, drat_verdict_by};

/// A deletion takes out one clause, by its list of literals: a unit clause too, one of two copies, and none where the literals
/// stand in another order or are repeated.
#[tactic(auto, unfolding(crate::specs::Quiet::has_quiet))]
pub fn deletion_example()
    ensures one_copy { drat_verdict ((pos 1 ∷ []) ∷ (pos 1 ∷ []) ∷ (negsuc 0 ∷ []) ∷ []) (deletes (pos 1 ∷ []) ∷ adds [] ∷ []) ≡ None }
    ensures both_copies { drat_verdict ((pos 1 ∷ []) ∷ (pos 1 ∷ []) ∷ (negsuc 0 ∷ []) ∷ [])
        (deletes (pos 1 ∷ []) ∷ deletes (pos 1 ∷ []) ∷ adds [] ∷ []) ≡ Some (3, NoConflict) }
    ensures other_order { drat_verdict ((pos 1 ∷ pos 2 ∷ []) ∷ (pos 1 ∷ negsuc 1 ∷ []) ∷ (negsuc 0 ∷ []) ∷ [])
        (deletes (pos 2 ∷ pos 1 ∷ []) ∷ adds [] ∷ []) ≡ None }
    ensures repeated { drat_verdict ((pos 1 ∷ pos 1 ∷ []) ∷ (negsuc 0 ∷ []) ∷ []) (deletes (pos 1 ∷ []) ∷ adds [] ∷ []) ≡ None }
    ensures empty { drat_verdict ([] ∷ (negsuc 4 ∷ pos 6 ∷ []) ∷ []) (deletes [] ∷ adds (pos 5 ∷ []) ∷ []) ≡ Some (2, CandidateOpen) }
{}

/// The same where clauses are told by their sets: the other order and the repetition matter no more, and the first such clause goes.
#[tactic(auto, unfolding(crate::specs::Quiet::has_quiet))]
pub fn any_order_example()
    ensures other_order { drat_verdict_by same_set ((pos 1 ∷ pos 2 ∷ []) ∷ (pos 1 ∷ negsuc 1 ∷ []) ∷ (negsuc 0 ∷ []) ∷ [])
        (deletes (pos 2 ∷ pos 1 ∷ []) ∷ adds [] ∷ []) ≡ Some (2, NoConflict) }
    ensures repeated { drat_verdict_by same_set ((pos 1 ∷ pos 1 ∷ []) ∷ (negsuc 0 ∷ []) ∷ []) (deletes (pos 1 ∷ []) ∷ adds [] ∷ [])
        ≡ Some (2, NoConflict) }
    ensures fewer { drat_verdict_by same_set ((pos 1 ∷ []) ∷ (negsuc 0 ∷ []) ∷ []) (deletes (pos 1 ∷ pos 2 ∷ []) ∷ adds [] ∷ []) ≡ None }
    ensures more { drat_verdict_by same_set ((pos 1 ∷ pos 2 ∷ []) ∷ (pos 1 ∷ negsuc 1 ∷ []) ∷ (negsuc 0 ∷ []) ∷ [])
        (deletes (pos 1 ∷ []) ∷ adds [] ∷ []) ≡ None }
{}

/// An addition is good where propagation comes to a conflict, for the clause or for each candidate of its first literal: here a
/// candidate that is blocked only by what is propagated.
#[tactic(auto, unfolding(crate::specs::Quiet::has_quiet))]
pub fn addition_example()
    ensures pivot_first { drat_verdict ((negsuc 0 ∷ pos 2 ∷ []) ∷ []) (adds (pos 2 ∷ pos 1 ∷ []) ∷ []) ≡ Some (2, NoEmptyClause) }
    ensures other_pivot { drat_verdict ((negsuc 0 ∷ pos 2 ∷ []) ∷ []) (adds (pos 1 ∷ pos 2 ∷ []) ∷ []) ≡ Some (1, CandidateOpen) }
    ensures blocked { drat_verdict ((negsuc 0 ∷ pos 3 ∷ []) ∷ (pos 3 ∷ pos 4 ∷ []) ∷ (pos 3 ∷ negsuc 3 ∷ []) ∷ [])
        (adds (pos 1 ∷ []) ∷ []) ≡ Some (2, NoEmptyClause) }
    ensures open { drat_verdict ((negsuc 0 ∷ pos 3 ∷ []) ∷ (pos 3 ∷ pos 4 ∷ []) ∷ []) (adds (pos 1 ∷ []) ∷ []) ≡ Some (1, CandidateOpen) }
    ensures refuted { drat_verdict ((pos 1 ∷ pos 2 ∷ []) ∷ (pos 1 ∷ negsuc 1 ∷ []) ∷ (negsuc 0 ∷ pos 2 ∷ [])
        ∷ (negsuc 0 ∷ negsuc 1 ∷ []) ∷ []) (adds (pos 1 ∷ []) ∷ adds [] ∷ []) ≡ None }
{}
