// Proofs that the rules accept, so that the laws don't speak of nothing.
ghost use Rattle.std.specs.Prelude.{◌≡◌, ◌==◌, [], ◌∷◌, None, false, pos, negsuc, codes};
ghost use Rattle.cnf_base.specs.Truth.{Satisfies, clause_holds};
ghost use Rattle.lrat_rules.specs.State.{start};
ghost use Rattle.lrat_rules.specs.Addition.{fault};
ghost use Rattle.lrat_rules.specs.Run.{Refutes};

/// A good resolvent step can add a clause that a satisfying assignment of the formula breaks. x1, to 'x1 or x2' and
/// 'not x1, or x2, or x3': the second is its candidate, which the first refutes.
pub fn resolvent_example()
    ensures good { fault (start ((pos 1 ∷ pos 2 ∷ []) ∷ (negsuc 0 ∷ pos 2 ∷ pos 3 ∷ []) ∷ [])) 3 (pos 1
        ∷ []) [] (record { id = 2; hints = 1 ∷ [] } ∷ []) ≡ None }
    ensures satisfied { Satisfies (λ x. x == 2) ((pos 1 ∷ pos 2 ∷ []) ∷ (negsuc 0 ∷ pos 2 ∷ pos 3 ∷ []) ∷ []) }
    ensures broken { clause_holds (λ x. x == 2) (pos 1 ∷ []) ≡ false }
{}

/// A verified text: of x1 and its negation.
pub fn refutation_example()
    ensures { Refutes ((pos 1 ∷ []) ∷ (negsuc 0 ∷ []) ∷ []) (codes "3 0 1 2 0\n") }
{}
