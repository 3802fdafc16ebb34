// The soundness law: what good steps keep, and that verified steps refute the clauses at the start.
ghost use Rattle.std.specs.Prelude.{◌≡◌, ◌++◌, ℕ, ℤ, List, [], ◌∷◌, IsTrue, None, false};
ghost use Rattle.std.specs.List.{list_all};
ghost use Rattle.cnf_base.specs.Truth.{Assignment, Satisfies, AreClausesOf, clause_holds};
ghost use Rattle.drat_text.specs.declared.step.DratStep.{DratStep};
ghost use Rattle.drat_text.specs.declared.step.DratStep.TheVariants.{Delete as deletes};
ghost use Rattle.lrat_rules.specs.Soundness.{has_no_zero};
ghost use Rattle.drat_rules.specs.Quiet.{has_quiet};
ghost use Rattle.drat_rules.specs.Addition.{drat_fault};
ghost use Rattle.drat_rules.specs.Clauses.{Equality};
ghost use Rattle.drat_rules.specs.Run.{after_by, after_all_by, first_fault_by, DratRefutesBy};
ghost use Rattle.drat_rules.specs.Soundness.{SatisfiesAllUpToPivot, have_no_zero, drat_step_has_no_zero};

/// Nothing is assumed of fresh variables, of deletions, nor of repeated literals and clauses; clauses may be told to be the same in any
/// way. No literal is 0, whose negation would be itself.
pub fn drat_soundness_law()
    // Propagation from the clause's negation comes to a conflict: each assignment that satisfies the clauses satisfies it.
    ensures addition_by_propagation { (a : Assignment) (clauses : List (List ℤ)) (clause : List ℤ) → IsTrue (have_no_zero clauses)
        → IsTrue (has_no_zero clause) → Satisfies a clauses → has_quiet clauses clause ≡ false → IsTrue (clause_holds a clause) }
    ensures addition { (a : Assignment) (clauses : List (List ℤ)) (clause : List ℤ) → IsTrue (have_no_zero clauses)
        → IsTrue (has_no_zero clause) → Satisfies a clauses → drat_fault clauses clause ≡ None
        → SatisfiesAllUpToPivot a clause (clauses ++ clause ∷ []) }
    ensures deletion { (same : Equality) (a : Assignment) (clauses : List (List ℤ)) (clause : List ℤ) → Satisfies a clauses
        → Satisfies a (after_by same clauses (deletes clause)) }
    // After good steps some assignment still satisfies the clauses.
    ensures steps { (same : Equality) (a : Assignment) (place : ℕ) (clauses : List (List ℤ)) (steps : List DratStep)
        → IsTrue (have_no_zero clauses) → IsTrue (list_all drat_step_has_no_zero steps) → Satisfies a clauses
        → first_fault_by same place clauses steps ≡ None → (b : Assignment) × Satisfies b (after_all_by same clauses steps) }
    // The premise holds of a formula, and behind each step.
    ensures nonzero_start { (vars : ℕ) (clauses : List (List ℤ)) → AreClausesOf vars clauses → IsTrue (have_no_zero clauses) }
    ensures nonzero_step { (same : Equality) (clauses : List (List ℤ)) (step : DratStep) → IsTrue (have_no_zero clauses)
        → IsTrue (drat_step_has_no_zero step) → IsTrue (have_no_zero (after_by same clauses step)) }
    // Verified steps: nothing satisfies the clauses at the start.
    ensures refuted { (same : Equality) (clauses : List (List ℤ)) (steps : List DratStep) → IsTrue (have_no_zero clauses)
        → IsTrue (list_all drat_step_has_no_zero steps) → DratRefutesBy same clauses steps → (a : Assignment) → Satisfies a clauses → ⊥ }
{}
