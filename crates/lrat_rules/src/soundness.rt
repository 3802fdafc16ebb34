// The laws of soundness: what good steps keep, that a verified text refutes the formula, and what follows from it by conservative steps.
ghost use Rattle.std.specs.Prelude.{◌≡◌, ℕ, ℤ, List, [], IsTrue, None, Some};
ghost use Rattle.std.specs.List.{list_all};
ghost use Rattle.cnf_base.specs.declared.list.Group.{Group};
ghost use Rattle.cnf_base.specs.declared.step.Step.{Step};
ghost use Rattle.cnf_base.specs.Truth.{Assignment, Satisfies, AreClausesOf, clause_holds, is_literal_of};
ghost use Rattle.cnf_base.specs.ProofText.{Line, proof_lines};
ghost use Rattle.lrat_rules.specs.State.{State, Live, clause_at, start, with_clause, without_clauses, SatisfiesLive};
ghost use Rattle.lrat_rules.specs.Chain.{Closes, literals_of};
ghost use Rattle.lrat_rules.specs.Addition.{fault};
ghost use Rattle.lrat_rules.specs.Conservative.{IsAddedBy, are_conservative};
ghost use Rattle.lrat_rules.specs.Derivation.{IsDerivation};
ghost use Rattle.lrat_rules.specs.Run.{run, after_step, Reached, Refutes};
ghost use Rattle.lrat_rules.specs.Soundness.{LiveHasNoZero, step_has_no_zero, lines_have_no_zero, SatisfiesUpToPivot};

/// Nothing is assumed of fresh variables, of the order of numbers beyond the rules, of deletions, nor of repeated
/// literals. No literal is 0, whose negation would be itself.
pub fn soundness_law()
    // Hints that close: each assignment that satisfies the live clauses satisfies the added one too.
    ensures addition_by_hints { (a : Assignment) (live : Live) (id : ℕ) (clause : List ℤ) (hints : List ℕ) → LiveHasNoZero live
        → SatisfiesLive a live
        → Closes live (literals_of clause) hints → SatisfiesLive a (with_clause live id clause) }
    ensures addition { (a : Assignment) (state : State) (id : ℕ) (clause : List ℤ) (hints : List ℕ) (groups : List Group)
        → LiveHasNoZero state.live
        → SatisfiesLive a state.live → fault state id clause hints groups ≡ None
        → SatisfiesUpToPivot a clause (with_clause state.live id clause) }
    ensures deletion { (a : Assignment) (live : Live) (ids : List ℕ) → SatisfiesLive a live → SatisfiesLive a (without_clauses live ids) }
    // After a run some assignment still satisfies the live clauses.
    ensures steps { (a : Assignment) (state reached : State) (lines : List Line) → run state lines ≡ Reached reached
        → LiveHasNoZero state.live
        → IsTrue (lines_have_no_zero lines) → SatisfiesLive a state.live → (b : Assignment) × SatisfiesLive b reached.live }
    // The premises hold at the start, and at each step and line of a text.
    ensures start { (a : Assignment) (clauses : List (List ℤ)) → Satisfies a clauses → SatisfiesLive a (start clauses).live }
    ensures nonzero_start { (vars : ℕ) (clauses : List (List ℤ)) → AreClausesOf vars clauses → LiveHasNoZero (start clauses).live }
    ensures nonzero_step { (state : State) (step : Step) → LiveHasNoZero state.live → IsTrue (step_has_no_zero step)
        → LiveHasNoZero (after_step state step).live }
    ensures nonzero_steps { (state reached : State) (lines : List Line) → run state lines ≡ Reached reached → LiveHasNoZero state.live
        → IsTrue (lines_have_no_zero lines) → LiveHasNoZero reached.live }
    ensures nonzero_text { (bytes : List ℕ) → IsTrue (lines_have_no_zero (proof_lines bytes)) }
    // A verified text: nothing satisfies the formula.
    ensures refuted { (vars : ℕ) (clauses : List (List ℤ)) (bytes : List ℕ) → AreClausesOf vars clauses → Refutes clauses bytes
        → (a : Assignment) → Satisfies a clauses → ⊥ }
    // A derivation of a live clause without literals, however it is written: nothing satisfies the formula.
    ensures derived { (vars : ℕ) (clauses : List (List ℤ)) (steps : List Step) (state : State) (id : ℕ) → AreClausesOf vars clauses
        → IsDerivation clauses steps state
        → clause_at state.live id ≡ Some [] → (a : Assignment) → Satisfies a clauses → ⊥ }
{}

/// A clause over the formula's variables that conservative steps add holds under every assignment that satisfies the formula. So each of
/// them answers a question of its own.
pub fn conservative_law()
    ensures { (vars : ℕ) (clauses : List (List ℤ)) (steps : List Step) (state : State) → AreClausesOf vars clauses
        → IsDerivation clauses steps state → IsTrue (are_conservative vars (start clauses) steps)
        → (clause : List ℤ) → IsAddedBy steps clause → IsTrue (list_all (is_literal_of vars) clause)
        → (a : Assignment) → Satisfies a clauses → IsTrue (clause_holds a clause) }
{}
