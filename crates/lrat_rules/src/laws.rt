// Laws of the rules, over everything: functions without work, whose clauses the crates above cite by a call.
ghost use Rattle.std.specs.Prelude.{◌≡◌, ◌≤◌, ◌<◌, ◌+◌, ◌++◌, ℕ, ℤ, List, [], ◌∷◌, map, length, None, Some, IsTrue, IsFalse, is_some};
ghost use Rattle.std.specs.Prelude.{slice_index_or, if◌then◌else◌, ◌==◌};
ghost use Rattle.std.specs.List.{list_all, list_any};
ghost use Rattle.cnf_base.specs.declared.step.Step.{Step};
ghost use Rattle.cnf_base.specs.declared.step.Step.TheVariants.{Add};
ghost use Rattle.cnf_base.specs.ProofText.{proof_lines, line_of_step, is_printable, is_empty};
ghost use Rattle.cnf_base.specs.Truth.{AreClausesOf};
ghost use Rattle.lrat_rules.specs.Marks.{in_use};
ghost use Rattle.lrat_rules.specs.State.{State, Live, clause_at, start, with_clause};
ghost use Rattle.lrat_rules.specs.Chain.{Closes, literals_of};
ghost use Rattle.lrat_rules.specs.Addition.{fault};
ghost use Rattle.lrat_rules.specs.Conservative.{is_conservative};
ghost use Rattle.lrat_rules.specs.Strict.{RefutesStrictly, IsDefinition};
ghost use Rattle.lrat_rules.specs.Derivation.{IsDerivation, IsWritten, deletes_added, lines_from, text_of};
ghost use Rattle.lrat_rules.specs.Run.{Reached, Refutes, Spells, run, step_fault, after_step, step_adds_empty, adds_empty_clause};

/// An addition by a strict refutation is good, and conservative: its hints close, and each of them names a live clause.
pub fn strict_addition_law()
    ensures good { (state : State) (id : ℕ) (clause : List ℤ) (hints : List ℕ) → state.top < id
        → RefutesStrictly state.live clause hints → fault state id clause hints [] ≡ None }
    ensures closes { (live : Live) (clause : List ℤ) (hints : List ℕ) → RefutesStrictly live clause hints
        → Closes live (literals_of clause) hints }
    ensures live { (live : Live) (clause : List ℤ) (hints : List ℕ) → RefutesStrictly live clause hints
        → IsTrue (list_all (λ hint. is_some (clause_at live hint)) hints) }
    ensures conservative { (vars : ℕ) (state : State) (id : ℕ) (clause : List ℤ) (hints : List ℕ) → RefutesStrictly state.live clause hints
        → IsTrue (is_conservative vars state (Add id clause hints [])) }
{}

/// A clause whose candidates are all named, and all blocked, is a good addition with no further hints.
pub fn definition_law()
    ensures { (state : State) (id : ℕ) (clause : List ℤ) (candidates : List ℕ) → state.top < id
        → IsDefinition state.live clause candidates → fault state id clause []
        (map (λ candidate. record { id = candidate; hints = [] }) candidates) ≡ None }
{}

/// A live clause without literals refutes every clause, as the only hint.
pub fn conflict_law()
    ensures { (live : Live) (clause : List ℤ) (hint : ℕ) → clause_at live hint ≡ Some [] → RefutesStrictly live clause (hint ∷ []) }
{}

/// At first the formula's clauses stand under 1, 2, .., and nothing else; the empty text spells this state.
pub fn start_law()
    ensures clauses { (clauses : List (List ℤ)) (i : ℕ) → i < length clauses → clause_at (start clauses).live (i + 1)
        ≡ Some (slice_index_or clauses i []) }
    ensures none_at_zero { (clauses : List (List ℤ)) → clause_at (start clauses).live 0 ≡ None }
    ensures none_above { (clauses : List (List ℤ)) (id : ℕ) → length clauses < id → clause_at (start clauses).live id ≡ None }
    ensures spells { (clauses : List (List ℤ)) → Spells clauses [] (start clauses) }
    ensures appended { (clauses : List (List ℤ)) (clause : List ℤ) → start (clauses ++ clause ∷ [])
        ≡ record { live = with_clause (start clauses).live (length clauses + 1) clause; top = length clauses + 1 } }
{}

/// What stands under a number once a clause was put under one.
pub fn live_law()
    ensures { (live : Live) (id other : ℕ) (clause : List ℤ) → clause_at (with_clause live id clause) other
        ≡ (if other == id then Some clause else clause_at live other) }
{}

/// A text of good steps one of which adds the empty clause is verified; and a verified text is such a text.
pub fn refuted_law()
    ensures refutes { (clauses : List (List ℤ)) (bytes : List ℕ) (state : State) → Spells clauses bytes state
        → IsTrue (adds_empty_clause bytes) → Refutes clauses bytes }
    ensures reaches { (clauses : List (List ℤ)) (bytes : List ℕ) → Refutes clauses bytes → (state : State)
        × (run (start clauses) (proof_lines bytes) ≡ Reached state) }
    ensures adds_empty { (clauses : List (List ℤ)) (bytes : List ℕ) → Refutes clauses bytes → IsTrue (adds_empty_clause bytes) }
{}

/// A derivation, one step more, and its written form, which spells it.
pub fn derivation_law()
    ensures none { (clauses : List (List ℤ)) → IsDerivation clauses [] (start clauses) }
    ensures one_more { (clauses : List (List ℤ)) (steps : List Step) (state : State) (step : Step) → IsDerivation clauses steps state
        → step_fault state step ≡ None
        → IsTrue (is_printable step) → IsTrue (deletes_added (length clauses) state step)
        → IsDerivation clauses (steps ++ step ∷ []) (after_step state step) }
    ensures text { (steps : List Step) (step : Step) → text_of (steps ++ step ∷ []) ≡ text_of steps ++ line_of_step step }
    ensures spells { (clauses : List (List ℤ)) (bytes : List ℕ) (state : State) → IsWritten clauses bytes state
        → Spells clauses bytes state }
    // A step that adds the empty clause; and a live clause without literals, which was added or is the formula's.
    ensures refutes_by_step { (clauses : List (List ℤ)) (steps : List Step) (state : State) → IsDerivation clauses steps state
        → IsTrue (list_any step_adds_empty steps)
        → Refutes clauses (text_of steps) }
    ensures refutes { (clauses : List (List ℤ)) (bytes : List ℕ) (state : State) (id : ℕ) → IsWritten clauses bytes state
        → IsFalse (list_any is_empty clauses)
        → clause_at state.live id ≡ Some [] → Refutes clauses bytes }
{
    cnf_base::one_more_line_law();
}

/// Steps whose lines can be read again, whatever they delete: their text gives them again, and refutes the formula where they
/// are good and one of them adds the empty clause.
pub fn steps_text_law()
    ensures lines { (steps : List Step) → IsTrue (list_all is_printable steps) → proof_lines (text_of steps) ≡ lines_from 1 steps }
    ensures refutes { (clauses : List (List ℤ)) (steps : List Step) (state : State) → run (start clauses) (lines_from 1 steps)
        ≡ Reached state
        → IsTrue (list_all is_printable steps) → IsTrue (list_any step_adds_empty steps) → Refutes clauses (text_of steps) }
{
    cnf_base::one_more_line_law();
}

/// Extension variables in use: none at the start, and no fewer where there are more live clauses.
pub fn marks_law()
    ensures start { (vars : ℕ) (clauses : List (List ℤ)) → AreClausesOf vars clauses → in_use vars (start clauses) ≡ 0 }
    ensures fewer { (vars : ℕ) (few more : State) → ((id : ℕ) (clause : List ℤ) → clause_at few.live id ≡ Some clause
        → clause_at more.live id ≡ Some clause)
        → in_use vars few ≤ in_use vars more }
{}
