// Laws of the rules, over everything: functions without work, whose clauses the crates above cite by a call.
ghost use Rattle.std.specs.Prelude.{◌≡◌, ℕ, ℤ, neg_ℤ, List, [], ◌∷◌, ◌++◌, None, Some, IsTrue, true, false};
ghost use Rattle.std.specs.FinMap as map;
ghost use Rattle.drat_text.specs.declared.step.DratStep.TheVariants.{Add as adds, Delete as deletes};
ghost use Rattle.lrat_rules.specs.declared.outcome.Effect.TheVariants.{Conflict, Unit as Forced};
ghost use Rattle.lrat_rules.specs.declared.outcome.Reason.TheVariants.{NoConflict, CandidateOpen};
ghost use Rattle.lrat_rules.specs.State.{Live, clause_at, start, with_clause};
ghost use Rattle.lrat_rules.specs.Chain.{FalseSet, literals_of, effect};
ghost use Rattle.lrat_rules.specs.Addition.{holds_negated};
ghost use Rattle.drat_rules.specs.Clauses.{is_among};
ghost use Rattle.drat_rules.specs.Quiet.{closed_under, IsQuiet, Includes, Falsifies, has_quiet};
ghost use Rattle.drat_rules.specs.Addition.{others_of, drat_fault};
ghost use Rattle.drat_rules.specs.Run.{after};
ghost use Rattle.drat_rules.specs.FromLrat.{HaveSame};

/// The test for a quiet set fails exactly where there is none, of all sets: those of other literals matter no more.
pub fn quiet_law()
    ensures none { (clauses : List (List ℤ)) (clause : List ℤ) → has_quiet clauses clause ≡ false
        → (n : FalseSet) → IsQuiet clauses n → Falsifies n clause → ⊥ }
    ensures fails { (clauses : List (List ℤ)) (clause : List ℤ) → ((n : FalseSet) → IsQuiet clauses n → Falsifies n clause → ⊥)
        → has_quiet clauses clause ≡ false }
    // Where it passes, there is one of finitely many literals.
    ensures finite { (clauses : List (List ℤ)) (clause : List ℤ) → has_quiet clauses clause ≡ true
        → (literals : List ℤ) × IsQuiet clauses (literals_of literals) × Falsifies (literals_of literals) clause }
{}

/// Propagation by one clause after another stays within each quiet set that has the literals it began with; so where it comes
/// to a false clause there is none. Where it finds nothing more, and no literal beside its negation, it ends in one.
pub fn propagation_law()
    ensures forced { (clauses : List (List ℤ)) (n begun : FalseSet) (clause : List ℤ) (literal : ℤ) → IsQuiet clauses n
        → Includes n begun → IsTrue (is_among clauses clause) → effect begun clause ≡ Forced literal → n (neg_ℤ literal) ≡ true }
    ensures conflict { (clauses : List (List ℤ)) (n begun : FalseSet) (clause : List ℤ) → IsQuiet clauses n → Includes n begun
        → IsTrue (is_among clauses clause) → effect begun clause ≡ Conflict → ⊥ }
    ensures ends { (clauses : List (List ℤ)) (n : FalseSet) → ((x : ℤ) → n x ≡ true → n (neg_ℤ x) ≡ false)
        → ((clause : List ℤ) → IsTrue (is_among clauses clause) → IsTrue (closed_under n clause)) → IsQuiet clauses n }
{}

/// The fault of an addition where clauses have numbers: by what propagation tells of the clause, and of each candidate.
pub fn drat_addition_law()
    ensures refuted { (clauses : List (List ℤ)) (clause : List ℤ) → has_quiet clauses clause ≡ false → drat_fault clauses clause ≡ None }
    ensures empty { (clauses : List (List ℤ)) → has_quiet clauses [] ≡ true → drat_fault clauses [] ≡ Some NoConflict }
    ensures resolved { (live : Live) (clauses : List (List ℤ)) (pivot : ℤ) (others : List ℤ) → HaveSame live clauses
        → ((id : ℕ) (other : List ℤ) → clause_at live id ≡ Some other → IsTrue (holds_negated pivot other)
        → has_quiet clauses ((pivot ∷ others) ++ others_of pivot other) ≡ false)
        → drat_fault clauses (pivot ∷ others) ≡ None }
    // One candidate that stays open is enough, whatever is known of the clause itself.
    ensures open { (live : Live) (clauses : List (List ℤ)) (pivot : ℤ) (others : List ℤ) (id : ℕ) (other : List ℤ)
        → HaveSame live clauses → clause_at live id ≡ Some other → IsTrue (holds_negated pivot other)
        → has_quiet clauses ((pivot ∷ others) ++ others_of pivot other) ≡ true
        → drat_fault clauses (pivot ∷ others) ≡ Some CandidateOpen }
{}

/// Clauses with numbers that are the same as those of a list: what stands in either stands in the other, and they stay the
/// same through additions and deletions, whichever of equal clauses loses its number.
pub fn same_clauses_law()
    ensures start { (clauses : List (List ℤ)) → HaveSame (start clauses).live clauses }
    ensures listed { (live : Live) (clauses : List (List ℤ)) (id : ℕ) (clause : List ℤ) → HaveSame live clauses
        → clause_at live id ≡ Some clause → IsTrue (is_among clauses clause) }
    ensures live { (live : Live) (clauses : List (List ℤ)) (clause : List ℤ) → HaveSame live clauses → IsTrue (is_among clauses clause)
        → (id : ℕ) × (clause_at live id ≡ Some clause) }
    ensures added { (live : Live) (clauses : List (List ℤ)) (id : ℕ) (clause : List ℤ) → HaveSame live clauses
        → clause_at live id ≡ None → HaveSame (with_clause live id clause) (after clauses (adds clause)) }
    ensures deleted { (live : Live) (clauses : List (List ℤ)) (id : ℕ) (clause : List ℤ) → HaveSame live clauses
        → clause_at live id ≡ Some clause → HaveSame (map.remove live id) (after clauses (deletes clause)) }
    // A clause that has no number is passed over.
    ensures not_there { (live : Live) (clauses : List (List ℤ)) (clause : List ℤ) → HaveSame live clauses
        → ((id : ℕ) → clause_at live id ≡ Some clause → ⊥) → after clauses (deletes clause) ≡ clauses }
{}
