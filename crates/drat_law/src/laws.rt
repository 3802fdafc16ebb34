// What an LRAT proof becomes keeps its verdict, as clauses of a function without work.
ghost use Rattle.std.specs.Prelude.{◌≡◌, ◌≤◌, ℕ, ◌+◌, ℤ, List, length, Some};
ghost use Rattle.std.specs.List.{range_with_len};
ghost use Rattle.cnf_base.specs.Limits.{max_vars};
ghost use Rattle.cnf_base.specs.ProofText.{max_literal};
ghost use Rattle.cnf_base.specs.Truth.{AreClausesOf};
ghost use Rattle.lrat_rules.specs.Run.{Refutes};
ghost use Rattle.proof_judging.specs.declared.verdict.Verdict.TheVariants.{Verified};
ghost use Rattle.lrat_checker.specs.TextVerdict.{max_bytes, text_verdict};
ghost use Rattle.drat_text.specs.DratText.{drat_text};
ghost use Rattle.drat_proof.specs.Drat.{drat, drat_steps};
ghost use Rattle.drat_rules.specs.Clauses.{equality_of};
ghost use Rattle.drat_rules.specs.Hits.{DeletesStanding};
ghost use Rattle.drat_rules.specs.Run.{DratRefutes};
ghost use Rattle.drat_rules.specs.declared.deletions.Deletions.{Deletions};
ghost use Rattle.drat_checker.specs.DratVerdict.{drat_text_verdict_by};
ghost use Rattle.fresh_names.specs.Fresh.{fresh};
ghost use Rattle.fresh_names.specs.Uses.{come_into_use};

/// The steps of DRAT that a verified LRAT proof becomes refute the same clauses, without hints.
pub fn drat_law()
    // By the verdict of the checker on the text, and by the rules of LRAT where the text is within the limit.
    ensures verified { (clauses : List (List ℤ)) (bytes : List ℕ) → text_verdict clauses bytes ≡ Some Verified
        → DratRefutes clauses (drat_steps clauses bytes) }
    ensures refutes { (clauses : List (List ℤ)) (bytes : List ℕ) → length bytes ≤ max_bytes → Refutes clauses bytes
        → DratRefutes clauses (drat_steps clauses bytes) }
    // Each deletion names a clause that stands, whatever the text is.
    ensures stand { (clauses : List (List ℤ)) (bytes : List ℕ) → DeletesStanding clauses (drat_steps clauses bytes) }
    // The text that is written for them is verified too, by lists and by sets of literals, unless it is longer than is looked at.
    ensures written { (deletions : Deletions) (vars : ℕ) (clauses : List (List ℤ)) (bytes : List ℕ) → vars ≤ max_literal
        → AreClausesOf vars clauses → text_verdict clauses bytes ≡ Some Verified → length (drat clauses bytes) ≤ max_bytes
        → drat_text_verdict_by (equality_of deletions) clauses (drat clauses bytes) ≡ Some Verified }
{
    drat_rules::any_order_law();
    drat_rules::from_lrat_law();
    drat_rules::same_clauses_law();
    lrat_checker::check_law();
    drat_checker::check_drat_law();
    lrat_rules::start_law();
    cnf_base::step_range_law();
    lrat_text::whole_text_law();
    lrat_text::long_text_law();
}

/// They refute the same clauses where each variable above the formula's has a new name each time that it comes into use.
pub fn fresh_drat_law()
    ensures refutes { (vars : ℕ) (clauses : List (List ℤ)) (bytes : List ℕ) → AreClausesOf vars clauses
        → text_verdict clauses bytes ≡ Some Verified → DratRefutes clauses (fresh vars (drat_steps clauses bytes)) }
    // The names come into use in turn, each once, whatever the text is.
    ensures once { (vars : ℕ) (clauses : List (List ℤ)) (bytes : List ℕ) → AreClausesOf vars clauses
        → come_into_use vars clauses (fresh vars (drat_steps clauses bytes))
        ≡ range_with_len (vars + 1) (length (come_into_use vars clauses (drat_steps clauses bytes))) }
    // Their text is verified too, by lists and by sets of literals, unless it is longer than is looked at; within that, no name is beyond
    // the format's literals.
    ensures written { (deletions : Deletions) (vars : ℕ) (clauses : List (List ℤ)) (bytes : List ℕ) → vars ≤ max_vars
        → AreClausesOf vars clauses → text_verdict clauses bytes ≡ Some Verified
        → length (drat_text (fresh vars (drat_steps clauses bytes))) ≤ max_bytes
        → drat_text_verdict_by (equality_of deletions) clauses (drat_text (fresh vars (drat_steps clauses bytes))) ≡ Some Verified }
{
    drat_rules::any_order_law();
    drat_rules::from_lrat_law();
    drat_rules::same_clauses_law();
    drat_checker::check_drat_law();
    lrat_rules::start_law();
    cnf_base::step_range_law();
    lrat_text::whole_text_law();
    lrat_text::long_text_law();
    fresh_names::fresh_law();
}
