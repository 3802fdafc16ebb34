// What the verdict on a DRAT text says by the rules, as clauses of a function without work.
ghost use Rattle.std.specs.Prelude.{◌≡◌, ℕ, ◌+◌, ◌<◌, ◌≤◌, ℤ, List, length, None, Some, IsTrue};
ghost use Rattle.std.specs.List.{list_all};
ghost use Rattle.cnf_base.specs.Text.{end_line};
ghost use Rattle.cnf_base.specs.Truth.{Assignment, AreClausesOf, Satisfies};
ghost use Rattle.proof_judging.specs.declared.verdict.Verdict.TheVariants.{Verified};
ghost use Rattle.proof_judging.specs.Verdict.{verdict_as};
ghost use Rattle.cnf_base.specs.Limits.{max_bytes};
ghost use Rattle.drat_text.specs.declared.step.DratStep.{DratStep};
ghost use Rattle.drat_text.specs.DratText.{drat_lines, drat_text, is_drat_printable};
ghost use Rattle.drat_rules.specs.Clauses.{Equality};
ghost use Rattle.drat_rules.specs.Run.{drat_verdict_by, DratRefutesBy};
ghost use Rattle.drat_checker.specs.DratVerdict.{drat_text_verdict_by, numbered_lines, steps_of_lines};

use drat_rules::drat_soundness_law;
use drat_text::{drat_line_law, drat_text_law};

/// The verdict on a text whose lines spell steps, one on each line, is that of the rules on the steps. A verified text has only
/// lines that spell steps, and these refute the formula, so that no assignment satisfies it. Only a text beyond the limit has no
/// verdict. So it is in whatever way clauses are told to be the same.
pub fn check_drat_law()
    ensures same { (same : Equality) (clauses : List (List ℤ)) (bytes : List ℕ) (steps : List DratStep) → length bytes ≤ max_bytes
        → drat_lines bytes ≡ numbered_lines 1 steps → end_line bytes ≡ length steps + 1
        → drat_text_verdict_by same clauses bytes ≡ Some (verdict_as (drat_verdict_by same clauses steps)) }
    // The text that is written for steps has their verdict.
    ensures written { (same : Equality) (clauses : List (List ℤ)) (steps : List DratStep) → IsTrue (list_all is_drat_printable steps)
        → length (drat_text steps) ≤ max_bytes
        → drat_text_verdict_by same clauses (drat_text steps) ≡ Some (verdict_as (drat_verdict_by same clauses steps)) }
    ensures verified { (same : Equality) (clauses : List (List ℤ)) (bytes : List ℕ)
        → drat_text_verdict_by same clauses bytes ≡ Some Verified
        → (steps : List DratStep) × (steps_of_lines (drat_lines bytes) ≡ Some steps) × DratRefutesBy same clauses steps }
    ensures refuted { (same : Equality) (vars : ℕ) (clauses : List (List ℤ)) (bytes : List ℕ) → AreClausesOf vars clauses
        → drat_text_verdict_by same clauses bytes ≡ Some Verified → (a : Assignment) → Satisfies a clauses → ⊥ }
    ensures overlong { (same : Equality) (clauses : List (List ℤ)) (bytes : List ℕ) → drat_text_verdict_by same clauses bytes ≡ None
        → max_bytes < length bytes }
{
    drat_text_law();
    drat_line_law();
    drat_soundness_law();
}
