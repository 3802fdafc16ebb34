// What the trimmed form of a verified proof is, as clauses of a function without work.
ghost use Rattle.std.specs.Prelude.{◌≡◌, ℕ, ◌+◌, ◌≤◌, Bool, ℤ, List, length, Some, IsTrue};
ghost use Rattle.cnf_base.specs.declared.step.Step.{Step};
ghost use Rattle.cnf_base.specs.ProofText.{are_whole_lines};
ghost use Rattle.cnf_base.specs.Truth.{AreClausesOf, Assignment, Satisfies};
ghost use Rattle.lrat_rules.specs.Run.{Refutes};
ghost use Rattle.proof_judging.specs.declared.verdict.Verdict.TheVariants.{Verified};
ghost use Rattle.lrat_checker.specs.TextVerdict.{max_bytes, text_verdict};
ghost use Rattle.proof_trim.specs.Core.{RefutesFrom, clauses_at, core, core_start};
ghost use Rattle.proof_trim.specs.Trimmed.{IsClosed, cut_up_to_end, each_named, needed, trim, trimmed};

use cnf_base::step_range_law;
use lrat_checker::check_law;
use lrat_rules::{soundness_law, start_law, steps_text_law};
use lrat_text::{long_text_law, whole_text_law};

/// The trimmed form of a verified proof refutes the formula. Each of its additions but that of the empty clause is named by a later
/// step. As a text within the limit it is verified too, and trimming it again gives the same.
pub fn trim_law()
    ensures refutes { (clauses : List (List ℤ)) (bytes : List ℕ) → text_verdict clauses bytes ≡ Some Verified
        → Refutes clauses (trim clauses bytes) }
    ensures named { (clauses : List (List ℤ)) (bytes : List ℕ) → IsTrue (each_named (trimmed clauses bytes)) }
    // The numbers that are needed have what the end and their own additions name, and no smaller set of numbers has what its own name.
    ensures closed { (clauses : List (List ℤ)) (bytes : List ℕ) → text_verdict clauses bytes ≡ Some Verified
        → IsClosed (cut_up_to_end clauses bytes) (needed (cut_up_to_end clauses bytes)) }
    ensures least { (steps : List Step) (numbers : ℕ → Bool) → IsClosed steps numbers → (id : ℕ) → IsTrue (needed steps id)
        → IsTrue (numbers id) }
    // No token of it is longer than the proof's, so it is at most as long, but for a last line end that the proof may lack.
    ensures short { (clauses : List (List ℤ)) (bytes : List ℕ) → length (trim clauses bytes) ≤ length bytes + 1 }
    ensures ended { (clauses : List (List ℤ)) (bytes : List ℕ) → IsTrue (are_whole_lines bytes)
        → length (trim clauses bytes) ≤ length bytes }
    ensures verified { (clauses : List (List ℤ)) (bytes : List ℕ) → text_verdict clauses bytes ≡ Some Verified
        → length (trim clauses bytes) ≤ max_bytes → text_verdict clauses (trim clauses bytes) ≡ Some Verified }
    ensures again { (clauses : List (List ℤ)) (bytes : List ℕ) → text_verdict clauses bytes ≡ Some Verified
        → length (trim clauses bytes) ≤ max_bytes → trim clauses (trim clauses bytes) ≡ trim clauses bytes }
    // Its lines refute the core alone, whose clauses keep their numbers; so no assignment satisfies these.
    ensures core_refuted { (clauses : List (List ℤ)) (bytes : List ℕ) → text_verdict clauses bytes ≡ Some Verified
        → RefutesFrom (core_start clauses (core clauses bytes)) (trimmed clauses bytes) }
    ensures core_unsatisfiable { (vars : ℕ) (clauses : List (List ℤ)) (bytes : List ℕ) → AreClausesOf vars clauses
        → text_verdict clauses bytes ≡ Some Verified → (a : Assignment) → Satisfies a (clauses_at clauses (core clauses bytes)) → ⊥ }
{
    start_law();
    soundness_law();
    step_range_law();
    whole_text_law();
    long_text_law();
    steps_text_law();
    check_law();
}
