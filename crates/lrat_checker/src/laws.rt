// What the verdict on a text says by the rules, as clauses of a function without work.
ghost use Rattle.std.specs.Prelude.{◌≡◌, ℕ, ◌<◌, ◌≤◌, ℤ, List, length, None, Some};
ghost use Rattle.cnf_base.specs.declared.list.Group.{Group};
ghost use Rattle.lrat_rules.specs.declared.outcome.Reason.{Reason};
ghost use Rattle.lrat_rules.specs.State.{Live, start};
ghost use Rattle.lrat_rules.specs.Run.{run, verdict, Refutes};
ghost use Rattle.lrat_text.specs.Steps.{lines_within};
ghost use Rattle.proof_judging.specs.declared.verdict.Verdict.TheVariants.{Verified, Refused};
ghost use Rattle.lrat_checker.specs.Cuts.{cut_by, cut_of, uses_of};
ghost use Rattle.proof_judging.specs.Verdict.{verdict_as};
ghost use Rattle.lrat_checker.specs.TextVerdict.{max_bytes, text_verdict, verdict_within};

use lrat_text::{long_text_law, whole_text_law};

/// The verdict on a text within the limit is that of the rules. A longer text is refused at the first bad one of the
/// lines that end under the limit, and else it is too long; so it is never verified, and refused only as the rules
/// refuse it.
pub fn check_law()
    ensures same { (clauses : List (List ℤ)) (bytes : List ℕ) → length bytes ≤ max_bytes → text_verdict clauses bytes
        ≡ Some (verdict_as (verdict clauses bytes)) }
    ensures long { (clauses : List (List ℤ)) (bytes : List ℕ) → max_bytes < length bytes
        → text_verdict clauses bytes ≡ verdict_within (run (start clauses) (lines_within max_bytes bytes)) }
    ensures verified { (clauses : List (List ℤ)) (bytes : List ℕ) → text_verdict clauses bytes ≡ Some Verified → Refutes clauses bytes }
    ensures refutes { (clauses : List (List ℤ)) (bytes : List ℕ) → length bytes ≤ max_bytes → Refutes clauses bytes
        → text_verdict clauses bytes ≡ Some Verified }
    ensures refused { (clauses : List (List ℤ)) (bytes : List ℕ) (line : ℕ) (reason : Reason)
        → text_verdict clauses bytes ≡ Some (Refused line reason) → verdict clauses bytes ≡ Some (line, reason) }
    ensures overlong { (clauses : List (List ℤ)) (bytes : List ℕ) → text_verdict clauses bytes ≡ None → max_bytes < length bytes }
{
    whole_text_law();
    long_text_law();
}

/// Hints and groups cut to the numbers that the check of a good addition takes are what it needs.
pub fn cut_law()
    ensures { (live : Live) (clause : List ℤ) (hints : List ℕ) (groups : List Group)
        → cut_by (uses_of live clause hints groups) hints groups ≡ cut_of live clause hints groups }
{}
