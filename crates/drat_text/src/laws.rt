// What a DRAT text says, and what is read of a line that was written, as clauses of functions without work.
ghost use Rattle.std.specs.Prelude.{◌≡◌, ℕ, ◌+◌, ◌<◌, ◌≤◌, List, [], ◌∷◌, ◌++◌, length, Some, IsTrue};
ghost use Rattle.std.specs.List.{join_with_byte};
ghost use Rattle.cnf_base.specs.Text.{rows, words_of, line_ends, end_line};
ghost use Rattle.cnf_base.specs.ProofText.{are_whole_lines};
ghost use Rattle.lrat_text.specs.LineSteps.{no_more, overlong, rows_within, steps_by};
ghost use Rattle.drat_text.specs.declared.step.DratStep.{DratStep};
ghost use Rattle.drat_text.specs.DratText.{drat_step_of, drat_lines, drat_line_of, drat_words, line_of_drat, is_drat_printable};
ghost use Rattle.drat_text.specs.DratSteps.{drat_steps_in, drat_lines_then, drat_lines_within};

use crate::line::DratLine;
use lrat_text::line_law;

/// A text within the limit gives the steps of its lines, up to the first that spells none, and then its end; a text beyond
/// the limit those of the lines whose ends stand under it, and then that it is too long.
pub fn drat_text_law()
    ensures whole { (limit : ℕ) (bytes : List ℕ) → length bytes ≤ limit → drat_steps_in limit bytes
        ≡ drat_lines_then (drat_lines bytes) (no_more (end_line bytes)) }
    ensures within { (limit : ℕ) (bytes : List ℕ) → limit < length bytes → drat_steps_in limit bytes
        ≡ drat_lines_then (drat_lines_within limit bytes) overlong }
{
    line_law::<DratLine>();
}

/// The line that is written for a step has the step's words, which spell the step; on a text of whole lines it adds just this
/// step.
pub fn drat_line_law()
    ensures words { (step : DratStep) → IsTrue (is_drat_printable step) → words_of (join_with_byte 32 (drat_words step)) ≡ drat_words step }
    ensures spelled { (step : DratStep) → IsTrue (is_drat_printable step) → drat_step_of (drat_words step) ≡ Some step }
    ensures appended { (bytes : List ℕ) (step : DratStep) → IsTrue (are_whole_lines bytes) → IsTrue (is_drat_printable step)
        → drat_lines (bytes ++ line_of_drat step) ≡ drat_lines bytes ++ record { line = line_ends bytes + 1; step = Some step } ∷ [] }
    ensures whole { (bytes : List ℕ) (step : DratStep) → IsTrue (are_whole_lines (bytes ++ line_of_drat step)) }
    ensures ends { (bytes : List ℕ) (step : DratStep) → IsTrue (is_drat_printable step) → line_ends (bytes ++ line_of_drat step)
        ≡ line_ends bytes + 1 }
{}
