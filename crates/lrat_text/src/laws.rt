// What the steps of a text are, within the limit and beyond it, as clauses of functions without work.
ghost use Rattle.std.specs.Prelude.{◌≡◌, ℕ, ℤ, ◌<◌, ◌≤◌, true, false, nat_abs, List, length, map, Some};
ghost use Rattle.std.specs.List.{list_all};
ghost use Rattle.std.specs.Option.{option_map};
ghost use Rattle.cnf_base.specs.Number.{signed_number};
ghost use Rattle.cnf_base.specs.Truth.{is_literal_of};
ghost use Rattle.cnf_base.specs.Text.{rows, end_line};
ghost use Rattle.cnf_base.specs.ProofText.{max_literal, all_given, is_delete_word, is_zero, proof_lines, split_at};
ghost use Rattle.text_scan.specs.Capped.{cap, capped_ℤ};
ghost use Rattle.lrat_text.specs.Numbers.{both, signed_word};
ghost use Rattle.lrat_text.specs.LineSteps.{AreFirst, rows_then, rows_within, steps_by};
ghost use Rattle.lrat_text.specs.Steps.{AreFront, no_more, overlong, lines_then, lines_within, steps};

use crate::draft::LratLine;
use crate::form::LineForm;

/// In any form of lines: a text within the limit gives the steps of its lines, up to the first that spells none, and then
/// its end; a text beyond the limit those of the lines whose ends stand under it, which are the first of its lines, and then
/// that it is too long.
pub fn line_law<F: LineForm>()
    ensures whole { (limit : ℕ) (bytes : List ℕ) → length bytes ≤ limit → steps_by F.form.step_of limit bytes
        ≡ rows_then F.form.step_of (rows 99 bytes) (no_more (end_line bytes)) }
    ensures within { (limit : ℕ) (bytes : List ℕ) → limit < length bytes → steps_by F.form.step_of limit bytes
        ≡ rows_then F.form.step_of (rows_within limit bytes) overlong }
    ensures first { (limit : ℕ) (bytes : List ℕ) → limit < length bytes → AreFirst (rows_within limit bytes) (rows 99 bytes) }
{
    F::form_law();
}

/// A text within the limit gives the steps of its lines, up to the first that spells none, and then its end.
pub fn whole_text_law()
    ensures { (limit : ℕ) (bytes : List ℕ) → length bytes ≤ limit → steps limit bytes
        ≡ lines_then (proof_lines bytes) (no_more (end_line bytes)) }
{
    line_law::<LratLine>();
}

/// A text beyond the limit gives the steps of the lines whose ends stand under it, up to the first that spells none, and
/// then that it is too long. These are the first of its lines.
pub fn long_text_law()
    ensures within { (limit : ℕ) (bytes : List ℕ) → limit < length bytes → steps limit bytes
        ≡ lines_then (lines_within limit bytes) overlong }
    ensures front { (limit : ℕ) (bytes : List ℕ) → limit < length bytes → AreFront (steps limit bytes) (proof_lines bytes) }
{
    line_law::<LratLine>();
}

/// For forms of lines whose numbers are literals: numbers that are cut say the same as the numbers.
pub fn kept_numbers_law()
    ensures given { (words : List (List ℕ)) → all_given (map signed_word words) ≡ option_map (map capped_ℤ) (all_given (map signed_number words)) }
    ensures split { (numbers : List ℤ) → split_at is_zero (map capped_ℤ numbers) ≡ option_map (both capped_ℤ) (split_at is_zero numbers) }
    ensures literals { (numbers : List ℤ) → list_all (is_literal_of max_literal) (map capped_ℤ numbers)
        ≡ list_all (is_literal_of max_literal) numbers }
    ensures same { (numbers : List ℤ) → list_all (is_literal_of max_literal) numbers ≡ true → map capped_ℤ numbers ≡ numbers }
    ensures small { (bytes : List ℕ) (number : ℤ) → signed_number bytes ≡ Some number → nat_abs number ≤ cap → signed_word bytes ≡ Some number }
    ensures no_deletion { (bytes : List ℕ) (number : ℤ) → signed_number bytes ≡ Some number → is_delete_word bytes ≡ false }
{}
