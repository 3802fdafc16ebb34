// Laws of the definitions of texts, numbers and steps, as clauses of functions without work.
ghost use Rattle.std.specs.Prelude.{◌≡◌, ℕ, ◌+◌, ◌^◌, ◌<◌, ℤ, nat_abs, List, [], ◌∷◌, ◌++◌, length, None, Some, IsTrue, nat_le, decimal};
ghost use Rattle.std.specs.Prelude.{slice_index};
ghost use Rattle.std.specs.Fmt.{signed_decimal};
ghost use Rattle.std.specs.List.{list_all, join_with_byte};
ghost use Rattle.cnf_base.specs.declared.list.Group.{Group};
ghost use Rattle.cnf_base.specs.declared.step.Step.{Step};
ghost use Rattle.cnf_base.specs.declared.step.Step.TheVariants.{Add, Delete};
ghost use Rattle.cnf_base.specs.Truth.{is_literal_of};
ghost use Rattle.cnf_base.specs.Number.{is_digit, plain_number, signed_number};
ghost use Rattle.cnf_base.specs.Text.{words_of, line_ends};
ghost use Rattle.cnf_base.specs.ProofText.{max_id, max_literal, is_id, is_group, is_printable, step_words, step_of, line_of_step};
ghost use Rattle.cnf_base.specs.ProofText.{proof_lines, are_whole_lines};

/// A number that is printed is read again.
pub fn number_laws()
    ensures plain { (n : ℕ) → n < 2 ^ 64 → plain_number (decimal n) ≡ Some n }
    ensures signed { (z : ℤ) → nat_abs z < 2 ^ 64 → signed_number (signed_decimal z) ≡ Some z }
{}

/// The line that is written for a step, without its end, has the step's words, and they spell the step.
pub fn step_line_law()
    ensures words { (step : Step) → IsTrue (is_printable step) → words_of (join_with_byte 32 (step_words step)) ≡ step_words step }
    ensures spelled { (step : Step) → IsTrue (is_printable step) → step_of (step_words step) ≡ Some step }
    ensures line { (step : Step) (front : List ℕ) → IsTrue (is_printable step) → line_of_step step ≡ front ++ 10 ∷ []
        → step_of (words_of front) ≡ Some step }
{}

/// The line of a step on a proof of whole lines adds just this step, and leaves whole lines.
pub fn one_more_line_law()
    ensures appended { (bytes : List ℕ) (step : Step) → IsTrue (are_whole_lines bytes) → IsTrue (is_printable step)
        → proof_lines (bytes ++ line_of_step step) ≡ proof_lines bytes ++ record { line = line_ends bytes + 1; step = Some step } ∷ [] }
    ensures whole { (bytes : List ℕ) (step : Step) → IsTrue (are_whole_lines (bytes ++ line_of_step step)) }
    ensures ends { (bytes : List ℕ) (step : Step) → IsTrue (is_printable step) → line_ends (bytes ++ line_of_step step) ≡ line_ends bytes
        + 1 }
    ensures begins { (step : Step) → IsTrue (is_printable step) → IsTrue (is_digit (slice_index (line_of_step step) 0)) }
    ensures not_empty { (step : Step) → 0 < length (line_of_step step) }
{}

/// No line end stands in a proper front of a step's line.
pub fn front_of_line_law()
    ensures { (front rest : List ℕ) (step : Step) → IsTrue (is_printable step) → front ++ rest ≡ line_of_step step → 0 < length rest
        → line_ends front ≡ 0 }
{}

/// The numbers of a step that a line spells are in their ranges.
pub fn step_range_law()
    ensures printable { (words : List (List ℕ)) (step : Step) → step_of words ≡ Some step → IsTrue (is_printable step) }
    ensures id { (words : List (List ℕ)) (id : ℕ) (literals : List ℤ) (hints : List ℕ) (groups : List Group) → step_of words
        ≡ Some (Add id literals hints groups)
        → IsTrue (is_id id) }
    ensures literals { (words : List (List ℕ)) (id : ℕ) (literals : List ℤ) (hints : List ℕ) (groups : List Group) → step_of words
        ≡ Some (Add id literals hints groups)
        → IsTrue (list_all (is_literal_of max_literal) literals) }
    ensures hints { (words : List (List ℕ)) (id : ℕ) (literals : List ℤ) (hints : List ℕ) (groups : List Group) → step_of words
        ≡ Some (Add id literals hints groups)
        → IsTrue (list_all is_id hints) }
    ensures groups { (words : List (List ℕ)) (id : ℕ) (literals : List ℤ) (hints : List ℕ) (groups : List Group) → step_of words
        ≡ Some (Add id literals hints groups)
        → IsTrue (list_all is_group groups) }
    ensures deletion { (words : List (List ℕ)) (id : ℕ) (ids : List ℕ) → step_of words ≡ Some (Delete id ids) → IsTrue (nat_le id max_id) }
    ensures deleted { (words : List (List ℕ)) (id : ℕ) (ids : List ℕ) → step_of words ≡ Some (Delete id ids) → IsTrue (list_all is_id ids) }
{}
