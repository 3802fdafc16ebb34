// Worked examples that the definitions of texts, numbers and steps compute, as clauses of functions without work.
ghost use Rattle.std.specs.Prelude.{◌≡◌, [], ◌∷◌, ◌++◌, None, Some, pos, negsuc, map, replicate, codes};
ghost use Rattle.cnf_base.specs.declared.step.Step.TheVariants.{Add, Delete};
ghost use Rattle.cnf_base.specs.Number.{plain_number, signed_number};
ghost use Rattle.cnf_base.specs.Text.{tokens, end_line, words_of};
ghost use Rattle.cnf_base.specs.ProofText.{step_of, proof_lines, line_of_step};

/// Numbers: signs, leading zeros, minus zero, and the limit of 64 bytes.
pub fn number_examples()
    ensures zeros { plain_number (codes "007") ≡ Some 7 }
    ensures sign { plain_number (codes "-7") ≡ None }
    ensures plus { signed_number (codes "+1") ≡ None }
    ensures minus { signed_number (codes "-012") ≡ Some (negsuc 11) }
    ensures minus_zero { signed_number (codes "-0") ≡ None }
    ensures lone_minus { signed_number (codes "-") ≡ None }
    ensures at_limit { plain_number (replicate 64 48) ≡ Some 0 }
    ensures over_limit { plain_number (replicate 65 48) ≡ None }
    ensures signed_at_limit { signed_number (45 ∷ replicate 62 48 ++ 49 ∷ []) ≡ Some (negsuc 0) }
    ensures signed_over_limit { signed_number (45 ∷ replicate 63 48 ++ 49 ∷ []) ≡ None }
{}

/// Tokens: blanks, CR LF, comment lines, a last line without its end, the line of the end.
pub fn token_examples()
    ensures lines { tokens 99 (codes "p cnf\r\n c x\n\t1 0") ≡ record { bytes = codes "p"; line = 1 }
        ∷ record { bytes = codes "cnf"; line = 1 }
        ∷ record { bytes = codes "1"; line = 3 } ∷ record { bytes = codes "0"; line = 3 } ∷ [] }
    ensures other_comment { tokens 35 (codes "c\n#c\n") ≡ record { bytes = codes "c"; line = 1 } ∷ [] }
    ensures end { end_line (codes "1\n\n2") ≡ 3 }
    ensures ended { end_line (codes "1\n") ≡ 2 }
{}

/// Lines of a proof.
pub fn step_examples()
    ensures empty_clause { step_of (words_of (codes "2 0 1 0")) ≡ Some (Add 2 [] (1 ∷ []) []) }
    ensures groups { step_of (words_of (codes "6 -4 1 3 0 -4 7 -5 0")) ≡ Some (Add 6 (negsuc 3 ∷ pos 1 ∷ pos 3 ∷ []) []
        (record { id = 4; hints = 7 ∷ [] } ∷ record { id = 5; hints = [] } ∷ [])) }
    ensures deletion { step_of (words_of (codes "0 d 3 4 0")) ≡ Some (Delete 0 (3 ∷ 4 ∷ [])) }
    ensures not_ended { step_of (words_of (codes "3 0 1 2")) ≡ None }
    ensures more_behind { step_of (words_of (codes "3 0 1 2 0 5")) ≡ None }
    ensures two_steps { step_of (words_of (codes "3 1 0 2 0 4 5 0 2 0")) ≡ None }
    ensures identifier_zero { step_of (words_of (codes "0 0 1 0")) ≡ None }
    ensures literal_limit { step_of (words_of (codes "3 2147483648 0 0")) ≡ None }
    ensures hint_limit { step_of (words_of (codes "3 0 1000000000000000000 0")) ≡ None }
    ensures lines { proof_lines (codes "c 3 x\n3 1 0\r\n") ≡ record { line = 2; step = None } ∷ [] }
    ensures written { line_of_step (Add 7 (negsuc 2 ∷ []) [] (record { id = 6; hints = [] } ∷ [])) ≡ codes "7 -3 0 -6 0\n" }
    ensures deletion_written { line_of_step (Delete 9 (4 ∷ [])) ≡ codes "9 d 4 0\n" }
{}

/// A proof of six lines.
pub fn proof_example()
    ensures { proof_lines (codes "2 3 -2 0 0\n3 -3 2 0 -2 0\n4 4 -1 0 0\n5 4 1 -3 0 0\n6 -4 1 3 0 -4 -5 0\n7 4 0 4 5 2 1 0\n")
        ≡ record { line = 1; step = Some (Add 2 (pos 3 ∷ negsuc 1 ∷ []) [] []) }
        ∷ record { line = 2; step = Some (Add 3 (negsuc 2 ∷ pos 2 ∷ []) [] (record { id = 2; hints = [] } ∷ [])) }
        ∷ record { line = 3; step = Some (Add 4 (pos 4 ∷ negsuc 0 ∷ []) [] []) }
        ∷ record { line = 4; step = Some (Add 5 (pos 4 ∷ pos 1 ∷ negsuc 2 ∷ []) [] []) }
        ∷ record {
          line = 5;
          step = Some (Add 6 (negsuc 3 ∷ pos 1 ∷ pos 3 ∷ []) []
              (record { id = 4; hints = [] } ∷ record { id = 5; hints = [] } ∷ []));
        }
        ∷ record { line = 6; step = Some (Add 7 (pos 4 ∷ []) (4 ∷ 5 ∷ 2 ∷ 1 ∷ []) []) } ∷ [] }
{}
