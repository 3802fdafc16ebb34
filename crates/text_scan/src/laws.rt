// Laws of the items of a text, as clauses of functions without work, for the readers above.
ghost use Rattle.std.specs.Prelude.{◌≡◌, ℕ, ◌≤◌, List, length, map, IsTrue};
ghost use Rattle.std.specs.List.{list_all};
ghost use Rattle.cnf_base.specs.Number.{is_short, plain_number, signed_number};
ghost use Rattle.cnf_base.specs.ProofText.{is_delete_word};
ghost use Rattle.cnf_base.specs.Text.{Word, tokens, end_line};
ghost use Rattle.text_scan.specs.Items.{items, the_end, words_then, kept};

/// What is kept of a token says the same as the token: how long it is at most, and which number it is.
pub fn kept_word_law()
    ensures short { (word : Word) → is_short (kept word).bytes ≡ is_short word.bytes }
    ensures whole { (word : Word) → IsTrue (is_short word.bytes) → kept word ≡ word }
    ensures plain { (word : Word) → plain_number (kept word).bytes ≡ plain_number word.bytes }
    ensures signed { (word : Word) → signed_number (kept word).bytes ≡ signed_number word.bytes }
    ensures deletion { (word : Word) → is_delete_word (kept word).bytes ≡ is_delete_word word.bytes }
{}

/// A text within the limit without a long token gives its tokens and its end.
pub fn short_text_law()
    ensures { (comment limit : ℕ) (bytes : List ℕ) → length bytes ≤ limit
        → IsTrue (list_all (λ word. is_short word.bytes) (tokens comment bytes))
        → items comment limit bytes ≡ words_then (tokens comment bytes) (the_end (end_line bytes)) }
{}
