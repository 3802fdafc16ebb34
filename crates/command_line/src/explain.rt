// Whether the words ask for an explanation of what goes wrong. They may be words that the parser refuses.
ghost use Rattle.std.specs.Prelude.{◌≡◌, map};
ghost use Rattle.std.specs.String.{string_bytes};
ghost use Rattle.command_line.specs.Explain.{explanation_asked};

/// Whether `--explain` is among the words, in front of `--`, behind which words are names.
pub fn asks_to_explain(words: &[String]) -> bool
    ensures { result ≡ explanation_asked (map string_bytes words.now) }
{
    'words: for word in words {
        if word.as_str() == "--" {
            return false;
        }
        if word.as_str() == "--explain" {
            return true;
        }
    }
    false
}
