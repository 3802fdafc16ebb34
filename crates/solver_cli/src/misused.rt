// Why a command line is invalid, as an explanation says it.
use crate::comment::Comment;
use crate::explanation::Explanation;
use command_line::{Misuse, misuse_of};
use std::alloc::Global;

/// Why these words ask for no command.
pub fn misuse_reasons(alloc: Global, words: &[String]) -> Explanation {
    let reason = match misuse_of(alloc, words) {
        Some(Misuse::Parsed(text)) => Comment::new().sentence(sentence(&text)),
        Some(Misuse::InFront(flag)) => Comment::new()
            .text(flag)
            .text(" is a flag of a command, and has to stand behind it"),
        Some(Misuse::NoCommand) => Comment::new().text("the command is missing"),
        Some(Misuse::SameFile(file)) => Comment::new()
            .text("two files of the command have the name ")
            .name(file),
        Some(
            Misuse::Value {
                shown,
                value,
                wanted,
            },
        ) => Comment::new()
            .text(shown)
            .text(" is ")
            .name(value)
            .text(", and has to be ")
            .text(wanted),
        Some(Misuse::Together(sentence)) => Comment::new().text(sentence),
        None => Comment::new().text("the words are no command line of bddsat"),
    };
    Explanation::new().line(reason).text(
        "bddsat --help lists the commands, and bddsat COMMAND --help the words of one",
    )
}

// What the parser says, without the word in front of it and the usage behind it.
fn sentence(text: &str) -> &str {
    let first = match text.split_once("\n\n") {
        Some((first, _)) => first,
        None => text,
    };
    match first.strip_prefix("error: ") {
        Some(sentence) => sentence,
        None => first,
    }
}
