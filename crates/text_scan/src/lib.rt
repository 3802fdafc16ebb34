//! The tokens of a text from a stream, with their lines: `Scanner::next` gives those of the definition in turn,
//! however the reads are cut, then the end, or that the text is longer than a limit. It takes no memory.
//! Stands on cnf_base, whose specs say what a token is, and host_io.
#![tactic(auto)]

mod laws;
mod lexer;
mod number;
mod scanner;
mod token;

pub use laws::{kept_word_law, short_text_law};
pub use number::{plain_number, signed_number};
pub use scanner::{MAX_BYTES, ScanError, Scanner};
pub use token::Token;
