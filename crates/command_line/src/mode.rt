// The flags of the command line, and the mode in which a formula is read, by the flag `--lax`.
ghost use Rattle.std.specs.Prelude.{◌≡◌};
ghost use Rattle.clap.specs.Words.{first_of, found_of, rows_of};
ghost use Rattle.command_line.specs.Command.{is_set, mode_given};
ghost use Rattle.command_line.specs.Reading.{text_of};

use clap::ArgMatches;
use dimacs_reader::Mode;

/// The mode, by the text that the parser gives the flag.
pub fn mode_given(flag: Option<&str>) -> Mode
    ensures { result ≡ mode_given (text_of flag.entry) }
{
    if is_set(flag) {
        Mode::Lax
    } else {
        Mode::Strict
    }
}

/// Whether the flag of this name is among these values.
pub fn flag_among(values: &ArgMatches<'_>, name: &str) -> bool
    ensures { result ≡ is_set (first_of name.now (rows_of (found_of values.now))) }
{
    is_set(values.get_str(name))
}

/// Whether a flag is among the words, by the text that the parser gives it.
pub fn is_set(flag: Option<&str>) -> bool
    ensures { result ≡ is_set (text_of flag.entry) }
{
    match flag {
        Some(text) => text == "true",
        None => false,
    }
}
