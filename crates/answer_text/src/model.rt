// The lines of a model, word by word.
ghost use Rattle.std.specs.Prelude.{◌≡◌, ◌+◌, ◌≤◌, ◌++◌, length, IfOk};
ghost use Rattle.host_io.specs.Channel.{WritesAll};
ghost use Rattle.answer_text.specs.Model.{literal, max_width, separator, width_behind, model_text};

use host_io::{Failed, Sink, write_all};
use itoa::Buffer;

/// The most bytes that a line has without its line end.
const MAX_WIDTH: usize = 78;

/// Writes the lines of a model, from the value of variable 1 on.
pub fn write_model<S: Sink>(sink: &mut S, values: &[bool]) -> Result<(), Failed>
    ensures writes { WritesAll S.tells (S.channel sink.old) (S.channel sink.new) (model_text values.now) result }
    ensures beside { S.beside sink.new ≡ S.beside sink.old }
{
    write_all(sink, b"v")?;
    let mut width = 1;
    for (place, value) in values.iter().enumerate() {
        width = write_literal(sink, width, place + 1, *value)?;
    }
    write_word(sink, width, b"", b"0")?;
    write_all(sink, b"\n")
}

// Writes a variable behind a line of so many bytes, and answers how many the line has then.
fn write_literal<S: Sink>(
    sink: &mut S,
    width: usize,
    variable: usize,
    value: bool,
) -> Result<usize, Failed>
    requires { width ≤ max_width }
    ensures writes { WritesAll S.tells (S.channel sink.old) (S.channel sink.new) (separator width (literal variable value)
        ++ literal variable value) result }
    ensures width { IfOk result (λ behind. behind ≡ width_behind width (literal variable value)) }
    ensures narrow { IfOk result (λ behind. behind ≤ max_width) }
    ensures beside { S.beside sink.new ≡ S.beside sink.old }
{
    let mut buffer = Buffer::new();
    let digits = buffer.format(variable).as_bytes();
    if value {
        write_word(sink, width, b"", digits)
    } else {
        write_word(sink, width, b"-", digits)
    }
}

// Writes a word, its sign first, behind a line of so many bytes, and answers how many the line has then.
fn write_word<S: Sink>(
    sink: &mut S,
    width: usize,
    sign: &[u8],
    digits: &[u8],
) -> Result<usize, Failed>
    requires width { width ≤ max_width }
    requires fits { 2 + length sign.now + length digits.now ≤ max_width }
    ensures writes { WritesAll S.tells (S.channel sink.old) (S.channel sink.new) (separator width (sign.now ++ digits.now)
        ++ (sign.now ++ digits.now)) result }
    ensures width { IfOk result (λ behind. behind ≡ width_behind width (sign.now ++ digits.now)) }
    ensures narrow { IfOk result (λ behind. behind ≤ max_width) }
    ensures beside { S.beside sink.new ≡ S.beside sink.old }
{
    let behind = width + 1 + sign.len() + digits.len();
    if behind <= MAX_WIDTH {
        write_all(sink, b" ")?;
        write_sign_and_digits(sink, sign, digits)?;
        Ok(behind)
    } else {
        write_all(sink, b"\nv ")?;
        write_sign_and_digits(sink, sign, digits)?;
        Ok(2 + sign.len() + digits.len())
    }
}

fn write_sign_and_digits<S: Sink>(sink: &mut S, sign: &[u8], digits: &[u8]) -> Result<(), Failed>
    ensures writes { WritesAll S.tells (S.channel sink.old) (S.channel sink.new) (sign.now ++ digits.now) result }
    ensures beside { S.beside sink.new ≡ S.beside sink.old }
{
    write_all(sink, sign)?;
    write_all(sink, digits)
}
