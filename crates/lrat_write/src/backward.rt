// A line's text at the end of a buffer, made from its last number back to its first: digits come from the last one to the
// first, so each byte is put where it stays.
ghost use Rattle.std.specs.Prelude.{◌≡◌, ◌≤◌, ◌<◌, ◌+◌, ◌++◌, ◌∷◌, ℕ, IfSome, IsTrue, drop};
ghost use Rattle.std.specs.List.{list_all};
ghost use Rattle.cnf_base.specs.Truth.{is_literal_of};
ghost use Rattle.cnf_base.specs.ProofText.{max_literal};
ghost use Rattle.lrat_write.specs.LineText.{lead, led_number, literals_text, ids_text, line_text, deletion_text};

use cnf_base::{Id, Lit};
use itoa::write_digits;

/// More bytes than a usual line has.
pub const BUFFER: usize = 256;

// The bytes that a number takes at most: a space, a minus sign and twenty digits.
const NUMBER: usize = 22;

/// Puts a line whose numbers behind the clause are negative or not. Answers where it begins; None where it may not fit.
pub fn put_line(
    buffer: &mut [u8; BUFFER],
    id: Id,
    clause: &[Lit],
    minus: bool,
    ids: &[Id],
) -> Option<usize>
    ensures within { IfSome result (λ start. start ≤ 256) }
    ensures text { IfSome result (λ start. drop start buffer.new ≡ line_text id clause.now (lead minus) ids.now) }
    ensures range { IfSome result (λ _. IsTrue (list_all (is_literal_of max_literal) clause.now)) }
{
    let newline = put_byte(buffer, BUFFER, b'\n');
    let end = put_zero(buffer, newline);
    let behind_clause = put_ids(buffer, end, minus, ids)?;
    if behind_clause < NUMBER {
        return None;
    }
    let zero = put_zero(buffer, behind_clause);
    let behind_id = put_literals(buffer, zero, clause)?;
    if behind_id < NUMBER {
        return None;
    }
    Some(write_digits(id.get(), buffer, behind_id))
}

/// The same of the line of a deletion.
pub fn put_deletion(buffer: &mut [u8; BUFFER], id: Id, ids: &[Id]) -> Option<usize>
    ensures within { IfSome result (λ start. start ≤ 256) }
    ensures text { IfSome result (λ start. drop start buffer.new ≡ deletion_text id ids.now) }
{
    let newline = put_byte(buffer, BUFFER, b'\n');
    let end = put_zero(buffer, newline);
    let behind_word = put_ids(buffer, end, false, ids)?;
    if behind_word < NUMBER + 2 {
        return None;
    }
    let word = put_byte(buffer, behind_word, b'd');
    let behind_id = put_byte(buffer, word, b' ');
    Some(write_digits(id.get(), buffer, behind_id))
}

/// Puts a number behind a space, and behind a minus sign where it is negative, so that it ends here. Answers where it
/// begins.
#[inline(always)]
pub fn put_number(buffer: &mut [u8; BUFFER], end: usize, minus: bool, number: u64) -> usize
    requires room { 22 ≤ end }
    requires within { end ≤ 256 }
    ensures before { result < end }
    ensures text { drop result buffer.new ≡ led_number minus number ++ drop end buffer.old }
{
    let digits = write_digits(number, buffer, end);
    if minus {
        let sign = put_byte(buffer, digits, b'-');
        return put_byte(buffer, sign, b' ');
    }
    put_byte(buffer, digits, b' ')
}

// Puts the literals of a clause, each behind a space. The type of a literal gives its range.
fn put_literals(buffer: &mut [u8; BUFFER], end: usize, literals: &[Lit]) -> Option<usize>
    requires { end ≤ 256 }
    ensures within { IfSome result (λ start. start ≤ 256) }
    ensures text { IfSome result (λ start. drop start buffer.new ≡ literals_text literals.now ++ drop end buffer.old) }
    ensures range { IfSome result (λ _. IsTrue (list_all (is_literal_of max_literal) literals.now)) }
{
    let mut at = end;
    let mut left = literals.len();
    'literals: while left > 0 {
        if at < NUMBER {
            return None;
        }
        left -= 1;
        let literal = literals[left];
        at = put_number(buffer, at, literal.is_negative(), u64::from(literal.var()));
    }
    Some(at)
}

/// Puts clause numbers, negative or not, so that they end here. Answers where they begin; None where they may not fit.
pub fn put_ids(buffer: &mut [u8; BUFFER], end: usize, minus: bool, ids: &[Id]) -> Option<usize>
    requires { end ≤ 256 }
    ensures within { IfSome result (λ start. start ≤ 256) }
    ensures text { IfSome result (λ start. drop start buffer.new ≡ ids_text (lead minus) ids.now ++ drop end buffer.old) }
{
    let mut at = end;
    let mut left = ids.len();
    'ids: while left > 0 {
        if at < NUMBER {
            return None;
        }
        left -= 1;
        at = put_number(buffer, at, minus, ids[left].get());
    }
    Some(at)
}

// Puts a zero behind a space.
#[inline(always)]
fn put_zero(buffer: &mut [u8; BUFFER], end: usize) -> usize
    requires room { 2 ≤ end }
    requires within { end ≤ 256 }
    ensures before { result + 2 ≡ end }
    ensures text { drop result buffer.new ≡ 32 ∷ 48 ∷ drop end buffer.old }
{
    let digit = put_byte(buffer, end, b'0');
    put_byte(buffer, digit, b' ')
}

#[inline(always)]
fn put_byte(buffer: &mut [u8; BUFFER], end: usize, byte: u8) -> usize
    requires room { 1 ≤ end }
    requires within { end ≤ 256 }
    ensures before { result + 1 ≡ end }
    ensures text { drop result buffer.new ≡ byte ∷ drop end buffer.old }
{
    buffer[end - 1] = byte;
    end - 1
}
