// The numbers of tokens. A value is cut at a bound above every limit of the formats, so that numerals of any length are
// judged.
ghost use Rattle.std.specs.Prelude.{◌≡◌, ◌+◌, ◌-◌, ◌<◌, ◌≤◌, true, false, pos, neg_ℤ, nat_abs, length, take, slice_index};
ghost use Rattle.std.specs.Prelude.{None, Some, IfSome, if◌then◌else◌};
ghost use Rattle.std.specs.List.{list_all};
ghost use Rattle.std.specs.Option.{option_map};
ghost use Rattle.cnf_base.specs.Number.{is_digit, numeral_value, value_after, plain_number, signed_number, signed_value};
ghost use Rattle.text_scan.specs.Block.{AreNumbersAtFront, IsNumberAtFront, IsNumeralAtFront};
ghost use Rattle.text_scan.specs.Capped.{capped, cap, capped_ℤ};

use crate::lexer::is_blank;
use crate::token::Token;

/// The value at which numbers are cut.
const CAP: u64 = 1_000_000_000_000_000_000;

/// So many digits have a value below it.
const DIGITS: usize = 9;

#[inline(always)]
fn is_digit(byte: u8) -> bool
    ensures { result ≡ is_digit byte }
{
    byte >= b'0' && byte <= b'9'
}

// The digit of a byte; of a byte that is no digit a number above 9.
#[inline(always)]
fn digit_of(byte: u8) -> u64
    ensures digit { is_digit byte ≡ true → result ≡ byte - 48 }
    ensures other { is_digit byte ≡ false → 9 < result }
{
    (byte as u64).wrapping_sub(48)
}

// The value of digits, cut.
#[inline(always)]
fn numeral(digits: &[u8]) -> Option<u64>
    ensures value { result ≡ option_map capped (numeral_value digits.now) }
    ensures bound { IfSome result (λ value. value ≤ cap) }
{
    if digits.is_empty() {
        return None;
    }
    let mut value: u64 = 0;
    for digit in digits {
        if !is_digit(*digit) {
            return None;
        }
        value = (10 * value + (*digit - b'0') as u64).min(CAP);
    }
    Some(value)
}

/// The number of a token of digits, cut at 10^18; None where the token is no plain number.
pub fn plain_number(token: &Token) -> Option<u64>
    ensures value { result ≡ option_map capped (plain_number token.now.bytes) }
    ensures bound { IfSome result (λ value. value ≤ cap) }
{
    if token.is_long() {
        None
    } else {
        numeral(token.bytes())
    }
}

/// The number of a token of digits, or of a minus sign and digits, its magnitude cut at 10^18; None where the token is no
/// signed number.
#[inline(always)]
pub fn signed_number(token: &Token) -> Option<i64>
    ensures value { result ≡ option_map capped_ℤ (signed_number token.now.bytes) }
    ensures bound { IfSome result (λ value. nat_abs value ≤ cap) }
{
    if token.is_long() {
        None
    } else {
        signed_value(token.bytes())
    }
}

// The value of digits, or of a minus sign and digits, its magnitude cut.
#[inline(always)]
fn signed_value(bytes: &[u8]) -> Option<i64>
    ensures value { result ≡ option_map capped_ℤ (signed_value bytes.now) }
    ensures bound { IfSome result (λ value. nat_abs value ≤ cap) }
{
    if bytes.is_empty() {
        return None;
    }
    if bytes[0] == b'-' {
        negative(numeral(&bytes[1..])?)
    } else {
        Some(numeral(bytes)? as i64)
    }
}

// The negative of a value that isn't zero.
#[inline(always)]
fn negative(value: u64) -> Option<i64>
    requires { value ≤ cap }
    ensures zero { value ≡ 0 → result ≡ None }
    ensures other { 0 < value → result ≡ Some (neg_ℤ (pos value)) }
{
    if value == 0 {
        None
    } else {
        Some(-(value as i64))
    }
}

/// The number at the front of these bytes, where it is one of at most nine digits, a blank stands behind it, and there are at least 11
/// bytes. Its value, how many bytes it has, and the blank. Most tokens of proofs and formulas are read so, in one pass over their bytes.
#[inline(always)]
pub fn number_at_front(bytes: &[u8]) -> Option<(i64, usize, u8)>
    ensures front { IfSome result (λ found. IsNumberAtFront bytes.now found.0 found.1) }
    ensures blank { IfSome result (λ found. found.2 ≡ slice_index bytes.now found.1) }
{
    if bytes.len() < 11 {
        return None;
    }
    let minus = bytes[0] == b'-';
    let start = usize::from(minus);
    let (value, len, blank) = blank_ended(&bytes[start..])?;
    Some((with_sign(minus, value)?, start + len, blank))
}

/// Puts the numbers at the front of these bytes into places, each read as `number_at_front` does, up to a line end, and as far as there are
/// places. How many they are, how many bytes they have with the blanks behind them, and whether the last of these is a line end.
#[inline(always)]
pub fn numbers_at_front(bytes: &[u8], places: &mut [i64]) -> (usize, usize, bool)
    ensures size { length places.new ≡ length places.old }
    ensures within { result.0 ≤ length places.new }
    ensures front { AreNumbersAtFront false (take result.0 places.new) bytes.now result.1 result.2 }
{
    let mut count = 0;
    let mut at = 0;
    'numbers: while count < places.len() {
        let Some((number, len, blank)) = number_at_front(&bytes[at..]) else {
            return (count, at, false);
        };
        places[count] = number;
        count += 1;
        at += len + 1;
        if blank == b'\n' {
            return (count, at, true);
        }
    }
    (count, at, false)
}

// The number of a value with a minus sign or without. No branch tells the signs apart: those of literals are as good as random. (One for
// 'a minus sign and zero' would be compiled as one for the sign.)
#[inline(always)]
fn with_sign(minus: bool, value: u64) -> Option<i64>
    requires { value ≤ cap }
    ensures plain { minus ≡ false → result ≡ Some (pos value) }
    ensures zero { minus ≡ true → value ≡ 0 → result ≡ None }
    ensures other { minus ≡ true → 0 < value → result ≡ Some (neg_ℤ (pos value)) }
{
    let number = value as i64;
    if number - i64::from(minus) < 0 {
        return None;
    }
    Some(negated_if(minus, number))
}

#[inline(always)]
fn negated_if(minus: bool, number: i64) -> i64
    requires { nat_abs number ≤ cap }
    ensures { result ≡ (if minus then neg_ℤ number else number) }
{
    if minus { -number } else { number }
}

// The value of the digits at the front, where there are at most nine, and a blank stands behind them; how many they are, and the blank.
#[inline(always)]
fn blank_ended(bytes: &[u8]) -> Option<(u64, usize, u8)>
    requires { 9 < length bytes.now }
    ensures front { IfSome result (λ found. IsNumeralAtFront bytes.now found.0 found.1) }
    ensures blank { IfSome result (λ found. found.2 ≡ slice_index bytes.now found.1) }
{
    let (value, len) = digits_up_to(bytes, DIGITS);
    let blank = bytes[len];
    if len == 0 || !is_blank(blank) {
        return None;
    }
    Some((value, len, blank))
}

// The digits at the front, at most so many, and their value. Where their number is known when the program is built, the loop is
// unrolled.
#[inline(always)]
fn digits_up_to(bytes: &[u8], most: usize) -> (u64, usize)
    requires within { most < length bytes.now }
    requires short { most ≤ 18 }
    ensures most { result.1 ≤ most }
    ensures digits { list_all is_digit (take result.1 bytes.now) ≡ true }
    ensures value { result.0 ≡ value_after 0 (take result.1 bytes.now) }
    ensures small { result.0 < cap }
{
    let mut len = 0;
    let mut value: u64 = 0;
    while len < most {
        let digit = digit_of(bytes[len]);
        if digit > 9 {
            return (value, len);
        }
        value = 10 * value + digit;
        len += 1;
    }
    (value, len)
}
