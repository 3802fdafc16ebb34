// Numbers and codes as text, put into a buffer from a place on, two digits at a time from the first one. The place behind the text is
// handed from call to call, so that it stays in a register.
ghost use Rattle.std.specs.Prelude.{◌≡◌, ◌<◌, ◌≤◌, ◌+◌, ◌/◌, ◌%◌, ◌&&◌, [], ◌∷◌, ◌++◌, decimal, length, nat_lt, take, if◌then◌else◌};
ghost use Rattle.proof_trim.specs.Packed.{code_text, is_minus};

use crate::lines::number_of;

/// The bytes of a buffer.
pub const SPACE: usize = 4096;

/// Puts a code as it stands in a line, and answers the place behind it.
#[inline(always)]
pub fn put_code(bytes: &mut [u8; SPACE], at: usize, code: u64) -> usize
    requires { at ≤ 4074 }
    ensures within { result ≤ at + 22 }
    ensures text { take result bytes.new ≡ take at bytes.old ++ code_text code }
{
    let number = number_of(code);
    let behind_space = put_byte(bytes, at, b' ');
    let behind_sign = put_sign(bytes, behind_space, has_sign(code, number));
    put_number(bytes, behind_sign, number)
}

// Whether a code of this number is led by a minus sign.
#[inline(always)]
fn has_sign(code: u64, number: u64) -> bool
    ensures { result ≡ (is_minus code && nat_lt 0 number) }
{
    code % 2 == 0 && 0 < number
}

// Puts a minus sign, or nothing. (The byte is stored in any case: signs of literals are as good as random, so a branch is mispredicted.)
#[inline(always)]
fn put_sign(bytes: &mut [u8; SPACE], at: usize, minus: bool) -> usize
    requires { at < 4096 }
    ensures within { result ≤ at + 1 }
    ensures text { take result bytes.new ≡ take at bytes.old ++ (if minus then 45 ∷ [] else []) }
{
    let behind = put_byte(bytes, at, b'-');
    if minus { behind } else { at }
}

/// Puts a number.
#[inline(always)]
pub fn put_number(bytes: &mut [u8; SPACE], at: usize, number: u64) -> usize
    requires { at + length (decimal number) ≤ 4096 }
    ensures next { result ≡ at + length (decimal number) }
    ensures text { take result bytes.new ≡ take at bytes.old ++ decimal number }
{
    if number < 10_000 {
        return put_short(bytes, at, number);
    }
    if number < 100_000_000 {
        let behind = put_short(bytes, at, number / 10_000);
        return put_four(bytes, behind, number % 10_000);
    }
    put_long(bytes, at, number)
}

// The same of numbers of many digits.
#[cold]
#[inline(never)]
fn put_long(bytes: &mut [u8; SPACE], at: usize, number: u64) -> usize
    requires { at + length (decimal number) ≤ 4096 }
    ensures next { result ≡ at + length (decimal number) }
    ensures text { take result bytes.new ≡ take at bytes.old ++ decimal number }
{
    if number < 10_000 {
        return put_short(bytes, at, number);
    }
    let behind = put_long(bytes, at, number / 10_000);
    put_four(bytes, behind, number % 10_000)
}

#[inline(always)]
fn put_short(bytes: &mut [u8; SPACE], at: usize, number: u64) -> usize
    requires small { number < 10000 }
    requires room { at + length (decimal number) ≤ 4096 }
    ensures next { result ≡ at + length (decimal number) }
    ensures text { take result bytes.new ≡ take at bytes.old ++ decimal number }
{
    if number < 100 {
        return put_few(bytes, at, number);
    }
    let behind = put_few(bytes, at, number / 100);
    put_pair(bytes, behind, number % 100)
}

// One digit, or two.
#[inline(always)]
fn put_few(bytes: &mut [u8; SPACE], at: usize, number: u64) -> usize
    requires small { number < 100 }
    requires room { at + length (decimal number) ≤ 4096 }
    ensures next { result ≡ at + length (decimal number) }
    ensures text { take result bytes.new ≡ take at bytes.old ++ decimal number }
{
    if number < 10 {
        return put_byte(bytes, at, 48 + number as u8);
    }
    put_pair(bytes, at, number)
}

#[inline(always)]
fn put_four(bytes: &mut [u8; SPACE], at: usize, four: u64) -> usize
    requires digits { four < 10000 }
    requires room { at + 4 ≤ 4096 }
    ensures next { result ≡ at + 4 }
    ensures text { take result bytes.new
        ≡ take at bytes.old ++ ((48 + four / 100 / 10) ∷ (48 + four / 100 % 10) ∷ (48 + four % 100 / 10) ∷ (48 + four % 100 % 10) ∷ []) }
{
    let behind = put_pair(bytes, at, four / 100);
    put_pair(bytes, behind, four % 100)
}

#[inline(always)]
fn put_pair(bytes: &mut [u8; SPACE], at: usize, pair: u64) -> usize
    requires digits { pair < 100 }
    requires room { at + 2 ≤ 4096 }
    ensures next { result ≡ at + 2 }
    ensures text { take result bytes.new ≡ take at bytes.old ++ ((48 + pair / 10) ∷ (48 + pair % 10) ∷ []) }
{
    let behind = put_byte(bytes, at, 48 + (pair / 10) as u8);
    put_byte(bytes, behind, 48 + (pair % 10) as u8)
}

/// Puts a byte.
#[inline(always)]
pub fn put_byte(bytes: &mut [u8; SPACE], at: usize, byte: u8) -> usize
    requires { at < 4096 }
    ensures next { result ≡ at + 1 }
    ensures text { take result bytes.new ≡ take at bytes.old ++ byte ∷ [] }
    ensures before { take at bytes.new ≡ take at bytes.old }
{
    bytes[at] = byte;
    at + 1
}
