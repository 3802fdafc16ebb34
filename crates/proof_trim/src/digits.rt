// The digits of a number to the base 128 at the end of bytes, the highest last, with 128 added to all but the lowest: a few that are put
// at once, and all that one piece of the bytes has, taken without looking for another one between them.
ghost use Rattle.std.specs.Prelude.{◌≡◌, ◌<◌, ◌≤◌, ◌+◌, ◌^◌, ◌∷◌, ◌++◌, ℕ, List, reverse, vec_capacity, vec_len};
ghost use Rattle.proof_trim.specs.Row.{behind_taken, numbers, numbers_behind, with_digit};

/// What came off the end of bytes.
#[derive(Clone, Copy)]
pub enum Taken {
    /// A number.
    Whole(u64),
    /// The highest digits of a number, or none: more bytes are wanted.
    Part(u64),
}

/// Puts a number of at most four digits where there is room for it.
#[inline(always)]
pub fn put_digits(bytes: &mut Vec<u8>, number: u64)
    requires small { number < 2 ^ 28 }
    requires room { vec_len bytes.old + 4 ≤ vec_capacity bytes.old }
    ensures { (rest : List ℕ) → numbers (reverse bytes.new.items ++ rest) ≡ number ∷ numbers (reverse bytes.old.items ++ rest) }
{
    bytes.push_reserved((number % 128) as u8);
    let second = number / 128;
    if second == 0 {
        return;
    }
    bytes.push_reserved((second % 128) as u8 + 128);
    let third = second / 128;
    if third == 0 {
        return;
    }
    bytes.push_reserved((third % 128) as u8 + 128);
    let fourth = third / 128;
    if fourth == 0 {
        return;
    }
    bytes.push_reserved((fourth % 128) as u8 + 128);
}

/// Takes digits until a number ends, or the bytes do.
#[inline(always)]
pub fn take_digits(bytes: &mut Vec<u8>) -> Taken
    ensures { (rest : List ℕ) → numbers (reverse bytes.old.items ++ rest) ≡ behind_taken result (reverse bytes.new.items ++ rest) }
{
    let mut number = 0;
    'digits: while bytes.len() > 0 {
        let byte = bytes.take_last();
        if byte < 128 {
            return Taken::Whole(with_digit(number, byte));
        }
        number = with_digit(number, byte - 128);
    }
    Taken::Part(number)
}

/// One digit more.
#[inline(always)]
pub fn with_digit(number: u64, digit: u8) -> u64
    ensures { result ≡ with_digit number digit }
{
    number.wrapping_mul(128).wrapping_add(u64::from(digit))
}
