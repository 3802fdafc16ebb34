// Numbers in a stack of bytes: of each the digits to the base 128, the highest first, with 128 added to all but the lowest. So a number
// costs at most half of its decimal digits and a space.
ghost use Rattle.std.specs.Prelude.{◌≡◌, [], ◌∷◌, IfSome, IfNone, OnOk};
ghost use Rattle.proof_trim.specs.Row.{numbers, numbers_behind};

use crate::bytes::ByteStack;
use crate::digits::{Taken, with_digit};
use cnf_base::OutOfMemory;
use std::alloc::Global;
use std::marker::Model;

/// Numbers, of which the last that came is the first of the list, and comes off first.
#[derive(Drop)]
pub struct Row {
    bytes: ByteStack,
}

impl Model for Row {
    ghost use Rattle.std.specs.Prelude.{List, ℕ};
    ghost use Rattle.proof_trim.specs.Row.{numbers};

    ghost Value = { List ℕ };

    ghost view = { λ row. numbers row.bytes };
}

impl Row {
    /// No numbers.
    pub fn new(alloc: Global) -> Row
        ensures { result ≡ [] }
    {
        Row {
            bytes: ByteStack::new(alloc),
        }
    }

    /// One more number.
    #[inline(always)]
    pub fn push(&mut self, number: u64) -> Result<(), OutOfMemory>
        ensures { OnOk result (self.new ≡ number ∷ self.old) }
    {
        if self.bytes.put(number) {
            return Ok(());
        }
        push_number(&mut self.bytes, number)
    }

    /// Takes the last number.
    #[inline(always)]
    pub fn pop(&mut self) -> Option<u64>
        ensures some { IfSome result (λ number. self.old ≡ number ∷ self.new) }
        ensures none { IfNone result (self.old ≡ []) }
        ensures left { IfNone result (self.new ≡ []) }
    {
        match self.bytes.take() {
            Taken::Whole(number) => Some(number),
            Taken::Part(begun) => pop_number(&mut self.bytes, begun),
        }
    }
}

// (Seldom called, so that most pushes need no frame.)
#[cold]
#[inline(never)]
fn push_number(bytes: &mut ByteStack, number: u64) -> Result<(), OutOfMemory>
    ensures { OnOk result (numbers bytes.new ≡ number ∷ numbers bytes.old) }
{
    bytes.push((number % 128) as u8)?;
    let mut left = number / 128;
    'digits: while left > 0 {
        bytes.push((left % 128) as u8 + 128)?;
        left /= 128;
    }
    Ok(())
}

// Takes the rest of a number of which these digits came before.
#[cold]
#[inline(never)]
fn pop_number(bytes: &mut ByteStack, begun: u64) -> Option<u64>
    ensures some { IfSome result (λ number. numbers_behind begun bytes.old ≡ number ∷ numbers bytes.new) }
    ensures none { IfNone result (numbers_behind begun bytes.old ≡ []) }
    ensures left { IfNone result (numbers bytes.new ≡ []) }
{
    let mut number = begun;
    'digits: loop {
        match bytes.pop() {
            Some(byte) => {
                if byte < 128 {
                    return Some(with_digit(number, byte));
                }
                number = with_digit(number, byte - 128);
            }
            None => return None,
        }
    }
}
