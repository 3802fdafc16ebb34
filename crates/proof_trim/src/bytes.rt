// Bytes as a stack, in chunks: what is taken off gives its memory back, and no growth copies more than a chunk.
ghost use Rattle.std.specs.Prelude.{◌≡◌, ◌<◌, ◌^◌, ℕ, List, [], ◌∷◌, ◌++◌, IfOk, IfSome, IfNone, IsFalse, IsTrue, OnOk, length, reverse};
ghost use Rattle.proof_trim.specs.Row.{behind_taken, numbers, stacked};

use crate::digits::{Taken, put_digits, take_digits};
use cnf_base::OutOfMemory;
use std::alloc::Global;
use std::marker::Model;
use std::mem;

// The most bytes of a chunk.
const CHUNK: usize = 65536;

// The least number of more than four digits.
const NOT_SHORT: u64 = 268_435_456;

/// Bytes in the order in which they came.
#[derive(Drop)]
pub struct Chunk {
    bytes: Vec<u8>,
}

impl Model for Chunk {
    ghost use Rattle.std.specs.Prelude.{List, ℕ};

    ghost Value = { List ℕ };

    ghost view = { λ chunk. chunk.bytes.items };
}

impl Chunk {
    fn new(alloc: Global) -> Chunk
        ensures { result ≡ [] }
    {
        Chunk {
            bytes: Vec::new(alloc),
        }
    }

    // The same with room for a full chunk, so that it need not grow.
    fn roomy(alloc: Global) -> Result<Chunk, OutOfMemory>
        ensures { IfOk result (λ chunk. chunk ≡ []) }
    {
        let bytes = Vec::with_capacity(alloc, CHUNK)?;
        Ok(Chunk { bytes })
    }

    fn len(&self) -> usize
        ensures { result ≡ length self.now }
    {
        self.bytes.len()
    }

    // A number of at most four digits, where there is room for it.
    #[inline(always)]
    fn put(&mut self, number: u64) -> bool
        requires { number < 2 ^ 28 }
        ensures put { IsTrue result → (rest : List ℕ) → numbers (reverse self.new ++ rest) ≡ number ∷ numbers (reverse self.old ++ rest) }
        ensures same { IsFalse result → self.new ≡ self.old }
    {
        if self.bytes.len() + 4 > self.bytes.capacity() {
            return false;
        }
        put_digits(&mut self.bytes, number);
        true
    }

    #[inline(always)]
    fn take(&mut self) -> Taken
        ensures { (rest : List ℕ) → numbers (reverse self.old ++ rest) ≡ behind_taken result (reverse self.new ++ rest) }
    {
        take_digits(&mut self.bytes)
    }

    fn push(&mut self, byte: u8) -> Result<(), OutOfMemory>
        ensures { OnOk result (self.new ≡ self.old ++ byte ∷ []) }
    {
        self.bytes.push(byte)?;
        Ok(())
    }

    fn pop(&mut self) -> Option<u8>
        ensures some { IfSome result (λ byte. self.old ≡ self.new ++ byte ∷ []) }
        ensures none { IfNone result (self.old ≡ []) }
        ensures left { IfNone result (self.new ≡ []) }
    {
        self.bytes.pop()
    }
}

/// Bytes, of which the last that came is the first of the list, and comes off first.
#[derive(Drop)]
pub struct ByteStack {
    alloc: Global,
    full: Vec<Chunk>,
    last: Chunk,
}

impl Model for ByteStack {
    ghost use Rattle.std.specs.Prelude.{List, ℕ};
    ghost use Rattle.proof_trim.specs.Row.{stacked};

    ghost Value = { List ℕ };

    ghost view = { λ stack. stacked stack.full.items stack.last };
}

impl ByteStack {
    /// No bytes.
    pub fn new(alloc: Global) -> ByteStack
        ensures { result ≡ [] }
    {
        ByteStack {
            alloc,
            full: Vec::new(alloc),
            last: Chunk::new(alloc),
        }
    }

    /// The bytes of a number, where it is short and the last chunk has room for it.
    #[inline(always)]
    pub fn put(&mut self, number: u64) -> bool
        ensures put { IsTrue result → numbers self.new ≡ number ∷ numbers self.old }
        ensures same { IsFalse result → self.new ≡ self.old }
    {
        if number >= NOT_SHORT {
            return false;
        }
        put_last(&self.full, &mut self.last, number)
    }

    /// Takes the bytes of a number off the last chunk, as far as it has them.
    #[inline(always)]
    pub fn take(&mut self) -> Taken
        ensures { numbers self.old ≡ behind_taken result self.new }
    {
        take_last(&self.full, &mut self.last)
    }

    /// One more byte.
    pub fn push(&mut self, byte: u8) -> Result<(), OutOfMemory>
        ensures { OnOk result (self.new ≡ byte ∷ self.old) }
    {
        push_byte(self.alloc, &mut self.full, &mut self.last, byte)
    }

    /// Takes the last byte.
    pub fn pop(&mut self) -> Option<u8>
        ensures some { IfSome result (λ byte. self.old ≡ byte ∷ self.new) }
        ensures none { IfNone result (self.old ≡ []) }
        ensures left { IfNone result (self.new ≡ []) }
    {
        pop_byte(&mut self.full, &mut self.last)
    }
}

// The same with the chunks apart.
#[inline(always)]
fn put_last(full: &Vec<Chunk>, last: &mut Chunk, number: u64) -> bool
    requires { number < 2 ^ 28 }
    ensures put { IsTrue result → numbers (stacked full.now.items last.new) ≡ number ∷ numbers (stacked full.now.items last.old) }
    ensures same { IsFalse result → last.new ≡ last.old }
{
    last.put(number)
}

#[inline(always)]
fn take_last(full: &Vec<Chunk>, last: &mut Chunk) -> Taken
    ensures { numbers (stacked full.now.items last.old) ≡ behind_taken result (stacked full.now.items last.new) }
{
    last.take()
}

fn push_byte(
    alloc: Global,
    full: &mut Vec<Chunk>,
    last: &mut Chunk,
    byte: u8,
) -> Result<(), OutOfMemory>
    ensures { OnOk result (stacked full.new.items last.new ≡ byte ∷ stacked full.old.items last.old) }
{
    make_room(alloc, full, last)?;
    last.push(byte)?;
    Ok(())
}

// Begins a chunk where the last one is full.
fn make_room(alloc: Global, full: &mut Vec<Chunk>, last: &mut Chunk) -> Result<(), OutOfMemory>
    ensures { OnOk result (stacked full.new.items last.new ≡ stacked full.old.items last.old) }
{
    if last.len() < CHUNK {
        return Ok(());
    }
    let next = Chunk::roomy(alloc)?;
    let chunk = mem::replace(last, next);
    full.push(chunk)?;
    Ok(())
}

fn pop_byte(full: &mut Vec<Chunk>, last: &mut Chunk) -> Option<u8>
    ensures some { IfSome result (λ byte. stacked full.old.items last.old ≡ byte ∷ stacked full.new.items last.new) }
    ensures none { IfNone result (stacked full.old.items last.old ≡ []) }
    ensures left { IfNone result (stacked full.new.items last.new ≡ []) }
{
    match last.pop() {
        Some(byte) => Some(byte),
        None => pop_full(full, last),
    }
}

// Takes the last byte, where the last chunk is empty.
fn pop_full(full: &mut Vec<Chunk>, last: &mut Chunk) -> Option<u8>
    requires { last.old ≡ [] }
    ensures some { IfSome result (λ byte. stacked full.old.items [] ≡ byte ∷ stacked full.new.items last.new) }
    ensures none { IfNone result (stacked full.old.items [] ≡ []) }
    ensures left { IfNone result (stacked full.new.items last.new ≡ []) }
{
    'chunks: loop {
        match pop_chunk(full) {
            Some(chunk) => {
                *last = chunk;
                if let Some(byte) = last.pop() {
                    return Some(byte);
                }
            }
            None => return None,
        }
    }
}

fn pop_chunk(full: &mut Vec<Chunk>) -> Option<Chunk>
    ensures some { IfSome result (λ chunk. full.old.items ≡ full.new.items ++ chunk ∷ []) }
    ensures none { IfNone result (full.old.items ≡ []) }
    ensures left { IfNone result (full.new.items ≡ []) }
{
    full.pop()
}
