// The bytes of a text that are held back until they are worth a write. They lie in the value itself, so no memory is taken. (The kit's
// array, which `host_io` has for this, counts every byte that is put; here the length is counted once for a number.)
ghost use Rattle.std.specs.Prelude.{◌≡◌, ◌≤◌, ◌+◌, [], ◌∷◌, ◌++◌, decimal, length};
ghost use Rattle.proof_trim.specs.Packed.{code_text};

use crate::decimals::{SPACE, put_byte, put_code, put_number};
use std::marker::Model;

/// At most 4096 bytes of a text.
#[derive(Drop)]
pub struct LineBuffer {
    bytes: [u8; SPACE],
    len: usize,
}

impl Model for LineBuffer {
    ghost use Rattle.std.specs.Prelude.{◌≤◌, ℕ, List, take};

    ghost Value = { List ℕ };

    ghost view = { λ buffer. take buffer.len buffer.bytes };

    ghost invariant = { λ buffer. buffer.len ≤ 4096 };
}

impl LineBuffer {
    /// Nothing.
    pub fn new() -> LineBuffer
        ensures { result ≡ [] }
    {
        LineBuffer {
            bytes: [0; SPACE],
            len: 0,
        }
    }

    pub fn len(&self) -> usize
        ensures { result ≡ length self.now }
    {
        self.len
    }

    pub fn as_slice(&self) -> &[u8]
        ensures { result.now ≡ self.now }
    {
        &self.bytes[..self.len]
    }

    /// Lets all bytes go.
    pub fn clear(&mut self)
        ensures { self.new ≡ [] }
    {
        self.len = 0;
    }

    /// Puts a number.
    #[inline(always)]
    pub fn put_number(&mut self, number: u64)
        requires { length self.old ≤ 4074 }
        ensures text { self.new ≡ self.old ++ decimal number }
        ensures len { length self.new ≤ length self.old + 20 }
    {
        self.len = put_number(&mut self.bytes, self.len, number);
    }

    /// Puts a code as it stands in a line.
    #[inline(always)]
    pub fn put_code(&mut self, code: u64)
        requires { length self.old ≤ 4074 }
        ensures { self.new ≡ self.old ++ code_text code }
    {
        self.len = put_code(&mut self.bytes, self.len, code);
    }

    /// Puts two bytes.
    #[inline(always)]
    pub fn put_two(&mut self, first: u8, second: u8)
        requires { length self.old ≤ 4074 }
        ensures text { self.new ≡ self.old ++ first ∷ second ∷ [] }
        ensures len { length self.new ≡ length self.old + 2 }
    {
        let behind = put_byte(&mut self.bytes, self.len, first);
        self.len = put_byte(&mut self.bytes, behind, second);
    }

    /// Puts a byte.
    #[inline(always)]
    pub fn put_byte(&mut self, byte: u8)
        requires { length self.old ≤ 4084 }
        ensures { self.new ≡ self.old ++ byte ∷ [] }
    {
        self.len = put_byte(&mut self.bytes, self.len, byte);
    }
}
