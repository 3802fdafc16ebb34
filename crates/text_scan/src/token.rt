// A token: a longest run of bytes that aren't blanks, with its line. A long one is cut.
ghost use Rattle.std.specs.Prelude.{◌≡◌, ◌<◌, ◌≤◌, length, take, not, IsTrue};
ghost use Rattle.cnf_base.specs.Number.{is_short};

use std::marker::Model;

/// How many bytes of a token are kept: enough to see that it is longer than 64, and so no number and no word.
pub const KEPT: usize = 65;

/// The space for them, in whole words, so that a token is copied fast.
pub const SPACE: usize = 72;

/// A token of a text. In contracts it is its bytes, at most 65 of them, and its line.
#[derive(Drop)]
pub struct Token {
    bytes: [u8; SPACE],
    len: usize,
    line: u64,
}

impl Model for Token {
    ghost use Rattle.std.specs.Prelude.{◌≤◌, take};
    ghost use Rattle.cnf_base.specs.Text.{Word};

    ghost Value = { Word };

    ghost view = { λ t. record { bytes = take t.len t.bytes; line = t.line } };

    ghost invariant = { λ t. t.len ≤ 65 };
}

impl Token {
    #[inline(always)]
    pub(crate) fn new(bytes: &[u8; SPACE], len: usize, line: u64) -> Token
        requires { len ≤ 65 }
        ensures { result ≡ record { bytes = take len bytes.now; line = line } }
    {
        Token {
            bytes: *bytes,
            len,
            line,
        }
    }

    /// A place for tokens, with one of no bytes.
    #[inline(always)]
    pub fn blank() -> Token {
        Token {
            bytes: [0; SPACE],
            len: 0,
            line: 0,
        }
    }

    /// Becomes the token of so many bytes at the front of these.
    #[inline(always)]
    pub(crate) fn put_front(&mut self, front: &[u8], len: usize, line: u64)
        requires { 72 ≤ length front.now }
        ensures { self.new ≡ record { bytes = take 65 (take len front.now); line = line } }
    {
        self.bytes.copy_from_slice(&front[..SPACE]);
        self.len = len.min(KEPT);
        self.line = line;
    }

    /// At most 64 bytes, of a long token its first 64.
    #[inline(always)]
    pub fn bytes(&self) -> &[u8]
        ensures value { result.now ≡ take 64 self.now.bytes }
        ensures short { IsTrue (is_short self.now.bytes) → result.now ≡ self.now.bytes }
        ensures length { length result.now ≤ 64 }
    {
        &self.bytes[..self.len.min(64)]
    }

    /// Whether it is longer than 64 bytes. Then it is no number and no word.
    #[inline(always)]
    pub fn is_long(&self) -> bool
        ensures { result ≡ not (is_short self.now.bytes) }
    {
        self.len > 64
    }

    /// The line on which it stands, from 1.
    #[inline(always)]
    pub fn line(&self) -> u64
        ensures { result ≡ self.now.line }
    {
        self.line
    }
}
