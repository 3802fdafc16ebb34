// One byte after another: which line it is, whether a comment, and the token that has begun.
ghost use Rattle.std.specs.Prelude.{false, take, slice_index, ◌≡◌, ◌+◌, ◌^◌, ◌<◌, ◌≤◌, [], length, IsTrue};
ghost use Rattle.std.specs.List.{list_any};
ghost use Rattle.text_scan.specs.declared.lexer.LexerMode.TheVariants.{Words};
ghost use Rattle.cnf_base.specs.Text.{is_blank, has_bytes};
ghost use Rattle.text_scan.specs.Lexer.{lex_start, after, after_letter, ends_word, begins_word};

use crate::token::{KEPT, SPACE, Token};
use std::marker::Model;

/// What stood on the line so far: blanks alone, a comment, or tokens.
#[derive(Clone, Copy, PartialEq, Eq)]
pub enum LexerMode {
    LineStart,
    Comment,
    Words,
}

/// What is known before the next byte.
#[derive(Drop)]
pub struct Lexer {
    comment: u8,
    mode: LexerMode,
    line: u64,
    len: usize,
    word: [u8; SPACE],
}

impl Model for Lexer {
    ghost use Rattle.std.specs.Prelude.{false, take, slice_index, ◌≤◌, take};
    ghost use Rattle.text_scan.specs.Lexer.{Lex};

    ghost Value = { Lex };

    ghost view = { λ l. record { comment = l.comment; mode = l.mode; line = l.line; word = take l.len l.word } };

    ghost invariant = { λ l. l.len ≤ 65 };
}

#[inline(always)]
pub fn is_blank(byte: u8) -> bool
    ensures { result ≡ is_blank byte }
{
    byte == b' ' || byte == b'\t' || byte == b'\r' || byte == b'\n'
}

/// How many bytes stand before the first blank.
#[inline(always)]
pub fn letters(bytes: &[u8]) -> usize
    ensures range { result ≤ length bytes.now }
    ensures none { list_any is_blank (take result bytes.now) ≡ false }
    ensures blank { result < length bytes.now → IsTrue (is_blank (slice_index bytes.now result)) }
{
    let mut len = 0;
    while len < bytes.len() && !is_blank(bytes[len]) {
        len += 1;
    }
    len
}

impl Lexer {
    pub fn new(comment: u8) -> Lexer
        ensures { result ≡ lex_start comment }
    {
        Lexer {
            comment,
            mode: LexerMode::LineStart,
            line: 1,
            len: 0,
            word: [0; SPACE],
        }
    }

    #[inline(always)]
    pub fn line(&self) -> u64
        ensures { result ≡ self.now.line }
    {
        self.line
    }

    /// Whether a token has begun.
    #[inline(always)]
    pub fn has_word(&self) -> bool
        ensures { result ≡ has_bytes self.now.word }
    {
        self.len > 0
    }

    /// Whether this byte ends a token.
    #[inline(always)]
    pub fn ends_word(&self, byte: u8) -> bool
        ensures { result ≡ ends_word self.now byte }
    {
        is_blank(byte) && self.has_word()
    }

    /// What has come of the token.
    #[inline(always)]
    pub fn word(&self) -> Token
        ensures { result ≡ record { bytes = self.now.word; line = self.now.line } }
    {
        Token::new(&self.word, self.len, self.line)
    }

    /// Whether this byte begins a token.
    #[inline(always)]
    pub fn begins_word(&self, byte: u8) -> bool
        ensures { result ≡ begins_word self.now byte }
    {
        if self.len > 0 || is_blank(byte) {
            return false;
        }
        match self.mode {
            LexerMode::LineStart => byte != self.comment,
            LexerMode::Comment => false,
            LexerMode::Words => true,
        }
    }

    /// Whether it stands behind a blank on a line that has a token. Then a byte that is no blank begins one.
    #[inline(always)]
    pub fn is_between_words(&self) -> bool
        ensures mode { IsTrue result → self.now.mode ≡ Words }
        ensures word { IsTrue result → self.now.word ≡ [] }
    {
        self.len == 0 && self.mode == LexerMode::Words
    }

    /// Takes a blank behind a token.
    #[inline(always)]
    pub fn pass_word(&mut self, blank: u8)
        requires blank { IsTrue (is_blank blank) }
        requires line { self.old.line + 1 < 2 ^ 64 }
        ensures { self.new ≡ after (record self.old { mode = Words }) blank }
    {
        self.mode = LexerMode::Words;
        self.len = 0;
        if blank == b'\n' {
            self.line += 1;
            self.mode = LexerMode::LineStart;
        }
    }

    /// Takes one more byte. A token that it ends is let go.
    #[inline(always)]
    pub fn take(&mut self, byte: u8)
        requires { self.old.line + 1 < 2 ^ 64 }
        ensures { self.new ≡ after self.old byte }
    {
        if byte == b'\n' {
            self.line += 1;
            self.mode = LexerMode::LineStart;
            self.len = 0;
        } else if is_blank(byte) {
            self.len = 0;
        } else {
            self.take_letter(byte);
        }
    }

    // A byte that is no blank.
    #[inline(always)]
    fn take_letter(&mut self, byte: u8)
        ensures { self.new ≡ after_letter self.old byte }
    {
        if self.mode == LexerMode::LineStart {
            self.mode = if byte == self.comment {
                LexerMode::Comment
            } else {
                LexerMode::Words
            };
        }
        if self.mode == LexerMode::Words && self.len < KEPT {
            self.word[self.len] = byte;
            self.len += 1;
        }
    }
}
