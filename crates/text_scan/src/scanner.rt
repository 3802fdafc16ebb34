// The scanner: blocks of bytes from a source, cut into tokens byte by byte, up to a limit.
ghost use Rattle.std.specs.Prelude.{◌≡◌, ◌≢◌, ℕ, ◌+◌, ◌^◌, ◌<◌, ◌≤◌, true, false, List, [], ◌++◌, length, take, None, Ok, Err, IsTrue};
ghost use Rattle.std.specs.Prelude.{IfSome};
ghost use Rattle.std.specs.Prelude.{IfOk, OnOk, OnErr, is_ok, if◌then◌else◌};
ghost use Rattle.cnf_base.specs.Text.{has_bytes};
ghost use Rattle.host_io.specs.Channel.{IsOver, Rose};
ghost use Rattle.text_scan.specs.declared.scanner.ScanStatus.TheVariants.{Reading, Ended, Overlong, Faulted};
ghost use Rattle.text_scan.specs.declared.scanner.ScanError.TheVariants.{ReadFault};
ghost use Rattle.text_scan.specs.Items.{items, items_of_front, the_end, too_long, next_word};
ghost use Rattle.text_scan.specs.Lexer.{items_from, word_then};
ghost use Rattle.text_scan.specs.Scan.{ahead, so_far, is_reading, is_faulted, given, Gives, GivesSoFar, Moves, TookNumber, TookNumbers};
ghost use Rattle.text_scan.specs.Scan.{passed, last_answer};
ghost use Rattle.text_scan.specs.Near.{is_near};
ghost use Rattle.text_scan.specs.Block.{IsWordAhead, IsNumberAhead};
ghost use Rattle.text_scan.specs.Decides.{gained, Decides, OnlyReads};

use crate::lexer::{Lexer, letters};
use crate::number::{number_at_front, numbers_at_front};
use crate::token::{SPACE, Token};
use host_io::Source;
use std::marker::Model;
use thiserror::Error;

/// How many bytes of a text are looked at: `max_bytes` of the definitions.
pub const MAX_BYTES: u64 = 4_000_000_000;

/// How many bytes are asked of the source at once.
const BLOCK: usize = 16384;

/// Why there is no further token before the end.
#[derive(Clone, Copy, Debug, PartialEq, Eq, Error)]
pub enum ScanError {
    #[error("a read failed")]
    ReadFault,
    #[error("the text is too long")]
    TooLong,
}

/// Whether a scanner still reads, and else what it answers from now on.
#[derive(Clone, Copy, PartialEq, Eq)]
enum ScanStatus {
    Reading,
    Ended,
    Overlong,
    Faulted,
}

/// Cuts the text that a source gives into tokens.
#[derive(Drop)]
pub struct Scanner {
    block: [u8; BLOCK],
    // the first byte of the block that isn't looked at yet, the first that may not be, and the end of the bytes read
    at: usize,
    stop: usize,
    end: usize,
    // how many bytes from the start of the block on are under the limit
    room: u64,
    lexer: Lexer,
    status: ScanStatus,
    line: u64,
}

impl Model for Scanner {
    ghost use Rattle.std.specs.Prelude.{◌-◌, drop, take};
    ghost use Rattle.text_scan.specs.Scan.{Scan};
    ghost use Rattle.text_scan.specs.Block.{IsBlock};

    ghost Value = { Scan };

    ghost view = { λ s. record {
      lex = s.lexer;
      room = s.room - s.at;
      unread = drop s.at (take s.end s.block);
      status = s.status;
      line = s.line;
    } };

    ghost invariant = { λ s. IsBlock s.block s.at s.stop s.end s.room s.lexer.line };
}

impl Scanner {
    /// A scanner of a text that may have as many bytes as the limit says. Lines whose first byte that is no blank
    /// is the comment byte are skipped.
    pub fn new(comment: u8, limit: u64) -> Scanner
        requires { limit + 1 < 2 ^ 64 }
        ensures items { (bytes : List ℕ) → ahead result bytes ≡ items comment limit bytes }
        ensures front { (bytes : List ℕ) → so_far result bytes ≡ items_of_front comment bytes }
        ensures reading { result.status ≡ Reading }
        ensures line { result.line ≡ 1 }
    {
        Scanner {
            block: [0; BLOCK],
            at: 0,
            stop: 0,
            end: 0,
            room: limit,
            lexer: Lexer::new(comment),
            status: ScanStatus::Reading,
            line: 1,
        }
    }

    /// The next token; None is the end. After None or an error it gives the same again and reads nothing.
    #[inline(always)]
    pub fn next<S: Source>(&mut self, source: &mut S) -> Result<Option<Token>, ScanError>
        ensures gives { IsTrue S.tells → Decides (S.channel source.old) (S.channel source.new)
            (λ bytes more. Gives result self.new.line (ahead self.old bytes) (ahead self.new more)) }
        // A read fails only where the bytes taken give no token yet.
        ensures so_far { IsTrue S.tells → is_reading self.old.status ≡ true →
            GivesSoFar result self.old self.new (gained (S.channel source.old) (S.channel source.new)) }
        ensures moves { Moves result self.old self.new }
        ensures fault { result ≡ Err ReadFault → is_faulted self.old.status ≡ false →
            Rose (S.channel source.old).faults (S.channel source.new).faults }
        // No failed read is told as anything else.
        ensures unfailed { result ≢ Err ReadFault → (S.channel source.new).faults ≡ (S.channel source.old).faults }
        // Once it has stopped, nothing changes.
        ensures stopped_answer { is_reading self.old.status ≡ false → result ≡ last_answer self.old.status }
        ensures stopped_scanner { is_reading self.old.status ≡ false → self.new ≡ self.old }
        ensures stopped_source { is_reading self.old.status ≡ false → S.channel source.new ≡ S.channel source.old }

        ensures reads { OnlyReads (S.channel source.old) (S.channel source.new) }
        ensures beside { S.beside source.new ≡ S.beside source.old }
    {
        let mut token = Token::blank();
        match self.next_into(source, &mut token) {
            Ok(true) => Ok(Some(token)),
            Ok(false) => Ok(None),
            Err(error) => Err(error),
        }
    }

    /// The same, but the token is put into the caller's place, so that its bytes are copied once. Whether there is one.
    /// After the end or an error some token stands there.
    #[inline(always)]
    pub fn next_into<S: Source>(
        &mut self,
        source: &mut S,
        token: &mut Token,
    ) -> Result<bool, ScanError>
        ensures gives { IsTrue S.tells → Decides (S.channel source.old) (S.channel source.new)
            (λ bytes more. Gives (given token.new result) self.new.line (ahead self.old bytes) (ahead self.new more)) }
        // A read fails only where the bytes taken give no token yet.
        ensures so_far { IsTrue S.tells → is_reading self.old.status ≡ true →
            GivesSoFar (given token.new result) self.old self.new (gained (S.channel source.old) (S.channel source.new)) }
        ensures moves { Moves (given token.new result) self.old self.new }
        ensures fault { result ≡ Err ReadFault → is_faulted self.old.status ≡ false →
            Rose (S.channel source.old).faults (S.channel source.new).faults }
        // No failed read is told as anything else.
        ensures unfailed { result ≢ Err ReadFault → (S.channel source.new).faults ≡ (S.channel source.old).faults }
        // Once it has stopped, nothing changes.
        ensures stopped_answer { is_reading self.old.status ≡ false → given token.new result ≡ last_answer self.old.status }
        ensures stopped_scanner { is_reading self.old.status ≡ false → self.new ≡ self.old }
        ensures stopped_source { is_reading self.old.status ≡ false → S.channel source.new ≡ S.channel source.old }

        ensures reads { OnlyReads (S.channel source.old) (S.channel source.new) }
        ensures beside { S.beside source.new ≡ S.beside source.old }
    {
        match self.status {
            ScanStatus::Reading => self.read_on(source, token),
            ScanStatus::Ended => Ok(false),
            ScanStatus::Overlong => Err(ScanError::TooLong),
            ScanStatus::Faulted => Err(ScanError::ReadFault),
        }
    }

    /// Puts the numbers of the tokens that come next on this line into places, and tells how many: as far as each is a number of at
    /// most nine digits and lies whole, with the blank behind it, in what was read, and there are places. These tokens are then given, as
    /// `next` gives them. It reads nothing, and looks at each byte once. That it puts any is no promise: what it leaves `next` gives.
    #[inline(always)]
    pub fn numbers_on(&mut self, line: u64, places: &mut [i64]) -> usize
        ensures size { length places.new ≡ length places.old }
        ensures within { result ≤ length places.new }
        ensures took { TookNumbers (take result places.new) line self.old self.new }
    {
        if !self.is_on(line) {
            return 0;
        }
        if !self.lexer.is_between_words() {
            return 0;
        }
        let (count, len, ended) = numbers_at_front(&self.block[self.at..self.stop], places);
        self.pass_numbers(count > 0, len, ended);
        count
    }

    // Passes the numbers of a line, if there are any, which have so many bytes with the blanks behind them, and a line end, if the last of
    // these is one.
    #[inline(always)]
    fn pass_numbers(&mut self, any: bool, len: usize, ended: bool)
        requires unread { len ≤ length self.old.unread }
        requires room { len ≤ self.old.room }
        requires some { IsTrue ended → 0 < len }
        ensures { self.new ≡ passed self.old any len ended }
    {
        if any {
            self.line = self.lexer.line();
        }
        if ended {
            self.lexer.pass_word(b'\n');
        }
        self.at += len;
    }

    /// The same of the token that comes next, where it stands on another line; else nothing changes.
    #[inline(always)]
    pub fn number_past(&mut self, line: u64) -> Option<i64>
        ensures took { IfSome result (λ number. TookNumber number self.new.line self.old self.new) }
        ensures past { IfSome result (λ number. self.new.line ≢ line) }
        ensures none { result ≡ None → self.new ≡ self.old }
    {
        if self.status != ScanStatus::Reading || self.lexer.line() == line {
            return None;
        }
        self.take_number()
    }

    // The number of the next token, where it is one that lies whole in what was read; then it is given.
    #[inline(always)]
    fn take_number(&mut self) -> Option<i64>
        requires { self.old.status ≡ Reading }
        ensures took { IfSome result (λ number. TookNumber number self.old.lex.line self.old self.new) }
        ensures none { result ≡ None → self.new ≡ self.old }
    {
        let (number, len) = self.number_ahead()?;
        let blank = self.block[self.at + len];
        self.line = self.lexer.line();
        self.lexer.pass_word(blank);
        self.at += len + 1;
        Some(number)
    }

    // Whether it still reads, and the next byte stands on this line.
    #[inline(always)]
    fn is_on(&self, line: u64) -> bool
        ensures reading { result ≡ true → self.now.status ≡ Reading }
        ensures line { result ≡ true → self.now.lex.line ≡ line }
    {
        self.status == ScanStatus::Reading && self.lexer.line() == line
    }

    // The number that begins with the next byte, if there is one and it ends in the block, and its length.
    #[inline(always)]
    fn number_ahead(&self) -> Option<(i64, usize)>
        ensures { IfSome result (λ found. IsNumberAhead self.now found.0 found.1) }
    {
        let window = &self.block[self.at..self.stop];
        let (number, len, _) = number_at_front(window)?;
        if !self.lexer.begins_word(window[0]) {
            return None;
        }
        Some((number, len))
    }

    /// The line of the token that was given last, 1 before the first; after None that of the end; after TooLong
    /// one more than the number of line ends under the limit.
    #[inline(always)]
    pub fn line(&self) -> u64
        ensures { result ≡ self.now.line }
    {
        self.line
    }

    /// No more tokens are ahead than a block of bytes, and what follows it, can spell.
    #[inline(always)]
    pub fn near_law(&self)
        ensures { (more : List ℕ) → is_near (length more) (ahead self.now more) ≡ true }
    {
        let _at = self.at;
    }

    fn read_on<S: Source>(&mut self, source: &mut S, token: &mut Token) -> Result<bool, ScanError>
        requires { self.old.status ≡ Reading }
        ensures gives { IsTrue S.tells → Decides (S.channel source.old) (S.channel source.new)
            (λ bytes more. Gives (given token.new result) self.new.line (ahead self.old bytes) (ahead self.new more)) }
        ensures so_far { IsTrue S.tells → GivesSoFar (given token.new result) self.old self.new
            (gained (S.channel source.old) (S.channel source.new)) }
        ensures moves { Moves (given token.new result) self.old self.new }
        ensures fault { result ≡ Err ReadFault → Rose (S.channel source.old).faults (S.channel source.new).faults }
        ensures unfailed { result ≢ Err ReadFault → (S.channel source.new).faults ≡ (S.channel source.old).faults }
        ensures reads { OnlyReads (S.channel source.old) (S.channel source.new) }
        ensures beside { S.beside source.new ≡ S.beside source.old }
    {
        'turns: loop {
            if self.buffered_token(token) {
                self.set_line(token.line());
                return Ok(true);
            }
            if self.has_unread() {
                self.set_overlong();
                return Err(ScanError::TooLong);
            }
            if !self.fill(source)? {
                return Ok(self.last_token(token));
            }
        }
    }

    // Puts the next token that ends among the bytes that are read and under the limit. Whether there is one.
    #[inline(always)]
    fn buffered_token(&mut self, token: &mut Token) -> bool
        ensures found { result ≡ true → (more : List ℕ) → items_from self.old.lex self.old.room (self.old.unread ++ more)
            ≡ next_word token.new (items_from self.new.lex self.new.room (self.new.unread ++ more)) }
        ensures none { result ≡ false → (more : List ℕ) → items_from self.old.lex self.old.room (self.old.unread ++ more)
            ≡ items_from self.new.lex self.new.room (self.new.unread ++ more) }
        ensures found_so_far { result ≡ true → (more : List ℕ) → so_far self.old more ≡ next_word token.new (so_far self.new more) }
        ensures none_so_far { result ≡ false → (more : List ℕ) → so_far self.old more ≡ so_far self.new more }
        ensures over { result ≡ false → IsTrue (has_bytes self.new.unread) → self.new.room ≡ 0 }
        ensures room { self.new.room + length self.old.unread ≡ self.old.room + length self.new.unread }
        ensures progress { result ≡ true → self.new.room < self.old.room }
        ensures status { self.new.status ≡ self.old.status }
        ensures line { self.new.line ≡ self.old.line }
    {
        if self.whole_token(token) {
            return true;
        }
        self.token_by_bytes(token)
    }

    // The same where the next byte begins a token that ends in the block; else nothing. Its bytes are copied at once.
    #[inline(always)]
    fn whole_token(&mut self, token: &mut Token) -> bool
        ensures found { result ≡ true → (more : List ℕ) → items_from self.old.lex self.old.room (self.old.unread ++ more)
            ≡ next_word token.new (items_from self.new.lex self.new.room (self.new.unread ++ more)) }
        ensures found_so_far { result ≡ true → (more : List ℕ) → so_far self.old more ≡ next_word token.new (so_far self.new more) }
        ensures none { result ≡ false → self.new ≡ self.old }
        ensures room { self.new.room + length self.old.unread ≡ self.old.room + length self.new.unread }
        ensures progress { result ≡ true → self.new.room < self.old.room }
        ensures status { self.new.status ≡ self.old.status }
        ensures line { self.new.line ≡ self.old.line }
    {
        let Some(len) = self.word_ahead(token) else {
            return false;
        };
        let blank = self.block[self.at + len];
        self.lexer.pass_word(blank);
        self.at += len + 1;
        true
    }

    // Puts the token that begins with the next byte, if there is one and it ends in the block. Its length.
    #[inline(always)]
    fn word_ahead(&self, token: &mut Token) -> Option<usize>
        ensures { IfSome result (λ len. IsWordAhead self.now token.new len) }
    {
        if self.stop - self.at < SPACE {
            return None;
        }
        let window = &self.block[self.at..self.stop];
        let len = letters(window);
        if len >= window.len() || !self.lexer.begins_word(window[0]) {
            return None;
        }
        token.put_front(window, len, self.lexer.line());
        Some(len)
    }

    // The same byte by byte.
    fn token_by_bytes(&mut self, token: &mut Token) -> bool
        ensures found { result ≡ true → (more : List ℕ) → items_from self.old.lex self.old.room (self.old.unread ++ more)
            ≡ next_word token.new (items_from self.new.lex self.new.room (self.new.unread ++ more)) }
        ensures none { result ≡ false → (more : List ℕ) → items_from self.old.lex self.old.room (self.old.unread ++ more)
            ≡ items_from self.new.lex self.new.room (self.new.unread ++ more) }
        ensures found_so_far { result ≡ true → (more : List ℕ) → so_far self.old more ≡ next_word token.new (so_far self.new more) }
        ensures none_so_far { result ≡ false → (more : List ℕ) → so_far self.old more ≡ so_far self.new more }
        ensures over { result ≡ false → IsTrue (has_bytes self.new.unread) → self.new.room ≡ 0 }
        ensures room { self.new.room + length self.old.unread ≡ self.old.room + length self.new.unread }
        ensures progress { result ≡ true → self.new.room < self.old.room }
        ensures status { self.new.status ≡ self.old.status }
        ensures line { self.new.line ≡ self.old.line }
    {
        while self.at < self.stop {
            let byte = self.block[self.at];
            self.at += 1;
            if self.lexer.ends_word(byte) {
                *token = self.lexer.word();
                self.lexer.take(byte);
                return true;
            }
            self.lexer.take(byte);
        }
        false
    }

    #[inline(always)]
    fn has_unread(&self) -> bool
        ensures { result ≡ has_bytes self.now.unread }
    {
        self.at < self.end
    }

    #[inline(always)]
    fn set_line(&mut self, line: u64)
        ensures { self.new ≡ record self.old { line = line } }
    {
        self.line = line;
    }

    // More bytes are there than the limit allows.
    fn set_overlong(&mut self)
        ensures { self.new ≡ record self.old { status = Overlong; line = self.old.lex.line } }
    {
        self.status = ScanStatus::Overlong;
        self.line = self.lexer.line();
    }

    // Puts the token that the end of the text ends, if one has begun. Nothing is read from then on.
    fn last_token(&mut self, token: &mut Token) -> bool
        ensures stopped { self.new ≡ record self.old { status = Ended; line = self.old.lex.line } }
        ensures found { result ≡ true → (items : _) → word_then self.old.lex.word self.old.lex.line items ≡ next_word token.new items }
        ensures none { result ≡ false → (items : _) → word_then self.old.lex.word self.old.lex.line items ≡ items }
        ensures line { result ≡ true → token.new.line ≡ self.old.lex.line }
    {
        self.status = ScanStatus::Ended;
        self.line = self.lexer.line();
        if !self.lexer.has_word() {
            return false;
        }
        *token = self.lexer.word();
        true
    }

    // Reads the next block. False is the end.
    fn fill<S: Source>(&mut self, source: &mut S) -> Result<bool, ScanError>
        requires reading { self.old.status ≡ Reading }
        requires used { self.old.unread ≡ [] }
        ensures same { IsTrue S.tells → Decides (S.channel source.old) (S.channel source.new)
            (λ bytes more. ahead self.old bytes ≡ ahead self.new more) }
        ensures taken { IsTrue S.tells → self.new.unread ≡ gained (S.channel source.old) (S.channel source.new) }
        ensures failed { OnErr result (self.new.unread ≡ []) }
        ensures ended { IsTrue S.tells → result ≡ Ok false → IsOver (S.channel source.new).left }
        ensures ended_unread { result ≡ Ok false → self.new.unread ≡ [] }
        ensures more { result ≡ Ok true → 0 < length self.new.unread }
        ensures kept { self.new ≡ record self.old { unread = self.new.unread; status = self.new.status } }
        ensures status_ok { OnOk result (self.new.status ≡ Reading) }
        ensures status_err { OnErr result (self.new.status ≡ Faulted) }
        ensures error { OnErr result (result ≡ Err ReadFault) }
        ensures fault { OnErr result (Rose (S.channel source.old).faults (S.channel source.new).faults) }
        ensures unfailed { OnOk result ((S.channel source.new).faults ≡ (S.channel source.old).faults) }
        ensures reads { OnlyReads (S.channel source.old) (S.channel source.new) }
        ensures beside { S.beside source.new ≡ S.beside source.old }
    {
        self.room -= self.at as u64;
        self.at = 0;
        self.stop = 0;
        self.end = 0;
        match source.read(&mut self.block) {
            Ok(len) => {
                self.end = len;
                self.stop = (len as u64).min(self.room) as usize;
                Ok(len > 0)
            }
            Err(_) => {
                self.status = ScanStatus::Faulted;
                Err(ScanError::ReadFault)
            }
        }
    }
}
