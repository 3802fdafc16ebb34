// The body of a CNF text: the clauses' numbers, up to the end of the text or `%`.
ghost use Rattle.std.specs.Prelude.{◌≡◌, ◌≢◌, ◌<◌, ◌≤◌, [], true, false, nat_abs, length, None, Some, Err, IsTrue, IfOk, OnOk, OnErr};
ghost use Rattle.std.specs.Prelude.{codes};
ghost use Rattle.cnf_base.specs.Number.{signed_number};
ghost use Rattle.host_io.specs.Channel.{Rose};
ghost use Rattle.text_scan.specs.Decides.{gained, Decides, OnlyReads};
ghost use Rattle.text_scan.specs.Scan.{ahead, so_far, is_reading, is_overlong, is_faulted};
ghost use Rattle.dimacs_reader.specs.declared.error.CnfError.TheVariants.{ReadFault, OutOfMemory};
ghost use Rattle.dimacs_reader.specs.declared.mode.Mode.TheVariants.{Strict, Lax};
ghost use Rattle.dimacs_reader.specs.Answers.{Answers};
ghost use Rattle.dimacs_reader.specs.Body.{Takes, Wants, answer_of};
ghost use Rattle.text_scan.specs.Capped.{cap};
ghost use Rattle.dimacs_reader.specs.Cnf.{overlong, max_vars, max_clauses, max_literals, literals_of, is_word, with_number, with_read};
ghost use Rattle.dimacs_reader.specs.Cnf.{with_end, formula_of, most_clauses, beyond, offence_of, text_end, body as body_text};

use crate::error::{CnfError, CnfKind};
use crate::mode::Mode;
use cnf_base::{Cnf, CnfBuilder, Lit};
use host_io::Source;
use std::alloc::Global;
use std::marker::Model;
use text_scan::{Scanner, Token, signed_number};

/// How many literals a formula may have.
const MAX_LITERALS: u32 = 100_000_000;

/// How many clauses it may have, by its header or in the mode Lax.
pub(crate) const MAX_CLAUSES: u32 = 10_000_000;

/// What was read of the body. In contracts it is the mode, the number of clauses that the header announces, and the draft.
#[derive(Drop)]
pub struct Body {
    builder: CnfBuilder,
    mode: Mode,
    vars: u32,
    count: u32,
    ended: u32,
    begun: u32,
    literals: u32,
}

impl Model for Body {
    ghost use Rattle.dimacs_reader.specs.Body.{BodyState, IsBody};

    ghost Value = { BodyState };

    ghost view = { λ b. record { mode = b.mode; count = b.count; draft = b.builder } };

    ghost invariant = { λ b. IsBody b.vars b.count b.ended b.begun b.literals b.builder };
}

/// Whether a token is this word.
#[inline(always)]
pub fn is_word(token: &Token, text: &[u8]) -> bool
    requires { length text.now ≤ 64 }
    ensures { result ≡ is_word text.now token.now.bytes }
{
    !token.is_long() && token.bytes() == text
}

/// What is wrong with a number behind the last clause that there may be.
#[inline(always)]
fn beyond(mode: Mode) -> CnfKind
    ensures { result ≡ beyond mode }
{
    match mode {
        Mode::Strict => CnfKind::TooManyClauses,
        Mode::Lax => CnfKind::Limit,
    }
}

impl Body {
    pub fn new(alloc: Global, vars: u32, count: u32, mode: Mode) -> Body
        requires few_vars { vars ≤ max_vars }
        requires few_clauses { count ≤ max_clauses }
        ensures { result ≡ record { mode = mode; count = count; draft = record { vars = vars; clauses = []; begun = [] } } }
    {
        Body {
            builder: CnfBuilder::new(alloc, vars),
            mode,
            vars,
            count,
            ended: 0,
            begun: 0,
            literals: 0,
        }
    }

    /// Judges the next token, and adds its number.
    #[inline(always)]
    fn take(&mut self, token: &Token) -> Result<(), CnfError>
        ensures takes { Takes result (offence_of self.old.mode (signed_number token.now.bytes) self.old.count self.old.draft) token.now.line
            (with_read (signed_number token.now.bytes) self.old.draft) self.new.draft }
        // want of memory never stands for a refusal
        ensures memory { result ≡ Err OutOfMemory → offence_of self.old.mode (signed_number token.now.bytes) self.old.count self.old.draft
            ≡ None }
        ensures count { self.new.count ≡ self.old.count }
        ensures mode { self.new.mode ≡ self.old.mode }
    {
        match signed_number(token) {
            None => Err(CnfError::Refused(CnfKind::BadToken, token.line())),
            Some(number) => self.take_number(number, token.line()),
        }
    }

    #[inline(always)]
    fn take_number(&mut self, number: i64, line: u64) -> Result<(), CnfError>
        ensures takes { Takes result (offence_of self.old.mode (Some number) self.old.count self.old.draft) line
            (with_number number self.old.draft) self.new.draft }
        ensures memory { result ≡ Err OutOfMemory → offence_of self.old.mode (Some number) self.old.count self.old.draft ≡ None }
        ensures count { self.new.count ≡ self.old.count }
        ensures mode { self.new.mode ≡ self.old.mode }
        ensures few_vars { self.old.draft.vars ≤ max_vars }
    {
        if let Some(kind) = self.offence(number) {
            return Err(CnfError::Refused(kind, line));
        }
        self.put(number)
    }

    // How many clauses the text may have.
    #[inline(always)]
    fn most_clauses(&self) -> u32
        ensures value { result ≡ most_clauses self.now.mode self.now.count }
        ensures few { result ≤ max_clauses }
    {
        match self.mode {
            Mode::Strict => self.count,
            Mode::Lax => MAX_CLAUSES,
        }
    }

    // What is wrong with a number, if anything.
    #[inline(always)]
    fn offence(&self, number: i64) -> Option<CnfKind>
        ensures value { result ≡ offence_of self.now.mode (Some number) self.now.count self.now.draft }
        ensures few_vars { self.now.draft.vars ≤ max_vars }
    {
        if self.ended >= self.most_clauses() {
            Some(beyond(self.mode))
        } else if number.unsigned_abs() > self.vars as u64 {
            Some(CnfKind::LiteralRange)
        } else if number != 0 && self.literals >= MAX_LITERALS {
            Some(CnfKind::Limit)
        } else {
            None
        }
    }

    // Adds a number that doesn't offend.
    #[inline(always)]
    fn put(&mut self, number: i64) -> Result<(), CnfError>
        requires { offence_of self.old.mode (Some number) self.old.count self.old.draft ≡ None }
        ensures ok { OnOk result (self.new ≡ record {
          mode = self.old.mode;
          count = self.old.count;
          draft = with_number number self.old.draft;
        }) }
        ensures err { OnErr result (result ≡ Err OutOfMemory) }
        ensures count { self.new.count ≡ self.old.count }
        ensures mode { self.new.mode ≡ self.old.mode }
    {
        let _vars = self.vars;
        match Lit::new(number as i32) {
            None => {
                self.builder.end_clause()?;
                self.ended += 1;
                self.begun = 0;
            }
            Some(literal) => {
                self.builder.push_lit(literal)?;
                self.begun += 1;
                self.literals += 1;
            }
        }
        Ok(())
    }

    // The end of the clauses, on this line.
    fn finish(self, line: u64) -> Result<Cnf, CnfError>
        ensures answers { Answers result (text_end self.mode self.count self.draft line) }
        ensures unfailed { result ≢ Err ReadFault }
        // Memory is wanted only for a clause without its zero, whose numbers offended nothing.
        ensures memory { result ≡ Err OutOfMemory → (self.mode ≡ Lax) × (0 < length self.draft.begun) }
    {
        match self.mode {
            Mode::Strict => self.finish_strict(line),
            Mode::Lax => self.finish_lax(),
        }
    }

    fn finish_lax(self) -> Result<Cnf, CnfError>
        ensures ok { IfOk result (λ cnf. cnf ≡ formula_of (with_end self.draft)) }
        ensures memory { OnErr result ((result ≡ Err OutOfMemory) × (0 < length self.draft.begun)) }
    {
        let Body {
            mut builder,
            mode: _,
            vars: _,
            count: _,
            ended: _,
            begun,
            literals: _,
        } = self;
        if begun > 0 {
            builder.end_clause()?;
        }
        Ok(builder.finish())
    }

    fn finish_strict(self, line: u64) -> Result<Cnf, CnfError>
        ensures { result ≡ answer_of (text_end Strict self.count self.draft line) }
    {
        let Body {
            builder,
            mode: _,
            vars: _,
            count,
            ended,
            begun,
            literals: _,
        } = self;
        if begun > 0 {
            Err(CnfError::Refused(CnfKind::NoEndingZero, line))
        } else if ended < count {
            Err(CnfError::Refused(CnfKind::ClauseMissing, line))
        } else {
            Ok(builder.finish())
        }
    }
}

/// Reads the body to its end, and answers what it is.
pub fn read_body<S: Source>(
    mut body: Body,
    scanner: &mut Scanner,
    source: &mut S,
) -> Result<Cnf, CnfError>
    requires { is_faulted scanner.old.status ≡ false }
    ensures decides { IsTrue S.tells → Decides (S.channel source.old) (S.channel source.new)
        (λ bytes more. Answers result (body_text body.mode (ahead scanner.old bytes) body.count body.draft)) }
    // a read fails only where the bytes taken decide nothing yet
    ensures undecided { IsTrue S.tells → result ≡ Err ReadFault → (is_reading scanner.old.status ≡ true)
        × (body_text body.mode (so_far scanner.old (gained (S.channel source.old) (S.channel source.new))) body.count body.draft
        ≡ overlong) }
    // want of memory never stands for a refusal, nor for a text that is too long, and is told at its place
    ensures memory { IsTrue S.tells → result ≡ Err OutOfMemory → Decides (S.channel source.old) (S.channel source.new)
        (λ bytes more. Wants body.mode body.count (length more) (ahead scanner.old bytes) body.draft (ahead scanner.new more)) }
    ensures memory_within { result ≡ Err OutOfMemory → is_overlong scanner.new.status ≡ false }
    ensures fault { result ≡ Err ReadFault → Rose (S.channel source.old).faults (S.channel source.new).faults }
    ensures unfailed { result ≢ Err ReadFault → (S.channel source.new).faults ≡ (S.channel source.old).faults }
    ensures reads { OnlyReads (S.channel source.old) (S.channel source.new) }
    ensures beside { S.beside source.new ≡ S.beside source.old }
{
    'tokens: loop {
        match scanner.next(source)? {
            None => return body.finish(scanner.line()),
            Some(token) => {
                scanner.near_law();
                if is_word(&token, b"%") {
                    return body.finish(token.line());
                }
                body.take(&token)?;
            }
        }
    }
}
