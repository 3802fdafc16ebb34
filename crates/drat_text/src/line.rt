// A line of a DRAT proof as it is read, token by token.
ghost use Rattle.std.specs.Prelude.{◌≡◌, Some, OnOk, OnErr, IsTrue, is_some};
ghost use Rattle.cnf_base.specs.ProofText.{is_delete_word};
ghost use Rattle.lrat_text.specs.Draft.{with_given, keeps_number};
ghost use Rattle.drat_text.specs.Draft.{drat_form, drat_with};

use crate::build::{put_addition, put_deletion};
use crate::step::DratStep;
use cnf_base::{LitList, OutOfMemory};
use lrat_text::{LineForm, LineReader, Numbers, kept_numbers_law};
use std::alloc::Global;
use std::marker::Model;
use text_scan::{Scanner, Token, kept_word_law, signed_number};

/// What was read of a line: nothing, or tokens of an addition or of a deletion.
#[derive(Clone, Copy, PartialEq, Eq)]
pub enum DratKind {
    Empty,
    Adds,
    Deletes,
}

/// A line of a DRAT proof: the numbers of its tokens so far.
#[derive(Drop)]
pub struct DratLine {
    alloc: Global,
    line: u64,
    kind: DratKind,
    // whether a token is no number
    broken: bool,
    // the first number of an addition, so that a line is begun without memory
    first: i64,
    numbers: Numbers,
}

/// Reads the lines of a textual DRAT proof as steps.
pub type DratReader = LineReader<DratLine>;

impl Model for DratLine {
    ghost use Rattle.std.specs.Prelude.{None, Some, if◌then◌else◌};
    ghost use Rattle.drat_text.specs.Draft.{DratDraft, all_numbers};

    ghost Value = { DratDraft };

    ghost view = { λ d. record { line = d.line; kind = d.kind; numbers = if d.broken then None else Some (all_numbers d.kind d.first d.numbers) } };
}

#[inline(always)]
fn is_delete_word(token: &Token) -> bool
    ensures { result ≡ is_delete_word token.now.bytes }
{
    token.bytes() == b"d".as_slice()
}

impl LineForm for DratLine {
    type Step = DratStep;

    ghost form = { drat_form };

    fn form_law() {
        kept_word_law();
        kept_numbers_law();
    }

    fn new(alloc: Global) -> Self {
        DratLine {
            alloc,
            line: 0,
            kind: DratKind::Empty,
            broken: false,
            first: 0,
            numbers: Numbers::new(alloc),
        }
    }

    #[inline(always)]
    fn is_begun(&self) -> bool {
        self.kind != DratKind::Empty
    }

    #[inline(always)]
    fn line(&self) -> u64 {
        self.line
    }

    fn clear(&mut self) {
        self.line = 0;
        self.kind = DratKind::Empty;
        self.broken = false;
        self.numbers.clear();
    }

    fn begin(&mut self, token: &Token) {
        self.line = token.line();
        self.numbers.clear();
        if is_delete_word(token) {
            self.kind = DratKind::Deletes;
            self.broken = false;
            return;
        }
        self.kind = DratKind::Adds;
        match signed_number(token) {
            None => self.broken = true,
            Some(number) => {
                self.broken = false;
                self.first = number;
            }
        }
    }

    #[inline(always)]
    fn begin_with(&mut self, line: u64, number: i64) {
        self.line = line;
        self.kind = DratKind::Adds;
        self.broken = false;
        self.first = number;
        self.numbers.clear();
    }

    #[inline(always)]
    fn take(&mut self, token: &Token) -> Result<(), OutOfMemory> {
        match signed_number(token) {
            None => self.broken = true,
            Some(number) => self.put_number(number)?,
        }
        Ok(())
    }

    #[inline(always)]
    fn take_numbers(&mut self, scanner: &mut Scanner) {
        if !self.broken {
            self.numbers.take_from(self.line, scanner);
        }
    }

    fn blank_step(&self) -> DratStep {
        DratStep::Delete {
            lits: LitList::new(self.alloc),
        }
    }

    fn put_step(&mut self, step: &mut DratStep) -> Result<bool, OutOfMemory> {
        if self.broken {
            return Ok(false);
        }
        match self.kind {
            DratKind::Empty => Ok(false),
            DratKind::Adds => put_addition(self.alloc, self.first, self.numbers.as_slice(), step),
            DratKind::Deletes => put_deletion(self.alloc, self.numbers.as_slice(), step),
        }
    }
}

impl DratLine {
    // One number more, unless a token was none.
    #[tactic(auto, using(crate::proofs::DratForm::numbers_push, crate::proofs::DratForm::keeps_last))]
    #[inline(always)]
    fn put_number(&mut self, number: i64) -> Result<(), OutOfMemory>
        ensures ok { OnOk result (self.new ≡ drat_with self.old (Some number)) }
        ensures memory { OnErr result (IsTrue (keeps_number (with_given self.old.numbers (Some number)))) }
        ensures kept { OnErr result (IsTrue (is_some self.new.numbers)) }
    {
        if self.broken {
            return Ok(());
        }
        self.numbers.push(number)?;
        Ok(())
    }
}
