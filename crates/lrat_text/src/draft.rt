// A line of an LRAT proof as it is read, token by token.
ghost use Rattle.std.specs.Prelude.{◌≡◌, true, None, Some, Ok, OnOk, OnErr, Option, IsTrue};
ghost use Rattle.std.specs.Int.{is_negative};
ghost use Rattle.std.specs.List.{list_any};
ghost use Rattle.cnf_base.specs.ProofText.{is_delete_word};
ghost use Rattle.lrat_text.specs.declared.draft.Kind.TheVariants.{Empty, Begun, Adds, Deletes};
ghost use Rattle.lrat_text.specs.Form.{TakesNumbers};
ghost use Rattle.lrat_text.specs.Draft.{first_number, is_adding};
ghost use Rattle.lrat_text.specs.Draft.{with_given, draft_as, has_numbers, keeps_number, lrat_form};

use crate::build::{put_addition, put_deletion};
use crate::form::LineForm;
use crate::lists::Lists;
use crate::numbers::Numbers;
use cnf_base::{OutOfMemory, Step};
use std::alloc::Global;
use std::marker::Model;
use text_scan::{Scanner, Token, kept_word_law, plain_number, signed_number};

/// What was read of a line: nothing, its first token, or that it is an addition or a deletion.
#[derive(Clone, Copy, PartialEq, Eq)]
pub enum Kind {
    Empty,
    Begun,
    Adds,
    Deletes,
}

/// A line of an LRAT proof: the numbers of its tokens so far.
#[derive(Drop)]
pub struct LratLine {
    line: u64,
    kind: Kind,
    id: Option<u64>,
    // whether a token is no number
    broken: bool,
    numbers: Numbers,
    lists: Lists,
}

impl Model for LratLine {
    ghost use Rattle.std.specs.Prelude.{None, Some, if◌then◌else◌};
    ghost use Rattle.lrat_text.specs.Draft.{DraftLine};

    ghost Value = { DraftLine };

    ghost view = { λ d. record { line = d.line; kind = d.kind; id = d.id; numbers = if d.broken then None else Some d.numbers } };
}

#[inline(always)]
fn is_delete_word(token: &Token) -> bool
    ensures { result ≡ is_delete_word token.now.bytes }
{
    token.bytes() == b"d".as_slice()
}

// The number of a line's first token, which has no sign.
#[inline(always)]
fn first_number(number: i64) -> Option<u64>
    ensures { result ≡ first_number number }
{
    if number < 0 {
        None
    } else {
        Some(number as u64)
    }
}

// Whether a line of this kind is an addition, or becomes one with a number.
#[inline(always)]
fn is_adding(kind: Kind) -> bool
    ensures { result ≡ is_adding kind }
{
    match kind {
        Kind::Begun | Kind::Adds => true,
        Kind::Empty | Kind::Deletes => false,
    }
}

fn has_negative(numbers: &[i64]) -> bool
    ensures { result ≡ list_any is_negative numbers.now }
{
    numbers.iter().any(|number| *number < 0)
}

impl LineForm for LratLine {
    type Step = Step;

    ghost form = { lrat_form };

    fn form_law() {
        kept_word_law();
    }

    fn new(alloc: Global) -> Self {
        LratLine {
            line: 0,
            kind: Kind::Empty,
            id: None,
            broken: false,
            numbers: Numbers::new(alloc),
            lists: Lists::new(alloc),
        }
    }

    #[inline(always)]
    fn is_begun(&self) -> bool {
        self.kind != Kind::Empty
    }

    #[inline(always)]
    fn line(&self) -> u64 {
        self.line
    }

    fn clear(&mut self) {
        self.line = 0;
        self.kind = Kind::Empty;
        self.id = None;
        self.broken = false;
        self.numbers.clear();
    }

    fn begin(&mut self, token: &Token) {
        self.line = token.line();
        self.kind = Kind::Begun;
        self.id = plain_number(token);
        self.broken = self.id.is_none();
        self.numbers.clear();
    }

    #[inline(always)]
    fn begin_with(&mut self, line: u64, number: i64) {
        self.line = line;
        self.kind = Kind::Begun;
        self.id = first_number(number);
        self.broken = self.id.is_none();
        self.numbers.clear();
    }

    #[inline(always)]
    fn take(&mut self, token: &Token) -> Result<(), OutOfMemory> {
        match self.kind {
            Kind::Empty => Ok(()),
            Kind::Begun => {
                if is_delete_word(token) {
                    self.kind = Kind::Deletes;
                    return Ok(());
                }
                self.kind = Kind::Adds;
                self.put(signed_number(token))
            }
            Kind::Adds => self.put(signed_number(token)),
            Kind::Deletes => self.put(plain_number(token).map(|number| number as i64)),
        }
    }

    #[inline(always)]
    fn take_numbers(&mut self, scanner: &mut Scanner) {
        if is_adding(self.kind) {
            self.add_numbers(scanner);
        } else {
            self.delete_numbers(scanner);
        }
    }

    fn blank_step(&self) -> Step {
        self.lists.blank_step()
    }

    #[inline(always)]
    fn put_step(&mut self, step: &mut Step) -> Result<bool, OutOfMemory> {
        let Some(id) = self.id else {
            return Ok(false);
        };
        if self.broken {
            return Ok(false);
        }
        match self.kind {
            Kind::Empty | Kind::Begun => Ok(false),
            Kind::Adds => put_addition(&mut self.lists, id, self.numbers.as_slice(), step),
            Kind::Deletes => put_deletion(&mut self.lists, id, self.numbers.as_slice(), step),
        }
    }
}

impl LratLine {
    // Numbers behind the first token of an addition, unless a token was none.
    #[inline(always)]
    fn add_numbers(&mut self, scanner: &mut Scanner)
        requires { is_adding self.old.kind ≡ true }
        ensures { TakesNumbers lrat_form self.old self.new scanner.old scanner.new }
    {
        if self.broken {
            return;
        }
        if self.numbers.take_from(self.line, scanner) > 0 {
            self.kind = Kind::Adds;
        }
    }

    // Numbers of a deletion, of which none is negative, unless a token was none.
    #[inline(never)]
    fn delete_numbers(&mut self, scanner: &mut Scanner)
        ensures { TakesNumbers lrat_form self.old self.new scanner.old scanner.new }
    {
        let Kind::Deletes = self.kind else {
            return;
        };
        if self.broken {
            return;
        }
        let before = self.numbers.len();
        self.numbers.take_from(self.line, scanner);
        self.broken = has_negative(&self.numbers.as_slice()[before..]);
    }

    #[inline(always)]
    fn put(&mut self, number: Option<i64>) -> Result<(), OutOfMemory>
        ensures ok { OnOk result (self.new ≡ draft_as self.old self.old.kind (with_given self.old.numbers number)) }
        ensures memory { OnErr result (IsTrue (keeps_number (with_given self.old.numbers number))) }
        ensures kept { OnErr result (IsTrue (has_numbers self.new)) }
    {
        match number {
            None => self.broken = true,
            Some(number) => self.put_number(number)?,
        }
        Ok(())
    }

    // One number more, unless a token was none.
    #[tactic(auto, using(crate::proofs::DraftLemmas::keeps_last))]
    #[inline(always)]
    fn put_number(&mut self, number: i64) -> Result<(), OutOfMemory>
        ensures ok { OnOk result (self.new ≡ draft_as self.old self.old.kind (with_given self.old.numbers (Some number))) }
        ensures memory { OnErr result (IsTrue (keeps_number (with_given self.old.numbers (Some number)))) }
        ensures kept { OnErr result (IsTrue (has_numbers self.new)) }
    {
        if self.broken {
            return Ok(());
        }
        self.numbers.push(number)?;
        Ok(())
    }
}
