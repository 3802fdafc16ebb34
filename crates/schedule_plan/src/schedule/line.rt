// One line as it is read, token by token.
ghost use Rattle.std.specs.Prelude.{◌≡◌, None, Some, IfSome, IfNone, IsTrue, OnErr, OnOk};
ghost use Rattle.schedule_plan.specs.ScheduleText.{is_letter};
ghost use Rattle.schedule_plan.specs.ScheduleState.{no_draft, command_of, draft_of_word, draft_with, is_open};
ghost use Rattle.schedule_plan.specs.ScheduleMemory.{has_numbers};

use cnf_base::OutOfMemory;
use std::alloc::Global;
use std::marker::Model;
use text_scan::{Token, plain_number};

/// The command of a line; Absent where no line is begun.
#[derive(Clone, Copy, PartialEq, Eq)]
pub(crate) enum Command {
    Absent,
    Pushes,
    Conjoins,
    Quantifies,
    QuantifiesAll,
    Unknown,
}

/// A line that isn't ended.
#[derive(Drop)]
pub(crate) struct Line {
    line: u64,
    command: Command,
    // whether a token is no number
    broken: bool,
    numbers: Vec<u64>,
}

impl Model for Line {
    ghost use Rattle.std.specs.Prelude.{None, Some, if◌then◌else◌};
    ghost use Rattle.schedule_plan.specs.ScheduleState.{DraftLine};

    ghost Value = { DraftLine };

    ghost view = { λ l. record { line = l.line; command = l.command; numbers = if l.broken then None else Some l.numbers.items } };
}

#[inline(always)]
fn command_of(token: &Token) -> Command
    ensures { result ≡ command_of token.now.bytes }
{
    match token.bytes() {
        [b'c'] => Command::Pushes,
        [b'a'] => Command::Conjoins,
        [b'q'] => Command::Quantifies,
        [b'e'] => Command::QuantifiesAll,
        _ => Command::Unknown,
    }
}

impl Line {
    pub(crate) fn new(alloc: Global) -> Line
        ensures { result ≡ no_draft }
    {
        Line {
            line: 0,
            command: Command::Absent,
            broken: false,
            numbers: Vec::new(alloc),
        }
    }

    #[inline(always)]
    pub(crate) fn line(&self) -> u64
        ensures { result ≡ self.now.line }
    {
        self.line
    }

    #[inline(always)]
    pub(crate) fn command(&self) -> Command
        ensures { result ≡ self.now.command }
    {
        self.command
    }

    #[inline(always)]
    pub(crate) fn is_open(&self) -> bool
        ensures { result ≡ is_open self.now }
    {
        self.command != Command::Absent
    }

    /// The numbers behind the command; None where a token is none.
    pub(crate) fn numbers(&self) -> Option<&[u64]>
        ensures some { IfSome result (λ numbers. self.now.numbers ≡ Some numbers.now) }
        ensures none { IfNone result (self.now.numbers ≡ None) }
    {
        if self.broken {
            None
        } else {
            Some(self.numbers.as_slice())
        }
    }

    /// Lets the line go and begins the one of this token.
    pub(crate) fn begin(&mut self, token: &Token)
        ensures { self.new ≡ draft_of_word token.now }
    {
        self.line = token.line();
        self.command = command_of(token);
        self.broken = false;
        self.numbers.clear();
    }

    /// Takes one more token of the line.
    #[inline(always)]
    pub(crate) fn take(&mut self, token: &Token) -> Result<(), OutOfMemory>
        ensures ok { OnOk result (self.new ≡ draft_with self.old token.now) }
        // memory is wanted only for a number, where all before it are numbers
        ensures memory { OnErr result (IsTrue (has_numbers (draft_with self.old token.now))) }
    {
        match plain_number(token) {
            None => self.broken = true,
            Some(number) => {
                if !self.broken {
                    self.numbers.push(number)?;
                }
            }
        }
        Ok(())
    }
}
