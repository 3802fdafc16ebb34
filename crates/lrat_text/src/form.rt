// What a reader needs of a form of lines.
ghost use Rattle.std.specs.Prelude.{◌≡◌, OnOk, OnErr, IfOk, IsTrue, is_some};
ghost use Rattle.cnf_base.specs.ProofText.{given_if};
ghost use Rattle.lrat_text.specs.Form.{Form, IsForm, TakesNumbers};

use cnf_base::OutOfMemory;
use std::alloc::Global;
use text_scan::{Scanner, Token};

/// A line of a proof as it is read token by token, in one form of lines. It keeps no text, but what the step needs that the
/// line spells.
pub trait LineForm: Drop {
    /// What a line spells.
    type Step: Drop;

    ghost form: { Form Self Self.Step };

    /// For the prover alone: the draft of a line says what its tokens say.
    fn form_law()
        ensures { IsForm form };

    /// No line is begun.
    fn new(alloc: Global) -> Self
        ensures { result ≡ form.no_draft };

    /// Whether a line is begun.
    fn is_begun(&self) -> bool
        ensures { result ≡ form.is_begun self.now };

    /// The number of the line that is begun.
    fn line(&self) -> u64
        ensures { result ≡ form.line self.now };

    /// Lets the line go.
    fn clear(&mut self)
        ensures { self.new ≡ form.no_draft };

    /// Lets the line go and begins the one of this token.
    fn begin(&mut self, token: &Token)
        ensures { self.new ≡ form.of_word token.now };

    /// Lets the line go and begins this one with a token that spells this number.
    fn begin_with(&mut self, line: u64, number: i64)
        ensures { self.new ≡ form.of_number line number };

    /// Takes one more token of the line. Memory is wanted only for a number that is kept: all tokens so far are numbers.
    fn take(&mut self, token: &Token) -> Result<(), OutOfMemory>
        ensures ok { OnOk result (self.new ≡ form.with_word self.old token.now) }
        ensures memory { OnErr result (IsTrue (form.keeps_number (form.with_word self.old token.now))) }
        ensures kept { OnErr result (IsTrue (form.has_numbers self.new)) };

    /// Takes the tokens of the line that come next, as far as the scanner gives numbers of them at once and there are places for these.
    /// (What it leaves comes token by token.)
    fn take_numbers(&mut self, scanner: &mut Scanner)
        ensures { TakesNumbers form self.old self.new scanner.old scanner.new };

    /// A step that takes no memory.
    fn blank_step(&self) -> Self::Step;

    /// Whether the line spells a step, which then is the step. Memory is wanted only for that.
    fn put_step(&mut self, step: &mut Self::Step) -> Result<bool, OutOfMemory>
        ensures step { IfOk result (λ is_step. form.judged self.old ≡ given_if is_step step.new) }
        ensures memory { OnErr result (IsTrue (is_some (form.judged self.old))) }
        ensures same { self.new ≡ self.old };
}
