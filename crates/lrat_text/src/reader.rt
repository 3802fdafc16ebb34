// The reader: tokens from a scanner, gathered line by line.
ghost use Rattle.std.specs.Prelude.{◌≡◌, ◌≢◌, ℕ, ◌+◌, ◌^◌, ◌<◌, true, false, List, length, None, Ok, Err, IsTrue, IfSome, OnOk, OnErr};
ghost use Rattle.host_io.specs.Channel.{Rose};
ghost use Rattle.text_scan.specs.Decides.{gained, Decides, OnlyReads};
ghost use Rattle.lrat_text.specs.declared.error.StepError.TheVariants.{ReadFault, TooLong, OutOfMemory};
ghost use Rattle.lrat_text.specs.declared.reader.ReaderStatus.TheVariants.{Reading, Ended, Failed};
ghost use Rattle.lrat_text.specs.LineSteps.{steps_by, steps_so_far_by};
ghost use Rattle.lrat_text.specs.LineReader.{given, with_token, Gives, GivesSoFar, Moves, steps_ahead, so_far, is_reading, last_answer};
ghost use Rattle.lrat_text.specs.LineReader.{is_under, BeginsLine, GoesOn, Judges, Settles};
ghost use Rattle.lrat_text.specs.LineWants.{wants_of, wants_ahead, is_near, may_want, Spends, Leads};

use crate::draft::LratLine;
use crate::error::StepError;
use crate::form::LineForm;
use host_io::Source;
use std::alloc::Global;
use std::marker::Model;
use text_scan::{ScanError, Scanner, Token};

/// Whether a reader still reads, and else what it answers from now on.
#[derive(Clone, Copy)]
enum ReaderStatus {
    Reading,
    Ended,
    Failed(StepError),
}

/// Reads the lines of a textual proof as steps, in one form of lines.
#[derive(Drop)]
pub struct LineReader<F: LineForm> {
    scanner: Scanner,
    draft: F,
    status: ReaderStatus,
    line: u64,
}

/// Reads the lines of a textual LRAT proof as steps.
pub type StepReader = LineReader<LratLine>;

impl<F: LineForm> Model for LineReader<F> {
    ghost use Rattle.std.specs.Prelude.{◌≡◌, false};
    ghost use Rattle.text_scan.specs.Scan.{is_faulted};
    ghost use Rattle.lrat_text.specs.declared.reader.ReaderStatus.TheVariants.{Reading};
    ghost use Rattle.lrat_text.specs.LineReader.{ReaderOf};

    ghost Value = { ReaderOf F };

    ghost view = { λ r. record { scan = r.scanner; draft = r.draft; status = r.status; line = r.line } };

    ghost invariant = { λ r. r.status ≡ Reading → is_faulted r.scanner.status ≡ false };
}

impl<F: LineForm> LineReader<F> {
    /// A reader of a proof that may have as many bytes as the limit says.
    pub fn new(alloc: Global, limit: u64) -> Self
        requires { limit + 1 < 2 ^ 64 }
        ensures steps { (bytes : List ℕ) → steps_ahead F.form result bytes ≡ steps_by F.form.step_of limit bytes }
        ensures so_far { (bytes : List ℕ) → so_far F.form result bytes ≡ steps_so_far_by F.form.step_of bytes }
        ensures wants { (bytes : List ℕ) → wants_ahead F.form result bytes ≡ wants_of F.form limit bytes }
        ensures reading { result.status ≡ Reading }
        ensures line { result.line ≡ 1 }
    {
        F::form_law();
        LineReader {
            scanner: Scanner::new(b'c', limit),
            draft: F::new(alloc),
            status: ReaderStatus::Reading,
            line: 1,
        }
    }

    /// The line of the step that was given last, 1 before the first; after None that of the end.
    pub fn line(&self) -> u64
        ensures { result ≡ self.now.line }
    {
        self.line
    }

    /// The next step with its line; None is the end. A line is judged once the first token of a later one, or the end of
    /// the text, was read. After None or an error it gives the same again and reads nothing.
    pub fn next<S: Source>(&mut self, source: &mut S) -> Result<Option<(F::Step, u64)>, StepError>
        // The answer is the next of the steps of the bytes that were taken and whatever may follow them.
        ensures gives { IsTrue S.tells → Decides (S.channel source.old) (S.channel source.new)
            (λ bytes more. Gives result self.new.line (steps_ahead F.form self.old bytes) (steps_ahead F.form self.new more)) }
        // A read fails only where no line that was ended is left.
        ensures so_far { IsTrue S.tells → is_reading self.old.status ≡ true →
            GivesSoFar F.form result self.old self.new (gained (S.channel source.old) (S.channel source.new)) }
        ensures moves { Moves F.form result self.old self.new }
        ensures fault { result ≡ Err ReadFault → is_reading self.old.status ≡ true →
            Rose (S.channel source.old).faults (S.channel source.new).faults }
        // No failed read is told as anything else.
        ensures unfailed { result ≢ Err ReadFault → (S.channel source.new).faults ≡ (S.channel source.old).faults }
        // Memory is wanted only for a number of the next line that is kept, or for its step. No more numbers are kept behind
        // that place than a block of bytes can spell, and what may follow those taken.
        ensures spends { IsTrue S.tells → is_reading self.old.status ≡ true → Decides (S.channel source.old) (S.channel source.new)
            (λ bytes more. Spends result (length more) (wants_ahead F.form self.old bytes) (wants_ahead F.form self.new more)) }
        ensures memory { result ≡ Err OutOfMemory → is_reading self.old.status ≡ true → IsTrue (F.form.has_numbers self.new.draft) }
        // Once it has stopped, nothing changes.
        ensures stopped_answer { is_reading self.old.status ≡ false → result ≡ last_answer self.old.status }
        ensures stopped_reader { is_reading self.old.status ≡ false → self.new ≡ self.old }
        ensures stopped_source { is_reading self.old.status ≡ false → S.channel source.new ≡ S.channel source.old }

        ensures reads { OnlyReads (S.channel source.old) (S.channel source.new) }
        ensures beside { S.beside source.new ≡ S.beside source.old }
    {
        let mut step = self.draft.blank_step();
        match self.next_into(source, &mut step) {
            Ok(Some(line)) => Ok(Some((step, line))),
            Ok(None) => Ok(None),
            Err(error) => Err(error),
        }
    }

    /// The same, but the step is put into the caller's place, and the memory of the lists there is used again, so that a line
    /// takes none once they are large enough, but for the hints of groups. Any step may stand there before. After None or an
    /// error it is some step.
    pub fn next_into<S: Source>(
        &mut self,
        source: &mut S,
        step: &mut F::Step,
    ) -> Result<Option<u64>, StepError>
        // The answer is the next of the steps of the bytes that were taken and whatever may follow them.
        ensures gives { IsTrue S.tells → Decides (S.channel source.old) (S.channel source.new)
            (λ bytes more. Gives (given step.new result) self.new.line (steps_ahead F.form self.old bytes) (steps_ahead F.form self.new more)) }
        // A read fails only where no line that was ended is left.
        ensures so_far { IsTrue S.tells → is_reading self.old.status ≡ true →
            GivesSoFar F.form (given step.new result) self.old self.new (gained (S.channel source.old) (S.channel source.new)) }
        ensures moves { Moves F.form (given step.new result) self.old self.new }
        ensures fault { result ≡ Err ReadFault → is_reading self.old.status ≡ true →
            Rose (S.channel source.old).faults (S.channel source.new).faults }
        // No failed read is told as anything else.
        ensures unfailed { result ≢ Err ReadFault → (S.channel source.new).faults ≡ (S.channel source.old).faults }
        // Memory is wanted only for a number of the next line that is kept, or for its step. No more numbers are kept behind
        // that place than a block of bytes can spell, and what may follow those taken.
        ensures spends { IsTrue S.tells → is_reading self.old.status ≡ true → Decides (S.channel source.old) (S.channel source.new)
            (λ bytes more. Spends (given step.new result) (length more) (wants_ahead F.form self.old bytes) (wants_ahead F.form self.new more)) }
        ensures memory { result ≡ Err OutOfMemory → is_reading self.old.status ≡ true → IsTrue (F.form.has_numbers self.new.draft) }
        // Once it has stopped, nothing changes.
        ensures stopped_answer { is_reading self.old.status ≡ false → given step.new result ≡ last_answer self.old.status }
        ensures stopped_reader { is_reading self.old.status ≡ false → self.new ≡ self.old }
        ensures stopped_source { is_reading self.old.status ≡ false → S.channel source.new ≡ S.channel source.old }

        ensures reads { OnlyReads (S.channel source.old) (S.channel source.new) }
        ensures beside { S.beside source.new ≡ S.beside source.old }
    {
        match self.status {
            ReaderStatus::Reading => self.read_on(source, step),
            ReaderStatus::Ended => Ok(None),
            ReaderStatus::Failed(error) => Err(error),
        }
    }

    fn read_on<S: Source>(
        &mut self,
        source: &mut S,
        step: &mut F::Step,
    ) -> Result<Option<u64>, StepError>
        requires { self.old.status ≡ Reading }
        ensures gives { IsTrue S.tells → Decides (S.channel source.old) (S.channel source.new)
            (λ bytes more. Gives (given step.new result) self.new.line (steps_ahead F.form self.old bytes) (steps_ahead F.form self.new more)) }
        ensures so_far { IsTrue S.tells → GivesSoFar F.form (given step.new result) self.old self.new
            (gained (S.channel source.old) (S.channel source.new)) }
        ensures moves { Moves F.form (given step.new result) self.old self.new }
        ensures fault { result ≡ Err ReadFault → Rose (S.channel source.old).faults (S.channel source.new).faults }
        ensures unfailed { result ≢ Err ReadFault → (S.channel source.new).faults ≡ (S.channel source.old).faults }
        ensures spends { IsTrue S.tells → Decides (S.channel source.old) (S.channel source.new)
            (λ bytes more. Spends (given step.new result) (length more) (wants_ahead F.form self.old bytes) (wants_ahead F.form self.new more)) }
        ensures memory { result ≡ Err OutOfMemory → IsTrue (F.form.has_numbers self.new.draft) }
        ensures reads { OnlyReads (S.channel source.old) (S.channel source.new) }
        ensures beside { S.beside source.new ≡ S.beside source.old }
    {
        F::form_law();
        'tokens: loop {
            self.take_numbers();
            match self.number_of_another_line() {
                Some(number) => {
                    self.scanner.near_law();
                    return self.give_before_number(number, step);
                }
                None => {}
            }
            let mut token = Token::blank();
            match self.scanner.next_into(source, &mut token) {
                Ok(true) => {
                    self.scanner.near_law();
                    if self.draft.is_begun() && self.draft.line() != token.line() {
                        return self.give_before(&token, step);
                    }
                    self.take(&token)?;
                }
                Ok(false) => return self.give_at_end(step),
                Err(ScanError::TooLong) => return self.give_at_limit(step),
                Err(ScanError::ReadFault) => {
                    self.status = ReaderStatus::Failed(StepError::ReadFault);
                    return Err(StepError::ReadFault);
                }
            }
        }
    }

    // Takes the numbers that come next on the line that is begun, as far as they lie in what was read and there are places for them. (Of a
    // longer line the next one is then taken as a token, and those behind it in the next turn.)
    #[inline(always)]
    fn take_numbers(&mut self)
        ensures goes_on { GoesOn F.form self.old self.new }
        ensures leads { (more : List ℕ) → Leads (wants_ahead F.form self.old more) (wants_ahead F.form self.new more) }
    {
        F::form_law();
        if self.draft.is_begun() {
            self.draft.take_numbers(&mut self.scanner);
        }
    }

    // Takes the number that comes next where it stands on another line than the one that is begun.
    #[inline(always)]
    fn number_of_another_line(&mut self) -> Option<i64>
        ensures some { IfSome result (λ number. BeginsLine F.form number self.old self.new) }
        ensures none { result ≡ None → self.new ≡ self.old }
    {
        if !self.draft.is_begun() {
            return None;
        }
        self.scanner.number_past(self.draft.line())
    }

    // A token of the line that is begun, or the first of one.
    #[inline(always)]
    fn take(&mut self, token: &Token) -> Result<(), StepError>
        ensures ok { OnOk result (self.new ≡ record self.old { draft = with_token F.form self.old.draft token.now }) }
        ensures err { OnErr result (result ≡ Err OutOfMemory) }
        ensures stopped { OnErr result (self.new.status ≡ Failed OutOfMemory) }
        ensures begun { OnErr result (F.form.is_begun self.old.draft ≡ true) }
        ensures memory { OnErr result (IsTrue (F.form.keeps_number (F.form.with_word self.old.draft token.now))) }
        ensures kept { OnErr result (IsTrue (F.form.has_numbers self.new.draft)) }
        ensures line { self.new.line ≡ self.old.line }
    {
        if !self.draft.is_begun() {
            self.draft.begin(token);
            return Ok(());
        }
        match self.draft.take(token) {
            Ok(()) => Ok(()),
            Err(_) => Err(self.fail(StepError::OutOfMemory)),
        }
    }

    // The line that a token of another line has ended. That token begins the next.
    #[inline(never)]
    fn give_before(&mut self, token: &Token, step: &mut F::Step) -> Result<Option<u64>, StepError>
        requires { self.old.status ≡ Reading }
        ensures { Settles F.form (given step.new result) (F.form.of_word token.now) self.old self.new }
    {
        let line = self.judge(step)?;
        self.draft.begin(token);
        Ok(Some(line))
    }

    // The same where the scanner has given the number of that token.
    #[inline(always)]
    fn give_before_number(
        &mut self,
        number: i64,
        step: &mut F::Step,
    ) -> Result<Option<u64>, StepError>
        requires { self.old.status ≡ Reading }
        ensures { Settles F.form (given step.new result) (F.form.of_number self.old.scan.line number) self.old self.new }
    {
        let line = self.judge(step)?;
        self.draft.begin_with(self.scanner.line(), number);
        Ok(Some(line))
    }

    // The last line, if one is begun, or the end.
    #[cold]
    #[inline(never)]
    fn give_at_end(&mut self, step: &mut F::Step) -> Result<Option<u64>, StepError>
        requires { self.old.status ≡ Reading }
        ensures same_scan { self.new.scan ≡ self.old.scan }
        ensures unfailed { result ≢ Err ReadFault }
        ensures last { F.form.is_begun self.old.draft ≡ true → Settles F.form (given step.new result) F.form.no_draft self.old self.new }
        ensures ended { F.form.is_begun self.old.draft ≡ false → result ≡ Ok None }
        ensures stopped { F.form.is_begun self.old.draft ≡ false → self.new ≡ record self.old { status = Ended; line = self.old.scan.line } }
    {
        if !self.draft.is_begun() {
            self.status = ReaderStatus::Ended;
            self.line = self.scanner.line();
            return Ok(None);
        }
        let line = self.judge(step)?;
        self.draft.clear();
        Ok(Some(line))
    }

    // The last line whose end stands under the limit, if it isn't given yet; else that the text is too long.
    #[cold]
    #[inline(never)]
    fn give_at_limit(&mut self, step: &mut F::Step) -> Result<Option<u64>, StepError>
        requires { self.old.status ≡ Reading }
        ensures same_scan { self.new.scan ≡ self.old.scan }
        ensures unfailed { result ≢ Err ReadFault }
        ensures last { is_under F.form self.old ≡ true → Settles F.form (given step.new result) F.form.no_draft self.old self.new }
        ensures over { is_under F.form self.old ≡ false → result ≡ Err TooLong }
        ensures stopped { is_under F.form self.old ≡ false → self.new ≡ record self.old { status = Failed TooLong } }
    {
        if !(self.draft.is_begun() && self.draft.line() < self.scanner.line()) {
            return Err(self.fail(StepError::TooLong));
        }
        let line = self.judge(step)?;
        self.draft.clear();
        Ok(Some(line))
    }

    // Judges the line and takes it as the one that is given.
    #[inline(always)]
    fn judge(&mut self, step: &mut F::Step) -> Result<u64, StepError>
        requires { self.old.status ≡ Reading }
        ensures { Judges F.form result step.new self.old self.new }
    {
        let line = self.draft.line();
        match self.draft.put_step(step) {
            Err(_) => Err(self.fail(StepError::OutOfMemory)),
            Ok(false) => Err(self.fail(StepError::Syntax(line))),
            Ok(true) => {
                self.line = line;
                Ok(line)
            }
        }
    }

    /// No more numbers are ahead than a block of bytes, and what follows it, can spell.
    #[inline(always)]
    pub fn near_law(&self)
        ensures { (more : List ℕ) → is_near (length more) (wants_ahead F.form self.now more) ≡ true }
    {
        self.scanner.near_law();
    }

    // Stops with this error.
    fn fail(&mut self, error: StepError) -> StepError
        ensures same { result ≡ error }
        ensures stopped { self.new ≡ record self.old { status = Failed error } }
    {
        self.status = ReaderStatus::Failed(error);
        error
    }
}
