// A schedule, read line by line. A line is judged once it is ended.
ghost use Rattle.std.specs.Prelude.{◌≡◌, ◌≢◌, ◌⊎◌, ◌≤◌, ◌-◌, ◌∷◌, [], ℕ, List, map, replicate, length, true, false, Ok, Err, IsTrue, OnOk};
ghost use Rattle.std.specs.Prelude.{OnErr, IfOk};
ghost use Rattle.host_io.specs.Channel.{Rose};
ghost use Rattle.text_scan.specs.Decides.{gained, Decides, OnlyReads};
ghost use Rattle.text_scan.specs.Items.{Items, the_end, too_long, next_word};
ghost use Rattle.text_scan.specs.Near.{is_near};
ghost use Rattle.cnf_base.specs.Formula.{Formula};
ghost use Rattle.schedule_plan.specs.declared.plan.Move.{Move as Moved};
ghost use Rattle.schedule_plan.specs.declared.plan.Move.TheVariants.{Push as PushMove, Exists as ExistsMove};
ghost use Rattle.schedule_plan.specs.declared.schedule.error.PlanError.TheVariants.{ReadFault, OutOfMemory};
ghost use Rattle.schedule_plan.specs.Plan.{IsAdmissible};
ghost use Rattle.schedule_plan.specs.ScheduleText.{schedule, schedule_so_far, plan, overlong, taken};
ghost use Rattle.schedule_plan.specs.ScheduleState.{Stands, Takes, Goes, Answers, draft_taken, drafted};
ghost use Rattle.schedule_plan.specs.ScheduleMemory.{moves_may_want_memory, line_may_want_memory, items_may_want_memory, may_want_memory};

use crate::plan::Plan;
use crate::schedule::error::{PlanError, PlanKind};
use crate::schedule::judge::ScheduleJudge;
use crate::schedule::line::{Command, Line};
use cnf_base::Cnf;
use host_io::Source;
use std::alloc::Global;
use text_scan::{MAX_BYTES, ScanError, Scanner, Token};

/// What a text is read as is an admissible plan.
pub fn schedule_text_law()
    ensures { (formula : Formula) (bytes : List ℕ) (moves : List Moved) → schedule formula bytes ≡ plan moves → IsAdmissible formula moves }
{}

/// Reads a schedule to its end, and answers what it is. Memory may be refused instead, or a read may fail.
pub(crate) fn read_schedule<S: Source>(
    alloc: Global,
    formula: &Cnf,
    source: &mut S,
) -> Result<Plan, PlanError>
    ensures decides { IsTrue S.tells → Decides (S.channel source.old) (S.channel source.new)
        (λ bytes more. Answers result (schedule formula.now bytes)) }
    ensures fault { result ≡ Err ReadFault → Rose (S.channel source.old).faults (S.channel source.new).faults }
    ensures unfailed { result ≢ Err ReadFault → (S.channel source.new).faults ≡ (S.channel source.old).faults }
    ensures undecided { IsTrue S.tells → result ≡ Err ReadFault → schedule_so_far formula.now
        (gained (S.channel source.old) (S.channel source.new)) ≡ overlong }
    // want of memory stands neither for a refusal nor for a text that is too long, and is told at its place
    ensures memory { IsTrue S.tells → result ≡ Err OutOfMemory → (S.channel source.new ≡ S.channel source.old)
        ⊎ Decides (S.channel source.old) (S.channel source.new) (λ bytes more. IsTrue (may_want_memory formula.now (length more) bytes)) }
    ensures admissible { IfOk result (IsAdmissible formula.now) }
    ensures reads { OnlyReads (S.channel source.old) (S.channel source.new) }
    ensures beside { S.beside source.new ≡ S.beside source.old }
{
    formula.formula_law();
    let mut scanner = Scanner::new(b'#', MAX_BYTES);
    let mut judge = ScheduleJudge::new(alloc, formula)?;
    let mut line = Line::new(alloc);
    'tokens: loop {
        match scanner.next(source) {
            Ok(Some(token)) => {
                scanner.near_law();
                take_token(&mut judge, formula, &mut line, &token)?;
            }
            Ok(None) => return at_end(judge, formula, &line, scanner.line()),
            Err(ScanError::TooLong) => return Err(at_limit(judge, formula, &line, scanner.line())),
            Err(ScanError::ReadFault) => return Err(PlanError::ReadFault),
        }
    }
}

// A token of the line that is begun, or the first of another, which ends it.
fn take_token(
    judge: &mut ScheduleJudge,
    formula: &Cnf,
    line: &mut Line,
    token: &Token,
) -> Result<(), PlanError>
    requires { Stands formula.now judge.old }
    ensures stands { OnOk result (Stands formula.now judge.new) }
    ensures goes { (items : Items) → Goes result (drafted formula.now (next_word token.now items) line.old judge.old.moves.items)
        (drafted formula.now items line.new judge.new.moves.items) }
    ensures later { OnOk result ((more : ℕ) (items : Items)
        → IsTrue (items_may_want_memory more formula.now items line.new judge.new.moves.items)
        → IsTrue (items_may_want_memory more formula.now (next_word token.now items) line.old judge.old.moves.items)) }
    ensures memory { result ≡ Err OutOfMemory → (more : ℕ) (items : Items) → IsTrue (is_near more items)
        → IsTrue (items_may_want_memory more formula.now (next_word token.now items) line.old judge.old.moves.items) }
    ensures unfailed { result ≢ Err ReadFault }
{
    if line.is_open() && line.line() == token.line() {
        line.take(token)?;
        return Ok(());
    }
    take_line(judge, formula, line)?;
    line.begin(token);
    Ok(())
}

// The last line is ended, and the text is.
fn at_end(mut judge: ScheduleJudge, formula: &Cnf, line: &Line, end: u64) -> Result<Plan, PlanError>
    requires { Stands formula.now judge }
    ensures answers { Answers result (drafted formula.now (the_end end) line.now judge.moves.items) }
    ensures memory { result ≡ Err OutOfMemory → (more : ℕ)
        → IsTrue (items_may_want_memory more formula.now (the_end end) line.now judge.moves.items) }
    ensures unfailed { result ≢ Err ReadFault }
    ensures admissible { IfOk result (IsAdmissible formula.now) }
{
    take_line(&mut judge, formula, line)?;
    judge.finish(formula, end)
}

// At the limit the last line is ended where the line there is a later one.
fn at_limit(mut judge: ScheduleJudge, formula: &Cnf, line: &Line, end: u64) -> PlanError
    requires { Stands formula.now judge }
    ensures answers { Answers (Err result) (drafted formula.now (too_long end) line.now judge.moves.items) }
    ensures memory { result ≡ OutOfMemory → (more : ℕ)
        → IsTrue (items_may_want_memory more formula.now (too_long end) line.now judge.moves.items) }
    ensures unfailed { result ≢ ReadFault }
{
    if line.line() < end {
        if let Err(error) = take_line(&mut judge, formula, line) {
            return error;
        }
    }
    PlanError::TooLong
}

// Takes the moves of a line that is ended, if one is begun.
fn take_line(judge: &mut ScheduleJudge, formula: &Cnf, line: &Line) -> Result<(), PlanError>
    requires { Stands formula.now judge.old }
    ensures stands { OnOk result (Stands formula.now judge.new) }
    ensures takes { Takes result (draft_taken formula.now line.now judge.old.moves.items) line.now.line judge.new.moves.items }
    ensures memory { result ≡ Err OutOfMemory → IsTrue (line_may_want_memory formula.now line.now judge.old.moves.items) }
{
    if !line.is_open() {
        return Ok(());
    }
    let syntax = PlanError::Refused(PlanKind::Syntax, line.line());
    let Some(numbers) = line.numbers() else {
        return Err(syntax);
    };
    if numbers.is_empty() {
        return Err(syntax);
    }
    match line.command() {
        Command::Pushes => take_pushes(judge, formula, numbers, line.line()),
        Command::Quantifies => take_variables(judge, formula, numbers, line.line()),
        Command::QuantifiesAll => judge.exists_all(formula, numbers, line.line()),
        Command::Conjoins if numbers.len() == 1 && numbers[0] >= 2 => {
            judge.conjoin(formula, numbers[0], line.line())
        }
        _ => Err(syntax),
    }
}

fn take_pushes(
    judge: &mut ScheduleJudge,
    formula: &Cnf,
    numbers: &[u64],
    line: u64,
) -> Result<(), PlanError>
    requires { Stands formula.now judge.old }
    ensures stands { OnOk result (Stands formula.now judge.new) }
    ensures takes { Takes result (taken formula.now judge.old.moves.items (map PushMove numbers.now)) line judge.new.moves.items }
    ensures memory { result ≡ Err OutOfMemory
        → IsTrue (moves_may_want_memory formula.now judge.old.moves.items (map PushMove numbers.now)) }
{
    'numbers: for number in numbers {
        judge.push(formula, *number, line)?;
    }
    Ok(())
}

fn take_variables(
    judge: &mut ScheduleJudge,
    formula: &Cnf,
    numbers: &[u64],
    line: u64,
) -> Result<(), PlanError>
    requires { Stands formula.now judge.old }
    ensures stands { OnOk result (Stands formula.now judge.new) }
    ensures takes { Takes result (taken formula.now judge.old.moves.items (map ExistsMove numbers.now)) line judge.new.moves.items }
    ensures memory { result ≡ Err OutOfMemory
        → IsTrue (moves_may_want_memory formula.now judge.old.moves.items (map ExistsMove numbers.now)) }
{
    'variables: for number in numbers {
        judge.exists(formula, *number, line)?;
    }
    Ok(())
}
