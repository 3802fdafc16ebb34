// One run of the program.
ghost use Rattle.std.specs.Prelude.{◌≡◌, ◌⊎◌, ℕ, List, None, length, map, IfErr, IfOk, true};
ghost use Rattle.std.specs.Process.{exit_status};
ghost use Rattle.std.specs.String.{string_bytes};
ghost use Rattle.std.specs.Iterator.{IsFinite};
ghost use Rattle.std.specs.Iterator.Runs.{WholeRun};
ghost use Rattle.host_io.specs.declared.role.Role.{Role};
ghost use Rattle.host_io.specs.declared.role.Role.TheVariants.{ProofOut, Made, Out, Err as ErrRole};
ghost use Rattle.host_io.specs.Files.{FilesBut, Kept, Texts};
ghost use Rattle.host_io.specs.Memory.{channel_of, files_of, told_files};
ghost use Rattle.schedule_plan.specs.Limits.{AreLimits};
ghost use Rattle.schedule_plan.specs.Plan.{IsAdmissible};
ghost use Rattle.command_line.specs.Command.{IsSize, command, progress_asked};
ghost use Rattle.command_line.specs.Reading.{convert_of, text_of, trim_of};
ghost use Rattle.solver_cli.specs.Headline.{Promises};
ghost use Rattle.solver_cli.specs.Run.{AllFit, all_told};
ghost use Rattle.solver_cli.specs.Progress.{IsTold};
ghost use Rattle.solver_cli.specs.ExitCode.{exit_code};
ghost use Rattle.solver_cli.specs.Start.{OnlyTold, status_of_kind};
ghost use Rattle.solver_cli.specs.Verdict.{verdict_text};
ghost use Rattle.solver_cli.specs.declared.status.Status.{Status};
ghost use Rattle.solver_cli.specs.declared.status.Status.TheVariants.{OutOfMemory};
ghost use Rattle.solver_cli.specs.Stages.{Came, CameToAnswer, CameToArrange, CameToBench, CameToCheck, CameToConvert, CameToKeep};
ghost use Rattle.solver_cli.specs.Stages.{CameToMake, CameToTrim, FilesBeside, KeptButThree, ShowsVerdict};
ghost use Rattle.solver_cli.specs.Stages.{LeavesInputs, ShowsHelp, Stages, arrange_of, bench_of, check_of, job_of, make_of, streams_of};
ghost use Rattle.solver_cli.specs.Stages.{task_of};

use crate::answer::{Shape, status_of};
use crate::arrangement::{order_by, put_order};
use crate::complaint::complain;
use crate::conversion::rewrite;
use crate::excerpt::Excerpt;
use crate::explaining::explain;
use crate::formula::take_formula;
use crate::job::Job;
use crate::judgement::judge;
use crate::made::put_part;
use crate::order::{take_buckets, take_order};
use crate::output::{put_answer, put_text};
use crate::plan::{buckets_name, take_plan};
use crate::proof::prove;
use crate::service::{Served, serve};
use crate::status::{Status, buckets_status, ended_by};
use crate::trimming::{put_core, put_proof, trim_proof};
use crate::verdict::{put_trimmed, put_verdict, verdict_status};
use cnf_base::Cnf;
use command_line::{
    Asked, BenchTask, CheckTask, ConvertTask, MakeTask, OrderTask, Refusal, SolveTask, TrimTask,
    asks_to_explain, gather, read_words,
};
use drat_checker::check_drat_law;
use host_io::{Host, MemoryHost, Role as HostRole};
use lrat_checker::check_law;
use lrat_rules::soundness_law;
use proof_judging::Verdict;
use proof_trim::{Core, KeptSteps, Trimmed, trim_law};
use schedule_plan::{Order, Plan};
use std::alloc::Global;
use std::io::ErrorKind;
use std::process::ExitCode;
use workload::board;

fn work<H: Host>(alloc: Global, words: &[String], host: &mut H, excerpt: &mut Excerpt) -> Status
    requires unnamed { (role : Role) → (H.channel host.old role).name ≡ None }
    ensures stages { Stages H.tells (map string_bytes words.now) (streams_of (H.channel host.old)) (streams_of (H.channel host.new))
        (H.files host.old) result }
    ensures told { IsTold (progress_asked (command (map string_bytes words.now))) H.tells (H.channel host.old ErrRole)
        (H.channel host.new ErrRole) }
    ensures files { FilesBeside (H.channel host.new ProofOut).name (H.channel host.new Made).name (H.files host.old) (H.files host.new) }
{
    match read_words(alloc, words) {
        Ok(Asked::Solve(task)) => solve(alloc, &task, host, excerpt),
        Ok(Asked::Check(task)) => {
            serve(alloc, Served::Check(task), task.progress, host, excerpt)
        }
        Ok(Asked::Bench(task)) => bench(alloc, &task, host),
        Ok(Asked::Make(task)) => make(alloc, &task, host),
        Ok(Asked::Order(task)) => {
            serve(alloc, Served::Order(task), task.progress, host, excerpt)
        }
        Ok(Asked::Ask(task)) => serve(alloc, Served::Ask(task), task.progress, host, excerpt),
        Ok(Asked::Convert(task)) => {
            serve(alloc, Served::Convert(task), task.progress, host, excerpt)
        }
        Ok(Asked::Trim(task)) => serve(alloc, Served::Trim(task), task.progress, host, excerpt),
        Err(Refusal::Help(text)) => show_help(&text, host),
        Err(Refusal::Usage) => Status::Usage,
        Err(Refusal::OutOfMemory) => Status::OutOfMemory,
    }
}

// Shows the text of help, or of the version, on standard output.
fn show_help<H: Host>(text: &str, host: &mut H) -> Status
    ensures helped { ShowsHelp H.tells (H.channel host.old Out) (H.channel host.new Out) result }
    ensures kept { Kept Out (H.channel host.old Out).name (H.channel host.old) (H.channel host.new) (H.files host.old) (H.files host.new) }
{
    match put_text(host, text) {
        Ok(()) => Status::Help,
        Err(_) => Status::WriteFault,
    }
}

// Reads the formula, the order and the plan, and answers. All reading is over before the proof's file is created, so that
// none is where a text is refused or memory runs out by then.
fn solve<H: Host>(
    alloc: Global,
    asked: &SolveTask<'_>,
    host: &mut H,
    excerpt: &mut Excerpt,
) -> Status
    requires unnamed { (role : Role) → (H.channel host.old role).name ≡ None }
    requires limits { AreLimits asked.now.limits }
    ensures came { Came H.tells (streams_of (H.channel host.old)) (streams_of (H.channel host.new)) (H.files host.old)
        (task_of asked.now) result }
    ensures told { IsTold asked.now.progress H.tells (H.channel host.old ErrRole) (H.channel host.new ErrRole) }
    ensures files { FilesBut (H.channel host.new ProofOut).name (H.files host.old) (H.files host.new) }
{
    let formula = match take_formula(alloc, host, asked.files.formula, asked.mode, excerpt) {
        Ok(formula) => formula,
        Err(error) => return Status::from(error),
    };
    let order = match take_order(alloc, host, formula.vars(), asked.order, excerpt) {
        Ok(order) => order,
        Err(error) => return Status::from(error),
    };
    let buckets = match take_buckets(
        alloc,
        host,
        formula.vars(),
        buckets_name(&asked.plan),
        excerpt,
    ) {
        Ok(buckets) => buckets,
        Err(error) => return buckets_status(error),
    };
    let mut is_telling = asked.progress;
    let basis = match take_plan(
        alloc,
        host,
        &formula,
        order,
        buckets,
        &asked.plan,
        asked.limits,
        asked.parity,
        excerpt,
        &mut is_telling,
    ) {
        Ok(basis) => basis,
        Err(error) => return Status::from(error),
    };
    let job = Job {
        proof: asked.files.proof,
        limits: asked.limits,
        shape: None,
        parity: asked.parity,
        progress: is_telling,
    };
    answer(alloc, host, &formula, &basis.order, &basis.plan, &job)
}

// Makes the board and answers.
fn bench<H: Host>(alloc: Global, asked: &BenchTask<'_>, host: &mut H) -> Status
    requires unnamed { (role : Role) → (H.channel host.old role).name ≡ None }
    requires size { IsSize asked.now.size }
    requires limits { AreLimits asked.now.limits }
    ensures came { CameToBench H.tells (streams_of (H.channel host.old)) (streams_of (H.channel host.new)) (bench_of asked.now) result }
    ensures told { IsTold asked.now.progress H.tells (H.channel host.old ErrRole) (H.channel host.new ErrRole) }
    ensures files { FilesBut (H.channel host.new ProofOut).name (H.files host.old) (H.files host.new) }
{
    let board = match board(alloc, asked.size) {
        Ok(board) => board,
        Err(error) => return Status::from(error),
    };
    let job = Job {
        proof: asked.proof,
        limits: asked.limits,
        shape: Some(Shape {
            size: asked.size,
            vars: board.cnf.vars(),
            clauses: board.cnf.len(),
        }),
        parity: false,
        progress: asked.progress,
    };
    answer(alloc, host, &board.cnf, &board.order, &board.plan, &job)
}

// Creates the proof's file, decides the formula, writes the proof and prints the answer.
fn answer<H: Host>(
    alloc: Global,
    host: &mut H,
    formula: &Cnf,
    order: &Order,
    plan: &Plan,
    job: &Job<'_>,
) -> Status
    requires unnamed_proof { (H.channel host.old ProofOut).name ≡ None }
    requires unnamed_out { (H.channel host.old Out).name ≡ None }
    requires unnamed_error { (H.channel host.old ErrRole).name ≡ None }
    requires order { length order.now ≡ formula.now.vars }
    requires plan { IsAdmissible formula.now plan.now }
    requires limits { AreLimits job.now.limits }
    ensures came { CameToAnswer H.tells (H.channel host.old ProofOut) (H.channel host.new ProofOut) (H.channel host.old Out)
        (H.channel host.new Out) formula.now order.now plan.now (job_of job.now) result }
    ensures told { IsTold job.now.progress H.tells (H.channel host.old ErrRole) (H.channel host.new ErrRole) }
    ensures inputs { LeavesInputs (H.channel host.old) (H.channel host.new) }
    ensures files { FilesBut (H.channel host.new ProofOut).name (H.files host.old) (H.files host.new) }
{
    if host.create(HostRole::ProofOut, job.proof).is_err() {
        return Status::WriteFault;
    }
    let mut is_telling = job.progress;
    let ending = match prove(
        alloc,
        host,
        formula,
        order,
        plan,
        job.limits,
        job.parity,
        &mut is_telling,
    ) {
        Ok(ending) => ending,
        Err(error) => return Status::from(error),
    };
    let printed = put_answer(host, &ending, job.limits, job.shape);
    ended_by(status_of(&ending.outcome), printed)
}

// Makes the board, and writes the text of it that is asked for to the file that is named.
fn make<H: Host>(alloc: Global, asked: &MakeTask<'_>, host: &mut H) -> Status
    requires unnamed { (role : Role) → (H.channel host.old role).name ≡ None }
    requires size { IsSize asked.now.size }
    ensures came { CameToMake H.tells (streams_of (H.channel host.old)) (streams_of (H.channel host.new)) (make_of asked.now) result }
    ensures error { H.channel host.new ErrRole ≡ H.channel host.old ErrRole }
    ensures files { FilesBut (H.channel host.new Made).name (H.files host.old) (H.files host.new) }
{
    let board = match board(alloc, asked.size) {
        Ok(board) => board,
        Err(error) => return Status::from(error),
    };
    if host.create(HostRole::Made, asked.file).is_err() {
        return Status::WriteFault;
    }
    let written = put_part(host, &board, asked.size, asked.part);
    ended_by(Status::Done, written)
}

/// Reads the formula, makes an order of its variables, and writes its text to the file that is named.
pub(crate) fn arrange<H: Host>(
    alloc: Global,
    asked: &OrderTask<'_>,
    host: &mut H,
    excerpt: &mut Excerpt,
) -> Status
    requires unnamed { (role : Role) → (H.channel host.old role).name ≡ None }
    ensures came { CameToArrange H.tells (streams_of (H.channel host.old)) (streams_of (H.channel host.new)) (H.files host.old)
        (arrange_of asked.now) result }
    ensures error { H.channel host.new ErrRole ≡ H.channel host.old ErrRole }
    ensures files { FilesBut (H.channel host.new Made).name (H.files host.old) (H.files host.new) }
{
    let formula = match take_formula(alloc, host, asked.formula, asked.mode, excerpt) {
        Ok(formula) => formula,
        Err(error) => return Status::from(error),
    };
    let order = match order_by(alloc, &formula, asked.method) {
        Ok(order) => order,
        Err(error) => return Status::from(error),
    };
    if host.create(HostRole::Made, asked.out).is_err() {
        return Status::WriteFault;
    }
    let written = put_order(host, &order);
    ended_by(Status::Done, written)
}

/// Reads the formula, judges the proof over it by the rules of its format and prints the verdict.
pub(crate) fn check<H: Host>(
    alloc: Global,
    asked: &CheckTask<'_>,
    host: &mut H,
    excerpt: &mut Excerpt,
) -> Status
    requires unnamed { (role : Role) → (H.channel host.old role).name ≡ None }
    ensures came { CameToCheck H.tells (streams_of (H.channel host.old)) (streams_of (H.channel host.new)) (H.files host.old)
        (check_of asked.now) result }
    ensures error { H.channel host.new ErrRole ≡ H.channel host.old ErrRole }
    ensures files { FilesBut None (H.files host.old) (H.files host.new) }
{
    let problem = match take_formula(alloc, host, asked.files.formula, asked.mode, excerpt) {
        Ok(problem) => problem,
        Err(error) => return Status::from(error),
    };
    let verdict = match judge(alloc, host, &problem, asked.files.proof, asked.format) {
        Ok(verdict) => verdict,
        Err(error) => return Status::from(error),
    };
    let printed = put_verdict(host, verdict);
    ended_by(verdict_status(verdict), printed)
}

/// Reads the formula, judges the proof over it, writes it in the other format and prints the verdict.
pub(crate) fn convert<H: Host>(
    alloc: Global,
    asked: &ConvertTask<'_>,
    host: &mut H,
    excerpt: &mut Excerpt,
) -> Status
    requires unnamed { (role : Role) → (H.channel host.old role).name ≡ None }
    ensures came { CameToConvert H.tells (streams_of (H.channel host.old)) (streams_of (H.channel host.new)) (H.files host.old)
        (convert_of asked.now) result }
    ensures error { H.channel host.new ErrRole ≡ H.channel host.old ErrRole }
    ensures files { FilesBut (H.channel host.new ProofOut).name (H.files host.old) (H.files host.new) }
{
    let problem = match take_formula(alloc, host, asked.files.formula, asked.mode, excerpt) {
        Ok(problem) => problem,
        Err(error) => return Status::from(error),
    };
    let verdict = match rewrite(
        alloc,
        host,
        &problem,
        asked.files.proof,
        asked.out,
        asked.into,
    ) {
        Ok(verdict) => verdict,
        Err(error) => return Status::from(error),
    };
    let printed = put_verdict(host, verdict);
    ended_by(verdict_status(verdict), printed)
}

/// Reads the formula, judges the proof over it, and writes what the refutation needs of a verified one, and its core, where a file is named
/// for it. All growth is over before a file is created, so that a run out of memory leaves none.
pub(crate) fn trim<H: Host>(
    alloc: Global,
    asked: &TrimTask<'_>,
    host: &mut H,
    excerpt: &mut Excerpt,
) -> Status
    requires unnamed { (role : Role) → (H.channel host.old role).name ≡ None }
    ensures came { CameToTrim H.tells (streams_of (H.channel host.old)) (streams_of (H.channel host.new)) (H.files host.old)
        (trim_of asked.now) result }
    ensures error { H.channel host.new ErrRole ≡ H.channel host.old ErrRole }
    ensures files { FilesBeside (H.channel host.new ProofOut).name (H.channel host.new Made).name (H.files host.old) (H.files host.new) }
{
    let problem = match take_formula(alloc, host, asked.files.formula, asked.mode, excerpt) {
        Ok(problem) => problem,
        Err(error) => return Status::from(error),
    };
    let trimmed = match trim_proof(alloc, host, &problem, asked.files.proof) {
        Ok(trimmed) => trimmed,
        Err(error) => return Status::from(error),
    };
    match trimmed {
        Trimmed::Steps {
            mut steps,
            mut core,
            kept,
            total,
        } => keep(host, asked, &mut steps, &mut core, kept, total),
        Trimmed::Refused { line, reason } => show(host, Verdict::Refused { line, reason }),
    }
}

// Writes the steps, and their core, where a file is named for it, and prints that the proof was verified, with the counts.
fn keep<H: Host>(
    host: &mut H,
    asked: &TrimTask<'_>,
    steps: &mut KeptSteps,
    core: &mut Core,
    kept: u64,
    total: u64,
) -> Status
    requires unwritten { (H.channel host.old ProofOut).name ≡ None }
    requires unmade { (H.channel host.old Made).name ≡ None }
    requires unnamed { (H.channel host.old Out).name ≡ None }
    ensures came { CameToKeep H.tells (H.channel host.old ProofOut) (H.channel host.new ProofOut) (H.channel host.old Made)
        (H.channel host.new Made) (H.channel host.old Out) (H.channel host.new Out) asked.now.out.now steps.old (text_of asked.now.core)
        core.old kept total result }
    ensures beside { KeptButThree (H.channel host.new ProofOut).name (H.channel host.new Made).name (H.channel host.old)
        (H.channel host.new) (H.files host.old) (H.files host.new) }
{
    if put_proof(host, asked.out, steps).is_err() {
        return Status::WriteFault;
    }
    if put_core(host, asked.core, core).is_err() {
        return Status::WriteFault;
    }
    let printed = put_trimmed(host, kept, total);
    ended_by(Status::Verified, printed)
}

// Prints the verdict.
fn show<H: Host>(host: &mut H, verdict: Verdict) -> Status
    ensures shows { ShowsVerdict H.tells (H.channel host.old Out) (H.channel host.new Out) (verdict_text verdict) verdict result }
    ensures kept { Kept Out (H.channel host.old Out).name (H.channel host.old) (H.channel host.new) (H.files host.old) (H.files host.new) }
{
    match put_verdict(host, verdict) {
        Ok(()) => verdict_status(verdict),
        Err(_) => Status::WriteFault,
    }
}

/// Does all that the program does: reads the command line (its first word is the program's name), decides the formula and writes the proof,
/// answers cubes over it, judges a proof, or writes it in the other format, or trimmed, or makes a text, prints the answer or what went
/// wrong, and says how the run ends.
pub fn run<H: Host>(alloc: Global, words: &[String], host: &mut H) -> Status
    requires unnamed { (role : Role) → (H.channel host.old role).name ≡ None }
    // of any contents of the files that fit
    ensures promises { (texts : Texts) (fits : AllFit (H.files host.old) (H.channel host.old) (H.channel host.new) texts)
        → Promises (record {
          tells = H.tells;
          words = map string_bytes words.now;
          before = H.channel host.old;
          after = H.channel host.new;
          files = H.files host.old;
          files_after = H.files host.new;
          texts = texts;
          fits = fits;
          status = result;
        }) }
{
    soundness_law();
    check_law();
    check_drat_law();
    trim_law();
    let mut excerpt = Excerpt::new(asks_to_explain(words));
    let status = work(alloc, words, host, &mut excerpt);
    explain(alloc, words, host, status, &excerpt);
    complain(host, status);
    status
}

/// As `run`, over a host in memory, which tells all bytes.
pub fn run_in_memory(alloc: Global, words: &[String], host: &mut MemoryHost) -> Status
    requires unnamed { (role : Role) → (channel_of host.old role).name ≡ None }
    ensures promises { Promises (record {
      tells = true;
      words = map string_bytes words.now;
      before = channel_of host.old;
      after = channel_of host.new;
      files = told_files host.old;
      files_after = told_files host.new;
      texts = files_of host.old;
      fits = all_told (files_of host.old) (channel_of host.old) (channel_of host.new);
      status = result;
    }) }
{
    run(alloc, words, host)
}

/// All that `main` does: the program's run over the command line that comes, or, where none can be had, only the line on standard error
/// that says so. Answers the exit code.
pub fn run_with<H: Host, I: Iterator<Item = String> + Drop>(
    alloc: Global,
    words: Result<I, ErrorKind>,
    host: &mut H,
) -> ExitCode
    requires unnamed { (role : Role) → (H.channel host.old role).name ≡ None }
    requires words { IfOk words (λ source. I.can_next source × IsFinite (I.remaining source)) }
    // the words of the run are all that came, in turn; it is left out only where memory for them ran out
    ensures came { IfOk words (λ source. (status : Status) × (exit_status result ≡ exit_code status) × (((given : List (List ℕ))
        × WholeRun I.next_gives source (λ all. given ≡ map string_bytes all.items)
        × ((texts : Texts) (fits : AllFit (H.files host.old) (H.channel host.old) (H.channel host.new) texts)
        → Promises (record {
          tells = H.tells;
          words = given;
          before = H.channel host.old;
          after = H.channel host.new;
          files = H.files host.old;
          files_after = H.files host.new;
          texts = texts;
          fits = fits;
          status = status;
        })))
        ⊎ ((status ≡ OutOfMemory) × OnlyTold H.tells (H.channel host.old) (H.channel host.new) (H.files host.old)
        (H.files host.new) status))) }
    ensures unread { IfErr words (λ kind. (exit_status result ≡ exit_code (status_of_kind kind))
        × OnlyTold H.tells (H.channel host.old) (H.channel host.new) (H.files host.old) (H.files host.new) (status_of_kind kind)) }
{
    let words = match words {
        Ok(words) => words,
        Err(kind) => return ExitCode::from(tell(host, Status::from(kind))),
    };
    match gather(alloc, words) {
        Ok(words) => ExitCode::from(run(alloc, &words, host).code()),
        Err(error) => ExitCode::from(tell(host, Status::from(error))),
    }
}

// Tells on standard error how a run ends that has no command line; answers the exit code.
fn tell<H: Host>(host: &mut H, status: Status) -> u8
    requires unnamed { (role : Role) → (H.channel host.old role).name ≡ None }
    ensures told { OnlyTold H.tells (H.channel host.old) (H.channel host.new) (H.files host.old) (H.files host.new) status }
    ensures code { result ≡ exit_code status }
{
    complain(host, status);
    status.code()
}
