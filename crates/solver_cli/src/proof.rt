// Deciding a formula and writing the proof.
ghost use Rattle.std.specs.Prelude.{◌≡◌, ◌≢◌, [], None, length};
ghost use Rattle.host_io.specs.declared.role.Role.TheVariants.{ProofOut, Err as ErrRole};
ghost use Rattle.host_io.specs.Files.{Kept};
ghost use Rattle.drat_proof.specs.TwoRoles.{KeptButTwo};
ghost use Rattle.schedule_plan.specs.Limits.{AreLimits};
ghost use Rattle.schedule_plan.specs.Plan.{IsAdmissible};
ghost use Rattle.solver_cli.specs.Phases.{WritesProof};
ghost use Rattle.solver_cli.specs.Progress.{Comments, Notes, beside_reported, serves_written};

use crate::notes::end_note;
use crate::reporting_sink::ReportingSink;
use bdd_terms::RunError;
use cnf_base::Cnf;
use host_io::{Host, HostSink, Role, Sink, beside_kept};
use lrat_rules::derivation_law;
use parity_runs::run_with_parity;
use schedule_plan::{Order, Plan};
use std::alloc::Global;
use term_runner::{Gauge, Limits, Run, Watch, run_plan_into};

/// Decides the formula and writes the proof of the answer in the role that was created for it. Tells of the progress, if it is told.
pub fn prove<H: Host>(
    alloc: Global,
    host: &mut H,
    formula: &Cnf,
    order: &Order,
    plan: &Plan,
    limits: Limits,
    parity: bool,
    is_telling: &mut bool,
) -> Result<Run, RunError>
    requires created { (H.channel host.old ProofOut).name ≢ None }
    requires unnamed { (H.channel host.old ErrRole).name ≡ None }
    requires fresh { (H.channel host.old ProofOut).written ≡ [] }
    requires order { length order.now ≡ formula.now.vars }
    requires plan { IsAdmissible formula.now plan.now }
    requires limits { AreLimits limits }
    ensures writes { WritesProof parity H.tells (H.channel host.old ProofOut)
        (H.channel host.new ProofOut) formula.now order.now plan.now limits result }
    ensures notes { Notes is_telling.old is_telling.new H.tells (H.channel host.old ErrRole) (H.channel host.new ErrRole) }
    ensures kept { KeptButTwo ProofOut ErrRole (H.channel host.old ProofOut).name (H.channel host.old) (H.channel host.new)
        (H.files host.old) (H.files host.new) }
{
    if *is_telling {
        prove_telling(
            alloc, host, formula, order, plan, limits, parity, is_telling,
        )
    } else {
        prove_silently(alloc, host, formula, order, plan, limits, parity)
    }
}

fn prove_telling<H: Host>(
    alloc: Global,
    host: &mut H,
    formula: &Cnf,
    order: &Order,
    plan: &Plan,
    limits: Limits,
    parity: bool,
    is_telling: &mut bool,
) -> Result<Run, RunError>
    requires created { (H.channel host.old ProofOut).name ≢ None }
    requires unnamed { (H.channel host.old ErrRole).name ≡ None }
    requires fresh { (H.channel host.old ProofOut).written ≡ [] }
    requires order { length order.now ≡ formula.now.vars }
    requires plan { IsAdmissible formula.now plan.now }
    requires limits { AreLimits limits }
    ensures writes { WritesProof parity H.tells (H.channel host.old ProofOut)
        (H.channel host.new ProofOut) formula.now order.now plan.now limits result }
    ensures told { Comments is_telling.new H.tells (H.channel host.old ErrRole) (H.channel host.new ErrRole) }
    ensures kept { KeptButTwo ProofOut ErrRole (H.channel host.old ProofOut).name (H.channel host.old) (H.channel host.new)
        (H.files host.old) (H.files host.new) }
{
    let gauge = Gauge::new(plan.len());
    let mut watch = Watch::on(&gauge);
    let mut sink = ReportingSink::new(host, &gauge, formula.len() as u64);
    let result = decide(
        alloc, formula, order, plan, limits, parity, &mut sink, &mut watch,
    );
    report_end(&mut sink, &gauge, &result);
    *is_telling = sink.is_telling;
    let _host = sink.close();
    result
}

// Tells what the run used, where it came to an answer.
fn report_end<H: Host>(
    sink: &mut ReportingSink<'_, H>,
    gauge: &Gauge,
    found: &Result<Run, RunError>,
)
    ensures channel { H.channel sink.new.host.now ProofOut ≡ H.channel sink.old.host.now ProofOut }
    ensures beside { beside_reported sink.new.host.ghost_name serves_written (H.channel sink.new.host.now ProofOut).name
        (H.channel sink.new.origin.value ErrRole) (H.channel sink.new.host.now) (H.files sink.new.host.now)
        ≡ beside_reported sink.old.host.ghost_name serves_written (H.channel sink.old.host.now ProofOut).name
        (H.channel sink.old.origin.value ErrRole) (H.channel sink.old.host.now) (H.files sink.old.host.now) }
{
    if let Ok(run) = found {
        let reading = gauge.read();
        sink.report(end_note(&reading, run.last_id));
    }
}

fn prove_silently<H: Host>(
    alloc: Global,
    host: &mut H,
    formula: &Cnf,
    order: &Order,
    plan: &Plan,
    limits: Limits,
    parity: bool,
) -> Result<Run, RunError>
    requires created { (H.channel host.old ProofOut).name ≢ None }
    requires fresh { (H.channel host.old ProofOut).written ≡ [] }
    requires order { length order.now ≡ formula.now.vars }
    requires plan { IsAdmissible formula.now plan.now }
    requires limits { AreLimits limits }
    ensures writes { WritesProof parity H.tells (H.channel host.old ProofOut)
        (H.channel host.new ProofOut) formula.now order.now plan.now limits result }
    ensures kept { Kept ProofOut (H.channel host.old ProofOut).name (H.channel host.old) (H.channel host.new) (H.files host.old)
        (H.files host.new) }
{
    beside_kept::<H>();
    let mut watch = Watch::new();
    let mut sink = HostSink::new(host, Role::ProofOut);
    decide(
        alloc, formula, order, plan, limits, parity, &mut sink, &mut watch,
    )
}

fn decide<S: Sink + Drop>(
    alloc: Global,
    formula: &Cnf,
    order: &Order,
    plan: &Plan,
    limits: Limits,
    parity: bool,
    sink: &mut S,
    watch: &mut Watch<'_>,
) -> Result<Run, RunError>
    requires fresh { (S.channel sink.old).written ≡ [] }
    requires order { length order.now ≡ formula.now.vars }
    requires plan { IsAdmissible formula.now plan.now }
    requires limits { AreLimits limits }
    requires begun { watch.old.moves ≡ 0 }
    ensures writes { WritesProof parity S.tells (S.channel sink.old) (S.channel sink.new) formula.now order.now plan.now limits result }
    ensures beside { S.beside sink.new ≡ S.beside sink.old }
{
    derivation_law();
    if parity {
        run_with_parity(alloc, formula, order, plan, limits, sink, watch)
    } else {
        run_plan_into(alloc, formula, order, plan, limits, sink, watch)
    }
}
