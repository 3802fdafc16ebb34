// One run that answers cubes over a formula.
ghost use Rattle.std.specs.Prelude.{◌≡◌, ◌≢◌, [], None, length};
ghost use Rattle.cube_queries.specs.Ends.{Ends};
ghost use Rattle.cube_text.specs.CubeText.{AreCubes};
ghost use Rattle.drat_proof.specs.TwoRoles.{KeptButTwo};
ghost use Rattle.host_io.specs.declared.role.Role.{Role};
ghost use Rattle.host_io.specs.declared.role.Role.TheVariants.{ProofOut, Out, Err as ErrRole};
ghost use Rattle.host_io.specs.Files.{FilesBut, Kept};
ghost use Rattle.schedule_plan.specs.Limits.{AreLimits};
ghost use Rattle.solver_cli.specs.Stages.{CameToAsk, CameToReply, ask_of, job_of, streams_of};

use crate::cubes::take_cubes;
use crate::excerpt::Excerpt;
use crate::formula::take_formula;
use crate::job::Job;
use crate::order::take_order;
use crate::replies::{put_replies, status_of_replies};
use crate::status::{Status, ended_by};
use bdd_terms::RunError;
use cnf_base::Cnf;
use command_line::AskTask;
use cube_queries::{Gauge, Outcome, ask_into};
use cube_text::Cubes;
use host_io::{Host, HostSink, Role as HostRole, beside_kept};
use schedule_plan::{Limits, Order};
use std::alloc::Global;

/// Reads the formula, the order and the cubes, and answers. All reading is over before the proof's file is created, so that none is where
/// a text is refused or memory runs out by then. The gauge shows how far it is.
pub fn ask<H: Host>(
    alloc: Global,
    asked: &AskTask<'_>,
    host: &mut H,
    excerpt: &mut Excerpt,
    gauge: &Gauge,
) -> Status
    requires unnamed { (role : Role) → (H.channel host.old role).name ≡ None }
    requires limits { AreLimits asked.now.limits }
    ensures came { CameToAsk H.tells (streams_of (H.channel host.old)) (streams_of (H.channel host.new)) (H.files host.old)
        (ask_of asked.now) result }
    ensures error { H.channel host.new ErrRole ≡ H.channel host.old ErrRole }
    ensures files { FilesBut (H.channel host.new ProofOut).name (H.files host.old) (H.files host.new) }
{
    let formula = match take_formula(alloc, host, asked.files.formula, asked.mode, excerpt) {
        Ok(formula) => formula,
        Err(error) => return Status::from(error),
    };
    let order = match take_order(alloc, host, formula.vars(), asked.order, excerpt) {
        Ok(order) => order,
        Err(error) => return Status::from(error),
    };
    let cubes = match take_cubes(alloc, host, formula.vars(), asked.cubes, excerpt) {
        Ok(cubes) => cubes,
        Err(error) => return Status::from(error),
    };
    let job = Job {
        proof: asked.files.proof,
        limits: asked.limits,
        shape: None,
        parity: false,
        progress: false,
    };
    answer_cubes(alloc, host, &formula, &order, &cubes, &job, gauge)
}

// Creates the proof's file, answers the cubes, writes the proof and prints the answers.
fn answer_cubes<H: Host>(
    alloc: Global,
    host: &mut H,
    formula: &Cnf,
    order: &Order,
    cubes: &Cubes,
    job: &Job<'_>,
    gauge: &Gauge,
) -> Status
    requires unnamed_proof { (H.channel host.old ProofOut).name ≡ None }
    requires unnamed_out { (H.channel host.old Out).name ≡ None }
    requires order { length order.now ≡ formula.now.vars }
    requires cubes { AreCubes formula.now.vars cubes.now }
    requires limits { AreLimits job.now.limits }
    ensures came { CameToReply H.tells (H.channel host.old ProofOut) (H.channel host.new ProofOut) (H.channel host.old Out)
        (H.channel host.new Out) formula.now order.now cubes.now (job_of job.now) result }
    ensures beside { KeptButTwo ProofOut Out (H.channel host.new ProofOut).name (H.channel host.old) (H.channel host.new)
        (H.files host.old) (H.files host.new) }
{
    if host.create(HostRole::ProofOut, job.proof).is_err() {
        return Status::WriteFault;
    }
    let found = match reply(alloc, host, formula, order, cubes, job.limits, gauge) {
        Ok(found) => found,
        Err(error) => return Status::from(error),
    };
    let printed = put_replies(host, &found, job.limits);
    ended_by(status_of_replies(&found), printed)
}

// Answers the cubes and writes the proof in the role that was created for it.
fn reply<H: Host>(
    alloc: Global,
    host: &mut H,
    formula: &Cnf,
    order: &Order,
    cubes: &Cubes,
    limits: Limits,
    gauge: &Gauge,
) -> Result<Outcome, RunError>
    requires created { (H.channel host.old ProofOut).name ≢ None }
    requires fresh { (H.channel host.old ProofOut).written ≡ [] }
    requires order { length order.now ≡ formula.now.vars }
    requires cubes { AreCubes formula.now.vars cubes.now }
    requires limits { AreLimits limits }
    ensures writes { Ends H.tells (H.channel host.old ProofOut) (H.channel host.new ProofOut) formula.now order.now cubes.now limits result }
    ensures kept { Kept ProofOut (H.channel host.old ProofOut).name (H.channel host.old) (H.channel host.new) (H.files host.old)
        (H.files host.new) }
{
    beside_kept::<H>();
    let mut sink = HostSink::new(host, HostRole::ProofOut);
    ask_into(alloc, formula, order, cubes, limits, &mut sink, gauge)
}
