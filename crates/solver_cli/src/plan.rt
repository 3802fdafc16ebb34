// Taking the plan: the one of a name over the order, the schedule in the file that is named, the bucket plan by another order,
// or what trials find.
ghost use Rattle.std.specs.Prelude.{◌≡◌, ◌≢◌, None, length, IfErr, IfOk, IfSome};
ghost use Rattle.host_io.specs.declared.role.Role.TheVariants.{Schedule as ScheduleRole, Err as ErrRole};
ghost use Rattle.host_io.specs.Files.{Kept};
ghost use Rattle.drat_proof.specs.TwoRoles.{KeptButTwo};
ghost use Rattle.schedule_plan.specs.Bucket.{bucket};
ghost use Rattle.schedule_plan.specs.Limits.{AreLimits};
ghost use Rattle.schedule_plan.specs.Plan.{IsAdmissible};
ghost use Rattle.schedule_plan.specs.declared.schedule.error.PlanError.TheVariants.{OutOfMemory};
ghost use Rattle.command_line.specs.Reading.{planned_of, text_of};
ghost use Rattle.solver_cli.specs.Answer.{AreFound, moves_of_plan};
ghost use Rattle.solver_cli.specs.Phases.{Finds, HasPlan, ReadsSchedule, Schedules, TakesSchedule, basis_of, buckets_file};
ghost use Rattle.solver_cli.specs.Progress.{Comments, Notes};

use crate::basis::Basis;
use crate::excerpt::{Excerpt, NotedSource};
use crate::reporting_search::ReportingSearch;
use cnf_base::Cnf;
use command_line::{PlanName, PlanSource};
use host_io::{Host, Role, beside_kept};
use plan_search::{FoundPlan, NoObserver, Observer, find_plan};
use schedule_plan::{Limits, Order, Plan, PlanError};
use std::alloc::Global;

/// The name of the file of the order by which the buckets are formed, if one is named.
pub fn buckets_name<'a>(asked: &PlanSource<'a>) -> Option<&'a str>
    ensures { text_of result ≡ buckets_file (planned_of asked.now) }
{
    match asked {
        PlanSource::Buckets(file) => Some(*file),
        PlanSource::Name(_) | PlanSource::Schedule(_) | PlanSource::Search => None,
    }
}

/// The plan that is asked for, over the formula, with the order of the diagrams: the given one, or where both are to be found,
/// the one that is found. The buckets' order is there where its file is named. A search is told, if progress is; its trials add up
/// the parity equations first, where the run does.
pub fn take_plan<H: Host>(
    alloc: Global,
    host: &mut H,
    formula: &Cnf,
    given: Order,
    buckets: Option<Order>,
    asked: &PlanSource<'_>,
    limits: Limits,
    parity: bool,
    excerpt: &mut Excerpt,
    is_telling: &mut bool,
) -> Result<Basis, PlanError>
    requires unnamed { (H.channel host.old ScheduleRole).name ≡ None }
    requires unnamed_error { (H.channel host.old ErrRole).name ≡ None }
    requires one_each { length given ≡ formula.now.vars }
    requires bucketed { IfSome buckets (λ order. length order ≡ formula.now.vars) }
    requires limits { AreLimits limits }
    ensures takes { HasPlan formula.now given buckets (planned_of asked.now) H.tells (H.channel host.old ScheduleRole)
        (H.channel host.new ScheduleRole) (H.files host.old) result }
    ensures one_each { IfOk result (λ basis. length basis.order ≡ formula.now.vars) }
    ensures admissible { IfOk result (λ basis. IsAdmissible formula.now basis.plan) }
    ensures notes { Notes is_telling.old is_telling.new H.tells (H.channel host.old ErrRole) (H.channel host.new ErrRole) }
    ensures kept { KeptButTwo ScheduleRole ErrRole None (H.channel host.old) (H.channel host.new) (H.files host.old) (H.files host.new) }
{
    match asked {
        PlanSource::Search if *is_telling => {
            search_telling(alloc, host, formula, given, limits, parity, is_telling)
        }
        _ => take_silently(
            alloc, host, formula, given, buckets, asked, limits, parity, excerpt,
        ),
    }
}

// The order and the plan that trials find, each of which is told.
fn search_telling<H: Host>(
    alloc: Global,
    host: &mut H,
    formula: &Cnf,
    given: Order,
    limits: Limits,
    parity: bool,
    is_telling: &mut bool,
) -> Result<Basis, PlanError>
    requires unnamed_error { (H.channel host.old ErrRole).name ≡ None }
    requires one_each { length given ≡ formula.now.vars }
    requires limits { AreLimits limits }
    ensures finds { Finds formula.now (H.channel host.old ScheduleRole) (H.channel host.new ScheduleRole) result }
    ensures one_each { IfOk result (λ basis. length basis.order ≡ formula.now.vars) }
    ensures admissible { IfOk result (λ basis. IsAdmissible formula.now basis.plan) }
    ensures told { Comments is_telling.new H.tells (H.channel host.old ErrRole) (H.channel host.new ErrRole) }
    ensures kept { KeptButTwo ScheduleRole ErrRole None (H.channel host.old) (H.channel host.new) (H.files host.old) (H.files host.new) }
{
    let mut search = ReportingSearch::new(host);
    let result = plan_found(alloc, formula, given, limits, parity, &mut search);
    *is_telling = search.is_telling;
    let _host = search.close();
    result
}

// The same without progress.
fn take_silently<H: Host>(
    alloc: Global,
    host: &mut H,
    formula: &Cnf,
    given: Order,
    buckets: Option<Order>,
    asked: &PlanSource<'_>,
    limits: Limits,
    parity: bool,
    excerpt: &mut Excerpt,
) -> Result<Basis, PlanError>
    requires unnamed { (H.channel host.old ScheduleRole).name ≡ None }
    requires one_each { length given ≡ formula.now.vars }
    requires bucketed { IfSome buckets (λ order. length order ≡ formula.now.vars) }
    requires limits { AreLimits limits }
    ensures takes { HasPlan formula.now given buckets (planned_of asked.now) H.tells (H.channel host.old ScheduleRole)
        (H.channel host.new ScheduleRole) (H.files host.old) result }
    ensures one_each { IfOk result (λ basis. length basis.order ≡ formula.now.vars) }
    ensures admissible { IfOk result (λ basis. IsAdmissible formula.now basis.plan) }
    ensures kept { Kept ScheduleRole None (H.channel host.old) (H.channel host.new) (H.files host.old) (H.files host.new) }
{
    match asked {
        PlanSource::Name(name) => plan_named(alloc, *name, formula, given),
        PlanSource::Schedule(file) => take_schedule(alloc, host, formula, given, file, excerpt),
        PlanSource::Buckets(_) => match buckets {
            Some(order) => plan_by(alloc, formula, given, &order),
            None => plan_named(alloc, PlanName::Bucket, formula, given),
        },
        PlanSource::Search => plan_found(alloc, formula, given, limits, parity, &mut NoObserver),
    }
}

fn plan_named(
    alloc: Global,
    name: PlanName,
    formula: &Cnf,
    given: Order,
) -> Result<Basis, PlanError>
    requires { length given ≡ formula.now.vars }
    ensures made { IfOk result (λ basis. basis ≡ basis_of given (moves_of_plan name formula.now given)) }
    ensures admissible { IfOk result (λ basis. IsAdmissible formula.now basis.plan) }
    ensures refused { IfErr result (λ error. error ≡ OutOfMemory) }
{
    let made = match name {
        PlanName::Bucket => Plan::bucket(alloc, formula, &given),
        PlanName::Conjoin => Plan::conjoin(alloc, formula),
    };
    let plan = made?;
    Ok(Basis { order: given, plan })
}

// The bucket plan by this order, beside the given order of the diagrams.
fn plan_by(alloc: Global, formula: &Cnf, given: Order, buckets: &Order) -> Result<Basis, PlanError>
    requires { length buckets.now ≡ formula.now.vars }
    ensures made { IfOk result (λ basis. basis ≡ basis_of given (bucket formula.now buckets.now)) }
    ensures admissible { IfOk result (λ basis. IsAdmissible formula.now basis.plan) }
    ensures refused { IfErr result (λ error. error ≡ OutOfMemory) }
{
    let plan = Plan::bucket(alloc, formula, buckets)?;
    Ok(Basis { order: given, plan })
}

// The order and the plan that trials find. The given order is one of those that are tried.
fn plan_found<O: Observer>(
    alloc: Global,
    formula: &Cnf,
    given: Order,
    limits: Limits,
    parity: bool,
    observer: &mut O,
) -> Result<Basis, PlanError>
    requires one_each { length given ≡ formula.now.vars }
    requires limits { AreLimits limits }
    ensures found { IfOk result (λ basis. AreFound formula.now basis.order basis.plan) }
    ensures admissible { IfOk result (λ basis. IsAdmissible formula.now basis.plan) }
    ensures refused { IfErr result (λ error. error ≡ OutOfMemory) }
    ensures beside { O.beside observer.new ≡ O.beside observer.old }
{
    let FoundPlan { order, plan, .. } = find_plan(alloc, formula, given, limits, parity, observer)?;
    let _variables = order.as_slice();
    Ok(Basis { order, plan })
}

// Opens the file of this name and reads the schedule.
fn take_schedule<H: Host>(
    alloc: Global,
    host: &mut H,
    formula: &Cnf,
    given: Order,
    name: &str,
    excerpt: &mut Excerpt,
) -> Result<Basis, PlanError>
    requires { (H.channel host.old ScheduleRole).name ≡ None }
    ensures takes { Schedules formula.now given H.tells (H.channel host.old ScheduleRole) (H.channel host.new ScheduleRole)
        (H.files host.old) name.now result }
    ensures kept { Kept ScheduleRole None (H.channel host.old) (H.channel host.new) (H.files host.old) (H.files host.new) }
{
    match take_moves(alloc, host, formula, name, excerpt) {
        Ok(plan) => Ok(Basis { order: given, plan }),
        Err(error) => Err(error),
    }
}

fn take_moves<H: Host>(
    alloc: Global,
    host: &mut H,
    formula: &Cnf,
    name: &str,
    excerpt: &mut Excerpt,
) -> Result<Plan, PlanError>
    requires { (H.channel host.old ScheduleRole).name ≡ None }
    ensures takes { TakesSchedule formula.now H.tells (H.channel host.old ScheduleRole) (H.channel host.new ScheduleRole)
        (H.files host.old) name.now result }
    ensures kept { Kept ScheduleRole None (H.channel host.old) (H.channel host.new) (H.files host.old) (H.files host.new) }
{
    if host.open_read(Role::Schedule, name).is_err() {
        return Err(PlanError::ReadFault);
    }
    read_schedule(alloc, host, formula, excerpt)
}

fn read_schedule<H: Host>(
    alloc: Global,
    host: &mut H,
    formula: &Cnf,
    excerpt: &mut Excerpt,
) -> Result<Plan, PlanError>
    requires { (H.channel host.old ScheduleRole).name ≢ None }
    ensures reads { ReadsSchedule formula.now H.tells (H.channel host.old ScheduleRole) (H.channel host.new ScheduleRole) result }
    ensures kept { Kept ScheduleRole None (H.channel host.old) (H.channel host.new) (H.files host.old) (H.files host.new) }
{
    beside_kept::<H>();
    let mut source = NotedSource::new(host, Role::Schedule, excerpt);
    Plan::read(alloc, formula, &mut source)
}
