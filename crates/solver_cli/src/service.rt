// The commands that leave standard error alone. Their runs are watched from outside: by the host that they are given.
ghost use Rattle.std.specs.Prelude.{◌≡◌, None};
ghost use Rattle.host_io.specs.declared.role.Role.{Role};
ghost use Rattle.host_io.specs.declared.role.Role.TheVariants.{ProofOut, Made, Err as ErrRole};
ghost use Rattle.solver_cli.specs.Progress.{IsTold};
ghost use Rattle.solver_cli.specs.Served.{CameBy, HasLimits};
ghost use Rattle.solver_cli.specs.Stages.{FilesBeside, streams_of};

use crate::asking::ask;
use crate::counts::{Counts, Measure};
use crate::excerpt::Excerpt;
use crate::program::{arrange, check, convert, trim};
use crate::status::Status;
use crate::watched_host::WatchedHost;
use command_line::{AskTask, CheckTask, ConvertTask, OrderTask, TrimTask};
use cube_queries::Gauge;
use host_io::Host;
use std::alloc::Global;

/// Such a command.
#[derive(Clone, Copy)]
pub enum Served<'a> {
    Check(CheckTask<'a>),
    Order(OrderTask<'a>),
    Ask(AskTask<'a>),
    Convert(ConvertTask<'a>),
    Trim(TrimTask<'a>),
}

/// Serves the command. Its run is watched where progress is told, or where what goes wrong is explained.
pub fn serve<H: Host>(
    alloc: Global,
    served: Served<'_>,
    progress: bool,
    host: &mut H,
    excerpt: &mut Excerpt,
) -> Status
    requires unnamed { (role : Role) → (H.channel host.old role).name ≡ None }
    requires limits { HasLimits served }
    ensures came { CameBy H.tells served.entry (streams_of (H.channel host.old)) (streams_of (H.channel host.new)) (H.files host.old) result }
    ensures told { IsTold progress H.tells (H.channel host.old ErrRole) (H.channel host.new ErrRole) }
    ensures files { FilesBeside (H.channel host.new ProofOut).name (H.channel host.new Made).name (H.files host.old) (H.files host.new) }
{
    let gauge = Gauge::new();
    if !(progress || excerpt.is_wanted()) {
        return serve_over(alloc, &served, host, excerpt, &gauge);
    }
    let counts = Counts::new(measure_of(&served), excerpt.is_wanted());
    let mut watched = WatchedHost::new(host, counts, &gauge, progress);
    let status = serve_over(alloc, &served, &mut watched, excerpt, &gauge);
    watched.report_end();
    let _host = watched.close(excerpt);
    status
}

fn measure_of(served: &Served<'_>) -> Measure {
    match served {
        Served::Order(_) => Measure::Formula,
        Served::Ask(_) => Measure::Cubes,
        Served::Check(_) | Served::Convert(_) | Served::Trim(_) => Measure::Proof,
    }
}

// Serves the command over any host; the gauge shows how many cubes are answered.
fn serve_over<H: Host>(
    alloc: Global,
    served: &Served<'_>,
    host: &mut H,
    excerpt: &mut Excerpt,
    gauge: &Gauge,
) -> Status
    requires unnamed { (role : Role) → (H.channel host.old role).name ≡ None }
    requires limits { HasLimits served.now }
    ensures came { CameBy H.tells served.now (streams_of (H.channel host.old)) (streams_of (H.channel host.new)) (H.files host.old) result }
    ensures error { H.channel host.new ErrRole ≡ H.channel host.old ErrRole }
    ensures files { FilesBeside (H.channel host.new ProofOut).name (H.channel host.new Made).name (H.files host.old) (H.files host.new) }
{
    match served {
        Served::Check(task) => check(alloc, task, host, excerpt),
        Served::Order(task) => arrange(alloc, task, host, excerpt),
        Served::Ask(task) => ask(alloc, task, host, excerpt, gauge),
        Served::Convert(task) => convert(alloc, task, host, excerpt),
        Served::Trim(task) => trim(alloc, task, host, excerpt),
    }
}
