// The line on standard error.
ghost use Rattle.std.specs.Prelude.{◌≡◌, ◌++◌, codes, decimal};
ghost use Rattle.host_io.specs.declared.role.Role.TheVariants.{Err as ErrRole};
ghost use Rattle.host_io.specs.Channel.{WritesAll};
ghost use Rattle.host_io.specs.Files.{Kept};
ghost use Rattle.solver_cli.specs.ErrorText.{cube_kind_name, error_text, kind_name, order_kind_name, plan_kind_name, role_word};
ghost use Rattle.solver_cli.specs.ErrorLine.{line_text};
ghost use Rattle.solver_cli.specs.Phases.{Complains};

use crate::status::Status;
use cube_text::CubeKind;
use dimacs_reader::CnfKind;
use host_io::{Failed, Host, HostSink, Role, Sink, beside_kept, write_all};
use itoa::Buffer;
use schedule_plan::{OrderKind, PlanKind};

/// Writes the status's line on standard error, and nothing for an answer, a text that was made or help, and flushes. That the
/// line could not be written ends no run otherwise.
pub fn complain<H: Host>(host: &mut H, status: Status)
    ensures complains { Complains H.tells (H.channel host.old ErrRole) (H.channel host.new ErrRole) status }
    ensures kept { Kept ErrRole (H.channel host.old ErrRole).name (H.channel host.old) (H.channel host.new) (H.files host.old)
        (H.files host.new) }
{
    beside_kept::<H>();
    let mut sink = HostSink::new(host, Role::Err);
    let _written = write_status(&mut sink, status);
    let _flushed = sink.flush();
}

fn write_status<S: Sink>(sink: &mut S, status: Status) -> Result<(), Failed>
    ensures writes { WritesAll S.tells (S.channel sink.old) (S.channel sink.new) (error_text status) result }
    ensures beside { S.beside sink.new ≡ S.beside sink.old }
{
    let line = line_of(status);
    match line.number {
        Some(number) => write_refused(sink, line.head, number, line.kind),
        None => write_all(sink, line.head.as_bytes()),
    }
}

// A line: what stands before a number, and where there is one, this number and what stands behind it.
#[derive(Clone, Copy)]
struct Line {
    head: &'static str,
    number: Option<u64>,
    kind: &'static str,
}

// The status's line, which is empty for an answer, a text that was made and help.
fn line_of(status: Status) -> Line
    ensures { error_text status ≡ line_text result.head.now result.number result.kind.now }
{
    match status {
        Status::Sat
        | Status::Unsat
        | Status::Unknown(_)
        | Status::Answered
        | Status::Verified
        | Status::NotVerified(..)
        | Status::Done
        | Status::Help => plain(""),
        Status::Usage => plain("error: bad usage\n"),
        Status::CnfRefused(kind, line) => refused("error: cnf line ", line, cnf_kind(kind)),
        Status::OrderRefused(kind, line) => refused("error: order line ", line, order_kind(kind)),
        Status::BucketsRefused(kind, line) => {
            refused("error: buckets line ", line, order_kind(kind))
        }
        Status::PlanRefused(kind, line) => refused("error: schedule line ", line, plan_kind(kind)),
        Status::CubeRefused(kind, line) => refused("error: cubes line ", line, cube_kind(kind)),
        Status::TooLong(role) => plain(too_long(role)),
        Status::ReadFault => plain("error: read failed\n"),
        Status::WriteFault => plain("error: write failed\n"),
        Status::OutOfMemory => plain("error: out of memory\n"),
    }
}

fn plain(head: &'static str) -> Line
    ensures { line_text result.head.now result.number result.kind.now ≡ head.entry.now }
{
    Line {
        head,
        number: None,
        kind: "",
    }
}

// Which text is wrong, in which line, and how.
fn refused(head: &'static str, line: u64, kind: &'static str) -> Line
    ensures { line_text result.head.now result.number result.kind.now ≡ head.entry.now ++ (decimal line ++ kind.entry.now) }
{
    Line {
        head,
        number: Some(line),
        kind,
    }
}

fn write_refused<S: Sink>(sink: &mut S, text: &str, line: u64, kind: &str) -> Result<(), Failed>
    ensures writes { WritesAll S.tells (S.channel sink.old) (S.channel sink.new) (text.now ++ (decimal line ++ kind.now)) result }
    ensures beside { S.beside sink.new ≡ S.beside sink.old }
{
    write_all(sink, text.as_bytes())?;
    write_all(sink, Buffer::new().format(line).as_bytes())?;
    write_all(sink, kind.as_bytes())
}

// The end of a line that tells a kind.
fn cnf_kind(kind: CnfKind) -> &'static str
    ensures { result.now ≡ codes ": " ++ kind_name kind ++ codes "\n" }
{
    match kind {
        CnfKind::NoHeader => ": NoHeader\n",
        CnfKind::BadHeader => ": BadHeader\n",
        CnfKind::BadToken => ": BadToken\n",
        CnfKind::LiteralRange => ": LiteralRange\n",
        CnfKind::TooManyClauses => ": TooManyClauses\n",
        CnfKind::ClauseMissing => ": ClauseMissing\n",
        CnfKind::NoEndingZero => ": NoEndingZero\n",
        CnfKind::Limit => ": Limit\n",
    }
}

fn order_kind(kind: OrderKind) -> &'static str
    ensures { result.now ≡ codes ": " ++ order_kind_name kind ++ codes "\n" }
{
    match kind {
        OrderKind::BadNumber => ": BadNumber\n",
        OrderKind::Range => ": Range\n",
        OrderKind::Repeated => ": Repeated\n",
        OrderKind::Missing => ": Missing\n",
    }
}

fn plan_kind(kind: PlanKind) -> &'static str
    ensures { result.now ≡ codes ": " ++ plan_kind_name kind ++ codes "\n" }
{
    match kind {
        PlanKind::Syntax => ": Syntax\n",
        PlanKind::ClauseRange => ": ClauseRange\n",
        PlanKind::ClauseTwice => ": ClauseTwice\n",
        PlanKind::StackShort => ": StackShort\n",
        PlanKind::VariableRange => ": VariableRange\n",
        PlanKind::VariableInUse => ": VariableInUse\n",
        PlanKind::ClauseUnused => ": ClauseUnused\n",
        PlanKind::TermsLeft => ": TermsLeft\n",
    }
}

fn cube_kind(kind: CubeKind) -> &'static str
    ensures { result.now ≡ codes ": " ++ cube_kind_name kind ++ codes "\n" }
{
    match kind {
        CubeKind::BadToken => ": BadToken\n",
        CubeKind::LiteralRange => ": LiteralRange\n",
        CubeKind::BothSigns => ": BothSigns\n",
        CubeKind::NoEndingZero => ": NoEndingZero\n",
        CubeKind::Limit => ": Limit\n",
    }
}

// The line about a text that is too long.
fn too_long(role: Role) -> &'static str
    ensures { result.now ≡ codes "error: " ++ role_word role ++ codes " too long\n" }
{
    match role {
        Role::Cnf => "error: cnf too long\n",
        Role::Order => "error: order too long\n",
        Role::Buckets => "error: buckets too long\n",
        Role::Schedule => "error: schedule too long\n",
        Role::ProofIn | Role::ProofOut => "error: proof too long\n",
        Role::Cubes => "error: cubes too long\n",
        Role::Made => "error: made too long\n",
        Role::Out => "error: out too long\n",
        Role::Err => "error: err too long\n",
    }
}
