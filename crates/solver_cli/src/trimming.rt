// Trimming a proof: opening its file, and writing what its refutation needs to another one, and its core to a further one.
ghost use Rattle.std.specs.Prelude.{◌≡◌, ◌≢◌, None};
ghost use Rattle.host_io.specs.declared.role.Role.TheVariants.{Made, ProofIn, ProofOut};
ghost use Rattle.host_io.specs.Files.{Kept};
ghost use Rattle.command_line.specs.Reading.{text_of};
ghost use Rattle.solver_cli.specs.Phases.{PutsText};
ghost use Rattle.solver_cli.specs.TrimmedProof.{PutsFile, PutsNamed, TrimsOpened, TrimsProof};

use cnf_base::Cnf;
use host_io::{Failed, Host, HostSink, HostSource, Role, Sink, beside_kept};
use proof_judging::CheckError;
use proof_trim::{Core, KeptSteps, Trimmed, trim};
use std::alloc::Global;

/// Opens the file of this name, judges the proof in it over the formula, and trims a verified one.
pub fn trim_proof<H: Host>(
    alloc: Global,
    host: &mut H,
    formula: &Cnf,
    name: &str,
) -> Result<Trimmed, CheckError>
    requires unread { (H.channel host.old ProofIn).name ≡ None }
    ensures trims { TrimsProof H.tells (H.channel host.old ProofIn) (H.channel host.new ProofIn) (H.files host.old) name.now
        formula.now.clauses result }
    ensures kept { Kept ProofIn None (H.channel host.old) (H.channel host.new) (H.files host.old) (H.files host.new) }
{
    if host.open_read(Role::ProofIn, name).is_err() {
        return Err(CheckError::ReadFault);
    }
    trim_opened(alloc, host, formula)
}

fn trim_opened<H: Host>(alloc: Global, host: &mut H, formula: &Cnf) -> Result<Trimmed, CheckError>
    requires { (H.channel host.old ProofIn).name ≢ None }
    ensures trims { TrimsOpened H.tells (H.channel host.old ProofIn) (H.channel host.new ProofIn) formula.now.clauses result }
    ensures kept { Kept ProofIn None (H.channel host.old) (H.channel host.new) (H.files host.old) (H.files host.new) }
{
    beside_kept::<H>();
    let mut source = HostSource::new(host, Role::ProofIn);
    trim(alloc, formula, &mut source)
}

/// Creates the file of this name, writes the lines of the steps to it and flushes it. Takes no memory.
pub fn put_proof<H: Host>(host: &mut H, name: &str, steps: &mut KeptSteps) -> Result<(), Failed>
    requires unwritten { (H.channel host.old ProofOut).name ≡ None }
    ensures puts { PutsFile H.tells (H.channel host.old ProofOut) (H.channel host.new ProofOut) name.now steps.old result }
    ensures kept { Kept ProofOut (H.channel host.new ProofOut).name (H.channel host.old) (H.channel host.new) (H.files host.old)
        (H.files host.new) }
{
    if host.create(Role::ProofOut, name).is_err() {
        return Err(Failed);
    }
    put_steps(host, steps)
}

fn put_steps<H: Host>(host: &mut H, steps: &mut KeptSteps) -> Result<(), Failed>
    requires created { (H.channel host.old ProofOut).name ≢ None }
    ensures puts { PutsText H.tells (H.channel host.old ProofOut) (H.channel host.new ProofOut) steps.old result }
    ensures kept { Kept ProofOut (H.channel host.old ProofOut).name (H.channel host.old) (H.channel host.new) (H.files host.old)
        (H.files host.new) }
{
    beside_kept::<H>();
    let mut sink = HostSink::new(host, Role::ProofOut);
    print_steps(&mut sink, steps)
}

fn print_steps<S: Sink>(sink: &mut S, steps: &mut KeptSteps) -> Result<(), Failed>
    ensures puts { PutsText S.tells (S.channel sink.old) (S.channel sink.new) steps.old result }
    ensures beside { S.beside sink.new ≡ S.beside sink.old }
{
    steps.write(sink)?;
    sink.flush()
}

/// Creates the file of this name, writes the core's lines to it and flushes it; without a name does nothing. Takes no memory.
pub fn put_core<H: Host>(host: &mut H, name: Option<&str>, core: &mut Core) -> Result<(), Failed>
    requires unwritten { (H.channel host.old Made).name ≡ None }
    ensures puts { PutsNamed H.tells (H.channel host.old Made) (H.channel host.new Made) (text_of name.entry) core.old result }
    ensures kept { Kept Made (H.channel host.new Made).name (H.channel host.old) (H.channel host.new) (H.files host.old)
        (H.files host.new) }
{
    match name {
        Some(name) => put_core_at(host, name, core),
        None => Ok(()),
    }
}

fn put_core_at<H: Host>(host: &mut H, name: &str, core: &mut Core) -> Result<(), Failed>
    requires unwritten { (H.channel host.old Made).name ≡ None }
    ensures puts { PutsFile H.tells (H.channel host.old Made) (H.channel host.new Made) name.now core.old result }
    ensures kept { Kept Made (H.channel host.new Made).name (H.channel host.old) (H.channel host.new) (H.files host.old)
        (H.files host.new) }
{
    if host.create(Role::Made, name).is_err() {
        return Err(Failed);
    }
    put_numbers(host, core)
}

fn put_numbers<H: Host>(host: &mut H, core: &mut Core) -> Result<(), Failed>
    requires created { (H.channel host.old Made).name ≢ None }
    ensures puts { PutsText H.tells (H.channel host.old Made) (H.channel host.new Made) core.old result }
    ensures kept { Kept Made (H.channel host.old Made).name (H.channel host.old) (H.channel host.new) (H.files host.old)
        (H.files host.new) }
{
    beside_kept::<H>();
    let mut sink = HostSink::new(host, Role::Made);
    print_numbers(&mut sink, core)
}

fn print_numbers<S: Sink>(sink: &mut S, core: &mut Core) -> Result<(), Failed>
    ensures puts { PutsText S.tells (S.channel sink.old) (S.channel sink.new) core.old result }
    ensures beside { S.beside sink.new ≡ S.beside sink.old }
{
    core.write(sink)?;
    sink.flush()
}
