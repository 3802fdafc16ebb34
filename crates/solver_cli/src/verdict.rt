// The verdict on standard output.
ghost use Rattle.std.specs.Prelude.{◌≡◌};
ghost use Rattle.host_io.specs.declared.role.Role.TheVariants.{Out};
ghost use Rattle.host_io.specs.Channel.{WritesAll};
ghost use Rattle.host_io.specs.Files.{Kept};
ghost use Rattle.solver_cli.specs.Phases.{PutsText};
ghost use Rattle.answer_text.specs.Status.{trimmed_text};
ghost use Rattle.solver_cli.specs.Verdict.{status_of_verdict, verdict_text};

use crate::status::Status;
use answer_text::{write_refused, write_trimmed, write_verified};
use host_io::{Failed, Host, HostSink, Role, Sink, beside_kept};
use proof_judging::Verdict;

/// The status of a run that printed this verdict.
pub fn verdict_status(verdict: Verdict) -> Status
    ensures { result ≡ status_of_verdict verdict }
{
    match verdict {
        Verdict::Verified => Status::Verified,
        Verdict::Refused { line, reason } => Status::NotVerified(line, reason),
    }
}

/// Prints the verdict and flushes standard output.
pub fn put_verdict<H: Host>(host: &mut H, verdict: Verdict) -> Result<(), Failed>
    ensures puts { PutsText H.tells (H.channel host.old Out) (H.channel host.new Out) (verdict_text verdict) result }
    ensures kept { Kept Out (H.channel host.old Out).name (H.channel host.old) (H.channel host.new) (H.files host.old) (H.files host.new) }
{
    beside_kept::<H>();
    let mut sink = HostSink::new(host, Role::Out);
    print_verdict(&mut sink, verdict)
}

/// Prints that a proof was verified, behind how many of its additions were kept, and flushes standard output.
pub fn put_trimmed<H: Host>(host: &mut H, kept: u64, total: u64) -> Result<(), Failed>
    ensures puts { PutsText H.tells (H.channel host.old Out) (H.channel host.new Out) (trimmed_text kept total) result }
    ensures kept { Kept Out (H.channel host.old Out).name (H.channel host.old) (H.channel host.new) (H.files host.old) (H.files host.new) }
{
    beside_kept::<H>();
    let mut sink = HostSink::new(host, Role::Out);
    print_trimmed(&mut sink, kept, total)
}

fn print_trimmed<S: Sink>(sink: &mut S, kept: u64, total: u64) -> Result<(), Failed>
    ensures puts { PutsText S.tells (S.channel sink.old) (S.channel sink.new) (trimmed_text kept total) result }
    ensures beside { S.beside sink.new ≡ S.beside sink.old }
{
    write_trimmed(sink, kept, total)?;
    sink.flush()
}

fn print_verdict<S: Sink>(sink: &mut S, verdict: Verdict) -> Result<(), Failed>
    ensures puts { PutsText S.tells (S.channel sink.old) (S.channel sink.new) (verdict_text verdict) result }
    ensures beside { S.beside sink.new ≡ S.beside sink.old }
{
    write_verdict(sink, verdict)?;
    sink.flush()
}

fn write_verdict<S: Sink>(sink: &mut S, verdict: Verdict) -> Result<(), Failed>
    ensures writes { WritesAll S.tells (S.channel sink.old) (S.channel sink.new) (verdict_text verdict) result }
    ensures beside { S.beside sink.new ≡ S.beside sink.old }
{
    match verdict {
        Verdict::Verified => write_verified(sink),
        Verdict::Refused { line, reason } => write_refused(sink, line, reason),
    }
}
