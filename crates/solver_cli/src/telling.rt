// Lines of comment on standard error.
ghost use Rattle.std.specs.Prelude.{◌≡◌};
ghost use Rattle.host_io.specs.declared.role.Role.TheVariants.{Err as ErrRole};
ghost use Rattle.host_io.specs.Files.{Kept};
ghost use Rattle.solver_cli.specs.Phases.{PutsText};
ghost use Rattle.solver_cli.specs.Progress.{Notes};

use crate::comment::Comment;
use host_io::{Failed, Host, HostSink, Role, Sink, beside_kept, write_all};

/// Writes a line of comment on standard error and flushes it, if progress is told. A call that fails ends the telling, and no
/// run otherwise.
pub fn tell<H: Host>(host: &mut H, is_telling: &mut bool, comment: Comment)
    ensures notes { Notes is_telling.old is_telling.new H.tells (H.channel host.old ErrRole) (H.channel host.new ErrRole) }
    ensures kept { Kept ErrRole (H.channel host.old ErrRole).name (H.channel host.old) (H.channel host.new) (H.files host.old)
        (H.files host.new) }
{
    if *is_telling {
        let line = comment.into_line();
        *is_telling = put_line(host, line.as_slice()).is_ok();
    }
}

/// Writes these lines on standard error and flushes it.
pub(crate) fn put_line<H: Host>(host: &mut H, line: &[u8]) -> Result<(), Failed>
    ensures puts { PutsText H.tells (H.channel host.old ErrRole) (H.channel host.new ErrRole) line.now result }
    ensures kept { Kept ErrRole (H.channel host.old ErrRole).name (H.channel host.old) (H.channel host.new) (H.files host.old)
        (H.files host.new) }
{
    beside_kept::<H>();
    let mut sink = HostSink::new(host, Role::Err);
    write_line(&mut sink, line)
}

fn write_line<S: Sink>(sink: &mut S, line: &[u8]) -> Result<(), Failed>
    ensures puts { PutsText S.tells (S.channel sink.old) (S.channel sink.new) line.now result }
    ensures beside { S.beside sink.new ≡ S.beside sink.old }
{
    write_all(sink, line)?;
    sink.flush()
}
