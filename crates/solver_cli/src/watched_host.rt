// A host as a command meets it that leaves standard error alone, while its run is watched: what it reads and writes is counted, and told on
// standard error. The command doesn't see these lines: what it sees of standard error stays, and is a mark of what was lent. So its own
// contract, over any host, says that it has this host back, and all that it says of the other roles and of files holds of the host itself.
ghost use Rattle.std.specs.Prelude.{◌≡◌, None};
ghost use Rattle.host_io.specs.declared.role.Role.TheVariants.{Err as ErrRole};
ghost use Rattle.host_io.specs.Files.{same_role};
ghost use Rattle.solver_cli.specs.Progress.{Notes};
ghost use Rattle.solver_cli.specs.Watched.{Stays, mark, watched};

use crate::comment::Comment;
use crate::counts::Counts;
use crate::excerpt::Excerpt;
use crate::telling::tell;
use cube_queries::Gauge;
use host_io::{Failed, Host, Role};
use std::snapshot::Snapshot;

/// A host, lent to a command, with the counts of its run.
#[derive(Drop)]
pub struct WatchedHost<'a, H: Host> {
    host: &'a mut H,
    counts: Counts,
    gauge: &'a Gauge,
    // Whether progress is told, and whether it is told still.
    is_asked: bool,
    is_telling: bool,
    // How many calls of standard error were refused.
    refused: u64,
    // The host as it was lent.
    origin: Snapshot<H>,
    ghost unnamed: { (H.channel host.now ErrRole).name ≡ None },
    ghost told: { Notes is_asked is_telling H.tells (H.channel origin.value ErrRole) (H.channel host.now ErrRole) },
}

impl<'a, H: Host> WatchedHost<'a, H> {
    /// Lends the host. The gauge is that of the cubes, if the run answers any; progress is told where that is asked for.
    pub fn new(host: &'a mut H, counts: Counts, gauge: &'a Gauge, is_asked: bool) -> Self
        requires unnamed { (H.channel host.old ErrRole).name ≡ None }
        ensures same_reference { result.host.ghost_name ≡ host.entry.ghost_name }
        ensures same_value { result.host.now ≡ host.old }
        ensures origin { result.origin.value ≡ host.old }
        ensures asked { result.is_asked ≡ is_asked }
    {
        let origin = Snapshot::of(&*host);
        WatchedHost {
            host,
            counts,
            gauge,
            is_asked,
            is_telling: is_asked,
            refused: 0,
            origin,
        }
    }

    /// Gives the host back, so that a caller knows what became of it. The excerpt becomes that of the proof, if one was read.
    pub fn close(self, excerpt: &mut Excerpt) -> &'a mut H
        ensures same_reference { result.ghost_name ≡ self.entry.host.ghost_name }
        ensures same_value { result.now ≡ self.entry.host.now }
    {
        let WatchedHost { host, counts, .. } = self;
        counts.hand_over(excerpt);
        host
    }

    /// Tells how far the run came.
    pub fn report_end(&mut self)
        ensures stays { Stays (mark self.old.host.ghost_name self.old.is_asked self.old.refused (H.channel self.old.origin.value ErrRole))
            (mark self.new.host.ghost_name self.new.is_asked self.new.refused (H.channel self.new.origin.value ErrRole))
            (H.channel self.old.host.now) (H.channel self.new.host.now) (H.files self.old.host.now) (H.files self.new.host.now) }
    {
        let reading = self.gauge.read();
        let note = self.counts.end(&reading);
        self.report(note);
    }

    // Tells this, if there is something to tell.
    fn report(&mut self, note: Option<Comment>)
        ensures stays { Stays (mark self.old.host.ghost_name self.old.is_asked self.old.refused (H.channel self.old.origin.value ErrRole))
            (mark self.new.host.ghost_name self.new.is_asked self.new.refused (H.channel self.new.origin.value ErrRole))
            (H.channel self.old.host.now) (H.channel self.new.host.now) (H.files self.old.host.now) (H.files self.new.host.now) }
    {
        if let Some(comment) = note {
            tell(&mut *self.host, &mut self.is_telling, comment);
        }
    }
}

impl<H: Host> Host for WatchedHost<'_, H> {
    ghost tells = { H.tells };

    ghost channel = { λ w. watched w.host.ghost_name w.is_asked w.refused (H.channel w.origin.value ErrRole) (H.channel w.host.now) };

    ghost files = { λ w. H.files w.host.now };

    #[inline(always)]
    fn unnamed_law(&self) {
        self.host.unnamed_law();
    }

    fn open_read(&mut self, role: Role, name: &str) -> Result<(), Failed> {
        self.host.open_read(role, name)?;
        self.counts.open(role);
        Ok(())
    }

    fn create(&mut self, role: Role, name: &str) -> Result<(), Failed> {
        self.host.create(role, name)?;
        self.counts.open(role);
        Ok(())
    }

    fn read(&mut self, role: Role, buf: &mut [u8]) -> Result<usize, Failed> {
        let read = self.host.read(role, &mut *buf)?;
        let note = self.counts.read(role, &buf[..read]);
        self.report(note);
        Ok(read)
    }

    fn write(&mut self, role: Role, bytes: &[u8]) -> Result<usize, Failed> {
        if is_error(role) {
            self.refused = self.refused.saturating_add(1);
            return Err(Failed);
        }
        let written = self.host.write(role, bytes)?;
        let reading = self.gauge.read();
        let note = self.counts.write(role, &bytes[..written], &reading);
        self.report(note);
        Ok(written)
    }

    fn flush(&mut self, role: Role) -> Result<(), Failed> {
        if is_error(role) {
            self.refused = self.refused.saturating_add(1);
            return Err(Failed);
        }
        self.host.flush(role)
    }
}

// Whether this is standard error.
fn is_error(role: Role) -> bool
    ensures { result ≡ same_role role ErrRole }
{
    match role {
        Role::Err => true,
        _ => false,
    }
}
