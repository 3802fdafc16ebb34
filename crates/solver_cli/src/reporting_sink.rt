// The file of the proof that is written, as a sink that tells how far its run is.
ghost use Rattle.std.specs.Prelude.{◌≡◌, ◌≢◌, None, true};
ghost use Rattle.host_io.specs.declared.role.Role.TheVariants.{ProofOut, Err as ErrRole};
ghost use Rattle.solver_cli.specs.Progress.{Comments, beside_reported, serves_written};

use crate::comment::Comment;
use crate::notes::move_note;
use crate::numbers::Numbers;
use crate::telling::tell;
use host_io::{Failed, Host, Role, Sink};
use std::snapshot::Snapshot;
use term_runner::Gauge;

/// A host, lent for the proof that is written, and for lines of comment on standard error.
#[derive(Drop)]
pub struct ReportingSink<'a, H: Host> {
    host: &'a mut H,
    gauge: &'a Gauge,
    numbers: Numbers,
    pub is_telling: bool,
    // The host as it was lent.
    origin: Snapshot<H>,
    ghost created: { (H.channel host.now ProofOut).name ≢ None },
    ghost unnamed: { (H.channel host.now ErrRole).name ≡ None },
    ghost told: { Comments is_telling H.tells (H.channel origin.value ErrRole) (H.channel host.now ErrRole) },
}

impl<'a, H: Host> ReportingSink<'a, H> {
    /// Lends the host. The gauge is that of the run, and the formula's clauses have the numbers up to `clauses`.
    pub fn new(host: &'a mut H, gauge: &'a Gauge, clauses: u64) -> Self
        requires created { (H.channel host.old ProofOut).name ≢ None }
        requires unnamed { (H.channel host.old ErrRole).name ≡ None }
        ensures same_reference { result.host.ghost_name ≡ host.entry.ghost_name }
        ensures same_value { result.host.now ≡ host.old }
        ensures origin { result.origin.value ≡ host.old }
    {
        let origin = Snapshot::of(&*host);
        ReportingSink {
            host,
            gauge,
            numbers: Numbers::behind(clauses),
            is_telling: true,
            origin,
        }
    }

    /// Gives the host back, so that a caller knows what became of it.
    pub fn close(self) -> &'a mut H
        ensures same_reference { result.ghost_name ≡ self.entry.host.ghost_name }
        ensures same_value { result.now ≡ self.entry.host.now }
    {
        let ReportingSink { host, .. } = self;
        host
    }

    /// Tells this on standard error, unless a call failed there before.
    pub fn report(&mut self, comment: Comment)
        ensures channel { H.channel self.new.host.now ProofOut ≡ H.channel self.old.host.now ProofOut }
        ensures beside { beside_reported self.new.host.ghost_name serves_written (H.channel self.new.host.now ProofOut).name
            (H.channel self.new.origin.value ErrRole) (H.channel self.new.host.now) (H.files self.new.host.now)
            ≡ beside_reported self.old.host.ghost_name serves_written (H.channel self.old.host.now ProofOut).name
            (H.channel self.old.origin.value ErrRole) (H.channel self.old.host.now) (H.files self.old.host.now) }
    {
        tell(&mut *self.host, &mut self.is_telling, comment);
    }

    // Takes bytes that were written, and tells of the run where they bring the numbers to the next million.
    fn pass(&mut self, bytes: &[u8])
        ensures channel { H.channel self.new.host.now ProofOut ≡ H.channel self.old.host.now ProofOut }
        ensures beside { beside_reported self.new.host.ghost_name serves_written (H.channel self.new.host.now ProofOut).name
            (H.channel self.new.origin.value ErrRole) (H.channel self.new.host.now) (H.files self.new.host.now)
            ≡ beside_reported self.old.host.ghost_name serves_written (H.channel self.old.host.now ProofOut).name
            (H.channel self.old.origin.value ErrRole) (H.channel self.old.host.now) (H.files self.old.host.now) }
    {
        if let Some(number) = self.numbers.take(bytes) {
            let reading = self.gauge.read();
            self.report(move_note(&reading, number));
        }
    }
}

impl<H: Host> Sink for ReportingSink<'_, H> {
    ghost tells = { H.tells };

    ghost channel = { λ s. H.channel s.host.now ProofOut };

    ghost beside = { λ s. beside_reported s.host.ghost_name serves_written (H.channel s.host.now ProofOut).name
        (H.channel s.origin.value ErrRole) (H.channel s.host.now) (H.files s.host.now) };

    fn write(&mut self, bytes: &[u8]) -> Result<usize, Failed> {
        let written = self.host.write(Role::ProofOut, bytes)?;
        self.pass(&bytes[..written]);
        Ok(written)
    }

    fn flush(&mut self) -> Result<(), Failed> {
        self.host.flush(Role::ProofOut)
    }
}
