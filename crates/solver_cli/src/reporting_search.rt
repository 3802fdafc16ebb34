// Looks at a search, and tells its trials.
ghost use Rattle.std.specs.Prelude.{◌≡◌, None};
ghost use Rattle.host_io.specs.declared.role.Role.TheVariants.{Err as ErrRole};
ghost use Rattle.solver_cli.specs.Progress.{Comments, beside_reported, serves_none};

use crate::notes::{found_note, trial_note};
use crate::telling::tell;
use host_io::Host;
use plan_search::{Attempt, Observer, Pair};
use std::snapshot::Snapshot;

/// A host, lent for lines of comment on standard error.
#[derive(Drop)]
pub struct ReportingSearch<'a, H: Host> {
    host: &'a mut H,
    pub is_telling: bool,
    // The host as it was lent.
    origin: Snapshot<H>,
    ghost unnamed: { (H.channel host.now ErrRole).name ≡ None },
    ghost told: { Comments is_telling H.tells (H.channel origin.value ErrRole) (H.channel host.now ErrRole) },
}

impl<'a, H: Host> ReportingSearch<'a, H> {
    /// Lends the host.
    pub fn new(host: &'a mut H) -> Self
        requires unnamed { (H.channel host.old ErrRole).name ≡ None }
        ensures same_reference { result.host.ghost_name ≡ host.entry.ghost_name }
        ensures same_value { result.host.now ≡ host.old }
        ensures origin { result.origin.value ≡ host.old }
    {
        let origin = Snapshot::of(&*host);
        ReportingSearch {
            host,
            is_telling: true,
            origin,
        }
    }

    /// Gives the host back, so that a caller knows what became of it.
    pub fn close(self) -> &'a mut H
        ensures same_reference { result.ghost_name ≡ self.entry.host.ghost_name }
        ensures same_value { result.now ≡ self.entry.host.now }
    {
        let ReportingSearch { host, .. } = self;
        host
    }
}

impl<H: Host> Observer for ReportingSearch<'_, H> {
    ghost beside = { λ s. beside_reported s.host.ghost_name serves_none None (H.channel s.origin.value ErrRole)
        (H.channel s.host.now) (H.files s.host.now) };

    fn tried(&mut self, attempt: Attempt) {
        tell(&mut *self.host, &mut self.is_telling, trial_note(&attempt));
    }

    fn found(&mut self, pair: Pair) {
        tell(&mut *self.host, &mut self.is_telling, found_note(pair));
    }
}
