// One role of a host, lent to be read. What it does to the rest of the host is told by `beside`, which no call
// changes: from it the law `beside_kept` gives back what the host kept.
ghost use Rattle.std.specs.Prelude.{◌≡◌, ◌≢◌, None};
ghost use Rattle.host_io.specs.Files.{IsInput, IsInput-prop};
ghost use Rattle.host_io.specs.Beside.{beside_role};

use crate::host::Host;
use crate::role::Role;
use crate::source::{Failed, Source};

#[derive(Drop)]
pub struct HostSource<'a, H: Host> {
    host: &'a mut H,
    role: Role,
    ghost input: { IsInput role } by { IsInput-prop role },
    ghost opened: { (H.channel host.now role).name ≢ None },
}

impl<'a, H: Host> HostSource<'a, H> {
    /// Lends the host for one role that was opened.
    pub fn new(host: &'a mut H, role: Role) -> Self
        requires input { IsInput role }
        requires opened { (H.channel host.old role).name ≢ None }
        ensures same_reference { result.host.ghost_name ≡ host.entry.ghost_name }
        ensures same_value { result.host.now ≡ host.old }
        ensures role { result.role ≡ role }
    {
        HostSource { host, role }
    }
}

impl<H: Host> Source for HostSource<'_, H> {
    ghost tells = { H.tells };

    ghost channel = { λ s. H.channel s.host.now s.role };

    ghost beside = { λ s. beside_role s.host.ghost_name s.role None (H.channel s.host.now) (H.files s.host.now) };

    fn read(&mut self, buf: &mut [u8]) -> Result<usize, Failed> {
        self.host.read(self.role, buf)
    }
}
