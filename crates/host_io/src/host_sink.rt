// One role of a host, lent to be written, as `HostSource` is to be read.
ghost use Rattle.std.specs.Prelude.{◌≡◌};
ghost use Rattle.host_io.specs.Files.{IsWritable, IsWritable-prop};
ghost use Rattle.host_io.specs.Beside.{beside_role};

use crate::host::Host;
use crate::role::Role;
use crate::source::{Failed, Sink};

#[derive(Drop)]
pub struct HostSink<'a, H: Host> {
    host: &'a mut H,
    role: Role,
    ghost writable: { IsWritable role (H.channel host.now role).name } by { IsWritable-prop role (H.channel host.now role).name },
}

impl<'a, H: Host> HostSink<'a, H> {
    /// Lends the host for one role that may be written.
    pub fn new(host: &'a mut H, role: Role) -> Self
        requires { IsWritable role (H.channel host.old role).name }
        ensures same_reference { result.host.ghost_name ≡ host.entry.ghost_name }
        ensures same_value { result.host.now ≡ host.old }
        ensures role { result.role ≡ role }
    {
        HostSink { host, role }
    }
}

impl<H: Host> Sink for HostSink<'_, H> {
    ghost tells = { H.tells };

    ghost channel = { λ s. H.channel s.host.now s.role };

    ghost beside = { λ s. beside_role s.host.ghost_name s.role (H.channel s.host.now s.role).name (H.channel s.host.now)
        (H.files s.host.now) };

    fn write(&mut self, bytes: &[u8]) -> Result<usize, Failed> {
        self.host.write(self.role, bytes)
    }

    fn flush(&mut self) -> Result<(), Failed> {
        self.host.flush(self.role)
    }
}
