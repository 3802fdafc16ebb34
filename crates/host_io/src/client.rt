// One role of a host served as a whole, through its view.
ghost use Rattle.std.specs.Prelude.{◌≡◌, ◌≢◌, None, length};
ghost use Rattle.host_io.specs.Channel.{Puts, Fills};
ghost use Rattle.host_io.specs.Files.{IsInput, IsWritable, Kept};

use crate::host::Host;
use crate::host_sink::HostSink;
use crate::host_source::HostSource;
use crate::law::beside_kept;
use crate::role::Role;
use crate::source::{Failed, Sink};
use crate::whole::{fill, write_all};

/// Writes all of the bytes in this role and flushes it.
pub fn put<H: Host>(host: &mut H, role: Role, bytes: &[u8]) -> Result<(), Failed>
    requires { IsWritable role (H.channel host.old role).name }
    ensures puts { Puts H.tells (H.channel host.old role) (H.channel host.new role) bytes.now result }
    ensures kept { Kept role (H.channel host.old role).name (H.channel host.old) (H.channel host.new) (H.files host.old)
        (H.files host.new) }
{
    beside_kept::<H>();
    let mut sink = HostSink::new(host, role);
    write_all(&mut sink, bytes)?;
    sink.flush()
}

/// Reads in this role until the buffer is full or the input ends, and answers the number of bytes.
pub fn load<H: Host>(host: &mut H, role: Role, buf: &mut [u8]) -> Result<usize, Failed>
    requires input { IsInput role }
    requires opened { (H.channel host.old role).name ≢ None }
    ensures fills { Fills H.tells (H.channel host.old role) (H.channel host.new role) (length buf.old) buf.new result }
    ensures kept { Kept role None (H.channel host.old) (H.channel host.new) (H.files host.old) (H.files host.new) }
{
    beside_kept::<H>();
    let mut source = HostSource::new(host, role);
    fill(&mut source, buf)
}
