// The outside of the program as one object: files by name and the standard streams, each met in its role.
ghost use Rattle.std.specs.Prelude.{◌≡◌, ◌≢◌, Bool, None, Some, length, IsTrue, OnOk};
ghost use Rattle.host_io.specs.declared.role.Role.{Role};
ghost use Rattle.host_io.specs.Channel.{Channel, Reads, Writes, Flushes};
ghost use Rattle.host_io.specs.Files.{Files, Offers, IsInput, IsCreated, IsNamedFirst, IsWritable, IsIdle, Kept, Opens};

use crate::role::Role;
use crate::source::Failed;
use crate::trace::Trace;

/// All that the program meets outside itself. A role is opened or created once, under one name, before it is
/// used; `Out` and `Err` need no name. A call of one role changes nothing of another's, and no file but one that
/// its role created.
pub trait Host {
    /// Whether the bytes are told, of all roles and files together. Names and counts always are.
    ghost tells: { Bool };

    ghost channel: { Self → Role → Channel };

    ghost files: { Self → Files };

    /// A law for a caller's proof; the call does nothing. A role without a name, the two standard streams
    /// excepted, has taken, written and flushed nothing. So a client knows that the roles that it doesn't open have done nothing.
    fn unnamed_law(&self)
        ensures { (role : Role) → IsNamedFirst role → (channel self.now role).name ≡ None → IsIdle (channel self.now role) };

    /// Opens the file of this name to be read in this role.
    fn open_read(&mut self, role: Role, name: &str) -> Result<(), Failed>
        requires input { IsInput role }
        requires unnamed { (channel self.old role).name ≡ None }
        ensures opens { Opens (channel self.old role) (channel self.new role) name.now result }
        ensures content { IsTrue tells → OnOk result (Offers (files self.old name.now) (channel self.new role).left) }
        ensures kept { Kept role None (channel self.old) (channel self.new) (files self.old) (files self.new) };

    /// Creates the file of this name, to be written in this role.
    fn create(&mut self, role: Role, name: &str) -> Result<(), Failed>
        requires created { IsCreated role }
        requires unnamed { (channel self.old role).name ≡ None }
        ensures opens { Opens (channel self.old role) (channel self.new role) name.now result }
        ensures kept { Kept role (channel self.new role).name (channel self.old) (channel self.new) (files self.old) (files self.new) };

    /// As `Source::read`, in this role.
    fn read(&mut self, role: Role, buf: &mut [u8]) -> Result<usize, Failed>
        requires input { IsInput role }
        requires opened { (channel self.old role).name ≢ None }
        ensures reads { Reads tells (channel self.old role) (channel self.new role) (length buf.old) buf.new result }
        ensures kept { Kept role None (channel self.old) (channel self.new) (files self.old) (files self.new) };

    /// As `Sink::write`, in this role.
    fn write(&mut self, role: Role, bytes: &[u8]) -> Result<usize, Failed>
        requires { IsWritable role (channel self.old role).name }
        ensures writes { Writes tells (channel self.old role) (channel self.new role) bytes.now result }
        ensures kept { Kept role (channel self.old role).name (channel self.old) (channel self.new) (files self.old) (files self.new) };

    /// As `Sink::flush`, in this role.
    fn flush(&mut self, role: Role) -> Result<(), Failed>
        requires { IsWritable role (channel self.old role).name }
        ensures flushes { Flushes tells (channel self.old role) (channel self.new role) result }
        ensures kept { Kept role (channel self.old role).name (channel self.old) (channel self.new) (files self.old) (files self.new) };

    /// What is known of this role's calls, where the host keeps that. Nothing is promised of it: it is for a text that a user reads.
    fn trace(&self, _role: Role) -> Option<Trace> {
        None
    }
}
