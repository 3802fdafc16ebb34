// A host over the real system. It tells names and faults, which bytes pass at which device, whether the end of an input was met,
// and all that the system was asked for. What a file holds no clause can say: that the bytes that pass are the file's is what
// `port` trusts the system for.
ghost use Rattle.std.specs.Prelude.{◌≡◌, ◌≢◌, ◌≤◌, true, None, OnOk, [], ◌∷◌, ◌++◌, length, All, codes};
ghost use Rattle.host_io.specs.declared.role.Role.{Role};
ghost use Rattle.host_io.specs.Channel.{Reads, Writes, Flushes};
ghost use Rattle.host_io.specs.Files.{Offers, IsInput, IsCreated, IsNamedFirst, IsWritable, IsIdle, Kept, Opens};
ghost use Rattle.host_io.specs.Real.{unmet, counted_of, channel_of, untold_files, device_of, no_traffic, Opened, Created};
ghost use Rattle.host_io.specs.Real.{OthersCounted, Begins, begun, Connects, Moves, FlushesDevice, took, wrote, traffic_of};
ghost use Rattle.host_io.specs.Real.{IsHeld, IsWanted};

use crate::host::Host;
use crate::port::System;
use crate::real_role::RealRole;
use crate::role::{Role, place};
use crate::source::Failed;
use crate::trace::Trace;
use std::env::Args;
use std::io::ErrorKind;
use std::marker::Model;

/// Files, standard output and standard error. Each role has a buffer of 64 KB from its first use on; what is
/// written reaches the system when the buffer is full, or at a flush.
#[derive(Drop)]
pub struct RealHost {
    system: System,
    roles: [RealRole; 10],
}

impl Model for RealHost {
    ghost use Rattle.host_io.specs.Real.{Hosted, IsConnected};

    ghost Value = { Hosted };

    ghost view = { λ h. record { roles = h.roles; made = h.system } };

    ghost invariant = { λ h. IsConnected (record { roles = h.roles; made = h.system }) };
}

impl RealHost {
    /// No role has a name, no fault was met, no byte passed, and the system was asked for nothing.
    pub fn new(rt: HostRuntime) -> Self
        ensures unnamed { (role : Role) → (channel_of result role).name ≡ None }
        ensures faults { (role : Role) → (channel_of result role).faults ≡ 0 }
        ensures unmet { (role : Role) → counted_of result role ≡ unmet }
        ensures made { result.made ≡ [] }
    {
        RealHost::over(System::new(rt))
    }

    /// The host over which a program runs, and the words of its command line, or why they can't be had. The host holds what a
    /// standard stream that is closed would else give way to.
    pub fn of_system(rt: HostRuntime) -> (Self, Result<Args, ErrorKind>)
        ensures unnamed { (role : Role) → (channel_of result.0 role).name ≡ None }
        ensures faults { (role : Role) → (channel_of result.0 role).faults ≡ 0 }
        ensures unmet { (role : Role) → counted_of result.0 role ≡ unmet }
        ensures made { let held = Opened (codes "/dev/null") in result.0.made ≡ held ∷ held ∷ held ∷ [] }
    {
        let system = System::holding(rt);
        let words = system.words();
        (RealHost::over(system), words)
    }

    // No role was met yet.
    fn over(system: System) -> Self
        requires { All IsHeld system }
        ensures unnamed { (role : Role) → (channel_of result role).name ≡ None }
        ensures faults { (role : Role) → (channel_of result role).faults ≡ 0 }
        ensures unmet { (role : Role) → counted_of result role ≡ unmet }
        ensures made { result.made ≡ system }
    {
        RealHost {
            system,
            roles: [
                RealRole::new(),
                RealRole::new(),
                RealRole::new(),
                RealRole::new(),
                RealRole::new(),
                RealRole::new(),
                RealRole::new(),
                RealRole::new(),
                RealRole::new(),
                RealRole::new(),
            ],
        }
    }

    // Takes the standard stream of this role, where it has one and has not taken it yet.
    fn begin(&mut self, role: Role) -> Result<(), Failed>
        ensures begins { Begins role (counted_of self.old role) (counted_of self.new role) result }
        ensures no_less { (counted_of self.old role).faults ≤ (counted_of self.new role).faults }
        ensures others { OthersCounted role self.old self.new }
        ensures made { self.new.made ≡ self.old.made ++ begun role (device_of self.old role).target }
    {
        self.roles[place(role)].begin(&mut self.system, role)
    }
}

impl Host for RealHost {
    ghost tells = { true };

    ghost channel = { channel_of };

    ghost files = { untold_files };

    #[inline(always)]
    fn unnamed_law(&self)
        ensures idle { (role : Role) → IsNamedFirst role → (channel_of self.now role).name ≡ None
            → IsIdle (channel_of self.now role) }
        ensures no_traffic { (role : Role) → (device_of self.now role).target ≡ None → traffic_of self.now role ≡ no_traffic }
        ensures wanted { All (IsWanted self.now) self.now.made }
    {
        let _ = &self.roles;
    }

    fn open_read(&mut self, role: Role, name: &str) -> Result<(), Failed>
        requires input { IsInput role }
        requires unnamed { (channel_of self.old role).name ≡ None }
        ensures opens { Opens (channel_of self.old role) (channel_of self.new role) name.now result }
        ensures content { OnOk result (Offers (untold_files self.old name.now) (channel_of self.new role).left) }
        ensures kept { Kept role None (channel_of self.old) (channel_of self.new) (untold_files self.old) (untold_files self.new) }
        ensures connects { Connects role (Opened name.now) self.old self.new result }
        ensures made { self.new.made ≡ self.old.made ++ Opened name.now ∷ [] }
    {
        self.roles[place(role)].open(&mut self.system, name)
    }

    fn create(&mut self, role: Role, name: &str) -> Result<(), Failed>
        requires created { IsCreated role }
        requires unnamed { (channel_of self.old role).name ≡ None }
        ensures opens { Opens (channel_of self.old role) (channel_of self.new role) name.now result }
        ensures kept { Kept role (channel_of self.new role).name (channel_of self.old) (channel_of self.new) (untold_files self.old)
            (untold_files self.new) }
        ensures connects { Connects role (Created name.now) self.old self.new result }
        ensures made { self.new.made ≡ self.old.made ++ Created name.now ∷ [] }
    {
        self.roles[place(role)].create(&mut self.system, name)
    }

    fn read(&mut self, role: Role, buf: &mut [u8]) -> Result<usize, Failed>
        requires input { IsInput role }
        requires opened { (channel_of self.old role).name ≢ None }
        ensures reads { Reads true (channel_of self.old role) (channel_of self.new role) (length buf.old) buf.new result }
        ensures kept { Kept role None (channel_of self.old) (channel_of self.new) (untold_files self.old) (untold_files self.new) }
        ensures moves { Moves role (took buf.new) self.old self.new result }
        ensures made { self.new.made ≡ self.old.made }
    {
        self.roles[place(role)].read(buf)
    }

    fn write(&mut self, role: Role, bytes: &[u8]) -> Result<usize, Failed>
        requires { IsWritable role (channel_of self.old role).name }
        ensures writes { Writes true (channel_of self.old role) (channel_of self.new role) bytes.now result }
        ensures kept { Kept role (channel_of self.old role).name (channel_of self.old) (channel_of self.new) (untold_files self.old)
            (untold_files self.new) }
        ensures moves { Moves role (wrote bytes.now) self.old self.new result }
        ensures made { self.new.made ≡ self.old.made ++ begun role (device_of self.old role).target }
    {
        self.begin(role)?;
        self.roles[place(role)].write(bytes)
    }

    fn flush(&mut self, role: Role) -> Result<(), Failed>
        requires { IsWritable role (channel_of self.old role).name }
        ensures flushes { Flushes true (channel_of self.old role) (channel_of self.new role) result }
        ensures kept { Kept role (channel_of self.old role).name (channel_of self.old) (channel_of self.new) (untold_files self.old)
            (untold_files self.new) }
        ensures flushes_device { FlushesDevice role self.old self.new result }
        ensures made { self.new.made ≡ self.old.made }
    {
        self.roles[place(role)].flush()
    }

    fn trace(&self, role: Role) -> Option<Trace> {
        Some(self.roles[place(role)].trace())
    }
}
