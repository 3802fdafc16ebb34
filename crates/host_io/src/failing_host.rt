// A host in memory whose calls fail where a plan says so, and move few bytes at a time: for tests of the layers
// above. Reads and flushes fail nowhere else; the other calls may, for want of memory.
ghost use Rattle.std.specs.Prelude.{◌≡◌, ◌<◌, ◌≤◌, ◌≢◌, true, None, Some, ℕ, length, IsOk, IfOk, OnOk, OnErr, IsTrue, IsErr, IsFalse};
ghost use Rattle.std.specs.Option.{option_copied};
ghost use Rattle.host_io.specs.declared.role.Role.{Role};
ghost use Rattle.host_io.specs.Channel.{Channel, Reads, Writes, Flushes};
ghost use Rattle.host_io.specs.Files.{Offers, IsInput, IsCreated, IsWritable, Kept, Opens, same_role};
ghost use Rattle.host_io.specs.Memory as memory;
ghost use Rattle.host_io.specs.Failing.{Failing, GoesByPlan, channel_of, files_of, told_files, calls_of, next_call, is_listed};

use crate::host::Host;
use crate::memory_host::MemoryHost;
use crate::role::{Role, place};
use crate::source::Failed;
use std::marker::Model;

#[derive(Drop)]
pub struct FailingHost {
    base: MemoryHost,
    fails: Vec<(Role, u64)>,
    piece: usize,
    calls: [u64; 10],
}

impl Model for FailingHost {
    ghost use Rattle.std.specs.Prelude.{◌≡◌, ◌<◌, length};
    ghost use Rattle.host_io.specs.Failing.{Failing};

    ghost Value = { Failing };

    ghost view = { λ h. record { base = h.base; fails = h.fails.items; piece = h.piece; calls = h.calls } };

    ghost invariant = { λ h. (0 < h.piece) × (length h.calls ≡ 10) };
}

// Whether the call of this role and number is listed.
fn lists(fails: &[(Role, u64)], role: Role, number: u64) -> bool
    ensures { result ≡ is_listed role number fails.now }
{
    let own = place(role);
    fails
        .iter()
        .any(|call| place(call.0) == own && call.1 == number)
}

impl FailingHost {
    /// Each call in `fails`, by its role and its number among the role's calls, from 1 on, will fail. A read or
    /// a write moves at most `piece` bytes.
    pub fn new(base: MemoryHost, fails: Vec<(Role, u64)>, piece: usize) -> Self
        requires piece { 0 < piece }
        requires fresh { (role : Role) → ((memory.channel_of base role).name ≡ None) × ((memory.channel_of base role).faults ≡ 0) }
        ensures base { result.base ≡ base }
        ensures fails { result.fails ≡ fails.items }
        ensures piece { result.piece ≡ piece }
        ensures calls { (role : Role) → calls_of result role ≡ 0 }
        ensures unnamed { (role : Role) → (channel_of result role).name ≡ None }
    {
        FailingHost {
            base,
            fails,
            piece,
            calls: [0; 10],
        }
    }

    /// The file of this name, if there is one.
    pub fn file(&self, name: &str) -> Option<&[u8]>
        ensures { option_copied result ≡ files_of self.now name.now }
    {
        self.base.file(name)
    }

    /// What the role has written.
    pub fn output(&self, role: Role) -> &[u8]
        ensures { result.now ≡ (channel_of self.now role).written }
    {
        self.base.output(role)
    }

    // Counts a call of this role, which fails where it is listed.
    fn begin(&mut self, role: Role) -> Result<(), Failed>
        ensures plan { GoesByPlan self.old self.new role result }
        ensures planned { IsErr result → IsTrue (is_listed role (next_call self.old role) self.old.fails) }
        ensures ok { OnOk result (self.new.base ≡ self.old.base) }
        ensures err { OnErr result (channel_of self.new role ≡ memory.faulted (channel_of self.old role)) }
        ensures no_less { (channel_of self.old role).faults ≤ (channel_of self.new role).faults }
        ensures kept { Kept role None (channel_of self.old) (channel_of self.new) (told_files self.old) (told_files self.new) }
        ensures some { 0 < self.new.piece }
    {
        let number = self.calls[place(role)].saturating_add(1);
        self.calls[place(role)] = number;
        if lists(&self.fails, role, number) {
            return Err(self.base.fail(role));
        }
        Ok(())
    }
}

impl Host for FailingHost {
    ghost tells = { true };

    ghost channel = { channel_of };

    ghost files = { told_files };

    #[inline(always)]
    fn unnamed_law(&self) {
        self.base.unnamed_law();
    }

    fn open_read(&mut self, role: Role, name: &str) -> Result<(), Failed>
        requires input { IsInput role }
        requires unnamed { (channel_of self.old role).name ≡ None }
        ensures opens { Opens (channel_of self.old role) (channel_of self.new role) name.now result }
        ensures content { OnOk result (Offers (told_files self.old name.now) (channel_of self.new role).left) }
        ensures kept { Kept role None (channel_of self.old) (channel_of self.new) (told_files self.old) (told_files self.new) }
        ensures plan { GoesByPlan self.old self.new role result }
    {
        self.unnamed_law();
        self.begin(role)?;
        self.base.open_read(role, name)
    }

    fn create(&mut self, role: Role, name: &str) -> Result<(), Failed>
        requires created { IsCreated role }
        requires unnamed { (channel_of self.old role).name ≡ None }
        ensures opens { Opens (channel_of self.old role) (channel_of self.new role) name.now result }
        ensures kept { Kept role (channel_of self.new role).name (channel_of self.old) (channel_of self.new) (told_files self.old)
            (told_files self.new) }
        ensures plan { GoesByPlan self.old self.new role result }
    {
        self.unnamed_law();
        self.begin(role)?;
        self.base.create(role, name)
    }

    fn read(&mut self, role: Role, buf: &mut [u8]) -> Result<usize, Failed>
        requires input { IsInput role }
        requires opened { (channel_of self.old role).name ≢ None }
        ensures reads { Reads true (channel_of self.old role) (channel_of self.new role) (length buf.old) buf.new result }
        ensures kept { Kept role None (channel_of self.old) (channel_of self.new) (told_files self.old) (told_files self.new) }
        ensures plan { GoesByPlan self.old self.new role result }
        ensures planned { IsErr result → IsTrue (is_listed role (next_call self.old role) self.old.fails) }
        ensures piece { IfOk result (λ n. n ≤ self.old.piece) }
    {
        self.begin(role)?;
        let count = buf.len().min(self.piece);
        self.base.read(role, &mut buf[..count])
    }

    fn write(&mut self, role: Role, bytes: &[u8]) -> Result<usize, Failed>
        requires { IsWritable role (channel_of self.old role).name }
        ensures writes { Writes true (channel_of self.old role) (channel_of self.new role) bytes.now result }
        ensures kept { Kept role (channel_of self.old role).name (channel_of self.old) (channel_of self.new) (told_files self.old)
            (told_files self.new) }
        ensures plan { GoesByPlan self.old self.new role result }
        ensures piece { IfOk result (λ n. n ≤ self.old.piece) }
    {
        self.begin(role)?;
        let count = bytes.len().min(self.piece);
        self.base.write(role, &bytes[..count])
    }

    fn flush(&mut self, role: Role) -> Result<(), Failed>
        requires { IsWritable role (channel_of self.old role).name }
        ensures flushes { Flushes true (channel_of self.old role) (channel_of self.new role) result }
        ensures kept { Kept role (channel_of self.old role).name (channel_of self.old) (channel_of self.new) (told_files self.old)
            (told_files self.new) }
        ensures plan { GoesByPlan self.old self.new role result }
        ensures planned { IsErr result → IsTrue (is_listed role (next_call self.old role) self.old.fails) }
    {
        self.begin(role)?;
        self.base.flush(role)
    }
}
