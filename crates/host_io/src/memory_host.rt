// A host that keeps its files in memory and tells all. Each role reads a copy of its file, so that no call of
// one role is met by another. Reads and flushes never fail.
ghost use Rattle.std.specs.Prelude.{◌≡◌, ◌≢◌, ◌≤◌, List, ℕ, None, Some, true, length, IsOk, IfSome, OnOk, OnErr};
ghost use Rattle.std.specs.Option.{option_copied};
ghost use Rattle.host_io.specs.declared.role.Role.{Role};
ghost use Rattle.host_io.specs.declared.role.Role.TheVariants.{ProofOut, Made};
ghost use Rattle.host_io.specs.Channel.{Channel, Reads, Writes, Flushes};
ghost use Rattle.host_io.specs.Files.{IsInput, IsWritable, Kept};
ghost use Rattle.host_io.specs.Memory.{Memory, fresh, faulted, channel_of, files_of, told_files, stored, IsUnnamed, AddsFile};

use crate::host::Host;
use crate::role::{Role, place};
use crate::source::Failed;
use crate::stream::Stream;
use std::alloc::{AllocError, AllocFailed, Global};
use std::marker::Model;
use thiserror::Error;

/// No memory was left.
#[derive(Clone, Copy, Debug, Error)]
#[error("out of memory")]
pub struct HostOutOfMemory;

impl From<AllocError> for HostOutOfMemory {
    fn from(_: AllocError) -> Self {
        HostOutOfMemory
    }
}

impl<T: Drop> From<AllocFailed<T>> for HostOutOfMemory {
    fn from(_: AllocFailed<T>) -> Self {
        HostOutOfMemory
    }
}

// A file of this name.
#[derive(Drop)]
struct StoredFile {
    name: Vec<u8>,
    bytes: Vec<u8>,
}

impl Model for StoredFile {
    ghost use Rattle.std.specs.Prelude.{List, ℕ};

    ghost Value = { List ℕ × List ℕ };

    ghost view = { λ f. (f.name.items, f.bytes.items) };
}

#[derive(Drop)]
pub struct MemoryHost {
    alloc: Global,
    streams: [Stream; 10],
    files: Vec<StoredFile>,
}

impl Model for MemoryHost {
    ghost use Rattle.host_io.specs.Memory.{Memory, IsSettled};

    ghost Value = { Memory };

    ghost view = { λ h. record { streams = h.streams; files = h.files.items } };

    ghost invariant = { λ h. IsSettled h.streams };
}

impl MemoryHost {
    /// No file, and no role met yet.
    pub fn new(alloc: Global) -> Self
        ensures channels { (role : Role) → channel_of result role ≡ fresh }
        ensures files { (name : List ℕ) → files_of result name ≡ None }
    {
        MemoryHost {
            alloc,
            streams: [
                Stream::new(alloc),
                Stream::new(alloc),
                Stream::new(alloc),
                Stream::new(alloc),
                Stream::new(alloc),
                Stream::new(alloc),
                Stream::new(alloc),
                Stream::new(alloc),
                Stream::new(alloc),
                Stream::new(alloc),
            ],
            files: Vec::new(alloc),
        }
    }

    /// Adds a file, or replaces the one of this name.
    pub fn add_file(&mut self, name: &str, bytes: &[u8]) -> Result<(), HostOutOfMemory>
        requires { IsUnnamed self.old }
        ensures ok { OnOk result (AddsFile self.old self.new name.now bytes.now) }
        ensures err { OnErr result (self.new ≡ self.old) }
    {
        let file = StoredFile {
            name: name.as_bytes().to_vec(self.alloc)?,
            bytes: bytes.to_vec(self.alloc)?,
        };
        self.files.insert(0, file)?;
        Ok(())
    }

    /// What the role has written.
    pub fn output(&self, role: Role) -> &[u8]
        ensures { result.now ≡ (channel_of self.now role).written }
    {
        self.streams[place(role)].output()
    }

    /// The file of this name, if there is one.
    pub fn file(&self, name: &str) -> Option<&[u8]>
        ensures file { option_copied result ≡ files_of self.now name.now }

        // a created file is what its role wrote
        ensures made { (channel_of self.now Made).name ≡ Some name.now → option_copied result ≡ Some (channel_of self.now Made).written }
        ensures proof_out { (channel_of self.now ProofOut).name ≡ Some name.now → (channel_of self.now Made).name ≢ Some name.now
            → option_copied result ≡ Some (channel_of self.now ProofOut).written }
    {
        let made = &self.streams[place(Role::Made)];
        if made.is_named(name) {
            return Some(made.output());
        }
        let proof_out = &self.streams[place(Role::ProofOut)];
        if proof_out.is_named(name) {
            return Some(proof_out.output());
        }
        find(&self.files, name)
    }

    /// Counts a fault in this role.
    pub(crate) fn fail(&mut self, role: Role) -> Failed
        ensures faulted { channel_of self.new role ≡ faulted (channel_of self.old role) }
        ensures no_less { (channel_of self.old role).faults ≤ (channel_of self.new role).faults }
        ensures kept { Kept role None (channel_of self.old) (channel_of self.new) (told_files self.old) (told_files self.new) }
    {
        self.streams[place(role)].fail()
    }

    // Copies of this name and of the file that has it.
    fn copies(&self, name: &str) -> Option<(Vec<u8>, Vec<u8>)>
        ensures { IfSome result (λ copies. (copies.0.items ≡ name.now) × (files_of self.now name.now ≡ Some copies.1.items)) }
    {
        let bytes = self.file(name)?.to_vec(self.alloc).ok()?;
        let name = name.as_bytes().to_vec(self.alloc).ok()?;
        Some((name, bytes))
    }
}

// The newest of the files that has this name.
fn find<'a>(files: &'a [StoredFile], name: &str) -> Option<&'a [u8]>
    ensures { option_copied result ≡ stored files.now name.now }
{
    for file in files {
        if file.name.as_slice() == name.as_bytes() {
            return Some(&file.bytes);
        }
    }
    None
}

impl Host for MemoryHost {
    ghost tells = { true };

    ghost channel = { channel_of };

    ghost files = { told_files };

    #[inline(always)]
    fn unnamed_law(&self) {
        let _ = &self.streams;
    }

    fn open_read(&mut self, role: Role, name: &str) -> Result<(), Failed> {
        self.unnamed_law();
        match self.copies(name) {
            Some((name, bytes)) => {
                self.streams[place(role)].open(name, bytes);
                Ok(())
            }
            None => Err(self.fail(role)),
        }
    }

    fn create(&mut self, role: Role, name: &str) -> Result<(), Failed> {
        self.unnamed_law();
        match name.as_bytes().to_vec(self.alloc) {
            Ok(name) => {
                self.streams[place(role)].open(name, Vec::new(self.alloc));
                Ok(())
            }
            Err(_) => Err(self.fail(role)),
        }
    }

    fn read(&mut self, role: Role, buf: &mut [u8]) -> Result<usize, Failed>
        requires input { IsInput role }
        requires opened { (channel_of self.old role).name ≢ None }
        ensures reads { Reads true (channel_of self.old role) (channel_of self.new role) (length buf.old) buf.new result }
        ensures kept { Kept role None (channel_of self.old) (channel_of self.new) (told_files self.old) (told_files self.new) }
        ensures succeeds { IsOk result }
    {
        Ok(self.streams[place(role)].read(buf))
    }

    fn write(&mut self, role: Role, bytes: &[u8]) -> Result<usize, Failed> {
        self.streams[place(role)].write(bytes)
    }

    fn flush(&mut self, role: Role) -> Result<(), Failed>
        requires { IsWritable role (channel_of self.old role).name }
        ensures flushes { Flushes true (channel_of self.old role) (channel_of self.new role) result }
        ensures kept { Kept role (channel_of self.old role).name (channel_of self.old) (channel_of self.new) (told_files self.old)
            (told_files self.new) }
        ensures succeeds { IsOk result }
    {
        self.streams[place(role)].flush();
        Ok(())
    }
}
