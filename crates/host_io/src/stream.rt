// One role of a host in memory: what it reads from a copy of its file, and what it writes.
ghost use Rattle.std.specs.Prelude.{◌≡◌, ◌≤◌, true, None, Some, Ok, length};
ghost use Rattle.host_io.specs.Channel.{Channel, Held, Reads, Writes, Flushes};
ghost use Rattle.host_io.specs.Files.{IsIdle};
ghost use Rattle.host_io.specs.Beside.{is_named};
ghost use Rattle.host_io.specs.Memory.{fresh, faulted};

use crate::source::Failed;
use std::alloc::Global;
use std::marker::Model;

#[derive(Drop)]
pub(crate) struct Stream {
    name: Option<Vec<u8>>,
    faults: u64,
    input: Vec<u8>,
    position: usize,
    output: Vec<u8>,
    flushed: usize,
}

impl Model for Stream {
    ghost use Rattle.std.specs.Prelude.{◌≤◌, take, drop, vec_len};
    ghost use Rattle.std.specs.Option.{option_map};
    ghost use Rattle.host_io.specs.Channel.{Channel, Held};

    ghost Value = { Channel };

    ghost view = { λ s. record {
      name = option_map (λ name. name.items) s.name;
      faults = s.faults;
      taken = take s.position s.input.items;
      left = Held (drop s.position s.input.items);
      written = s.output.items;
      flushed = s.flushed;
    } };

    ghost invariant = { λ s. s.position ≤ vec_len s.input };
}

impl Stream {
    pub(crate) fn new(alloc: Global) -> Self
        ensures { result ≡ fresh }
    {
        Stream {
            name: None,
            faults: 0,
            input: Vec::new(alloc),
            position: 0,
            output: Vec::new(alloc),
            flushed: 0,
        }
    }

    /// What was written.
    pub(crate) fn output(&self) -> &[u8]
        ensures { result.now ≡ self.now.written }
    {
        &self.output
    }

    /// Whether this is its name.
    pub(crate) fn is_named(&self, name: &str) -> bool
        ensures { result ≡ is_named self.now.name name.now }
    {
        match &self.name {
            None => false,
            Some(own) => own.as_slice() == name.as_bytes(),
        }
    }

    /// Takes this name, and reads these bytes from now on.
    pub(crate) fn open(&mut self, name: Vec<u8>, input: Vec<u8>)
        requires { IsIdle self.old }
        ensures { self.new ≡ record fresh { name = Some name.items; faults = self.old.faults; left = Held input.items } }
    {
        self.name = Some(name);
        self.input = input;
        self.position = 0;
    }

    /// Counts a fault.
    pub(crate) fn fail(&mut self) -> Failed
        ensures faulted { self.new ≡ faulted self.old }
        ensures no_less { self.old.faults ≤ self.new.faults }
    {
        self.faults = self.faults.saturating_add(1);
        Failed
    }

    pub(crate) fn read(&mut self, buf: &mut [u8]) -> usize
        ensures { Reads true self.old self.new (length buf.old) buf.new (Ok result) }
    {
        let left = &self.input[self.position..];
        let count = left.len().min(buf.len());
        buf[..count].copy_from_slice(&left[..count]);
        self.position += count;
        count
    }

    pub(crate) fn write(&mut self, bytes: &[u8]) -> Result<usize, Failed>
        ensures { Writes true self.old self.new bytes.now result }
    {
        if self.output.extend_from_slice(bytes).is_err() {
            return Err(self.fail());
        }
        Ok(bytes.len())
    }

    pub(crate) fn flush(&mut self)
        ensures { self.new ≡ record self.old { flushed = length self.old.written } }
    {
        self.flushed = self.output.len();
    }
}
