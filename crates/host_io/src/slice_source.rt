// Bytes in memory as a source, read in pieces: for readers of texts that are there already, and for tests of readers,
// with reads that fail.
ghost use Rattle.std.specs.Prelude.{◌≡◌, ◌↔◌, ◌+◌, ◌-◌, ◌^◌, ◌≤◌, max, min, None, Some, length, IsErr, IfOk};
ghost use Rattle.host_io.specs.Channel.{Reads};
ghost use Rattle.host_io.specs.Slice.{channel_of, left_of};

use crate::source::{Failed, Source};
use std::marker::Model;

/// Bytes in memory, of which a read takes at most `piece`. It may be told at which place reads fail.
#[derive(Drop)]
pub struct SliceSource<'a> {
    bytes: &'a [u8],
    position: usize,
    piece: usize,
    fails_at: Option<usize>,
    faults: u64,
    reads: u64,
}

impl<'a> Model for SliceSource<'a> {
    ghost use Rattle.std.specs.Prelude.{◌<◌, ◌≤◌, length};
    ghost use Rattle.host_io.specs.Slice.{Slice};

    ghost Value = { Slice };

    ghost view = { λ s. record {
      bytes = s.bytes.now;
      position = s.position;
      piece = s.piece;
      fails_at = s.fails_at;
      faults = s.faults;
      reads = s.reads;
    } };

    ghost invariant = { λ s. (s.position ≤ length s.bytes.now) × (0 < s.piece) };
}

impl<'a> SliceSource<'a> {
    /// A read takes at most `piece` of the bytes (0 counts as 1), and none fails.
    pub fn new(bytes: &'a [u8], piece: usize) -> Self
        ensures { result ≡ record { bytes = bytes.now; position = 0; piece = max piece 1; fails_at = None; faults = 0; reads = 0 } }
    {
        SliceSource {
            bytes,
            position: 0,
            piece: piece.max(1),
            fails_at: None,
            faults: 0,
            reads: 0,
        }
    }

    /// From now on each read with so many bytes left fails; with None no read does.
    pub fn fail_at(&mut self, left: Option<usize>)
        ensures { self.new ≡ record self.old { fails_at = left } }
    {
        self.fails_at = left;
    }

    /// How many reads failed.
    pub fn faults(&self) -> u64
        ensures { result ≡ self.now.faults }
    {
        self.faults
    }

    /// How many reads there were.
    pub fn reads(&self) -> u64
        ensures { result ≡ self.now.reads }
    {
        self.reads
    }
}

impl Source for SliceSource<'_> {
    ghost use Rattle.std.specs.Prelude.{true, None, []};

    ghost tells = { true };

    ghost channel = { channel_of };

    ghost beside = { λ _. record { lenders = []; rest = None } };

    fn read(&mut self, buf: &mut [u8]) -> Result<usize, Failed>
        ensures reads { Reads true (channel_of self.old) (channel_of self.new) (length buf.old) buf.new result }
        ensures planned { IsErr result ↔ (self.old.fails_at ≡ Some (length (left_of self.old))) }
        ensures piece { IfOk result (λ n. n ≤ self.old.piece) }
        ensures counted { self.new.reads ≡ min (self.old.reads + 1) (2 ^ 64 - 1) }
    {
        self.reads = self.reads.saturating_add(1);
        let left = &self.bytes[self.position..];
        if self.fails_at == Some(left.len()) {
            self.faults = self.faults.saturating_add(1);
            return Err(Failed);
        }
        let count = left.len().min(self.piece).min(buf.len());
        buf[..count].copy_from_slice(&left[..count]);
        self.position += count;
        Ok(count)
    }
}
