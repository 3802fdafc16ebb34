// A sink without an end, for what is written only to see how much it would be.
ghost use Rattle.std.specs.Prelude.{Ok, length};
ghost use Rattle.host_io.specs.Idle.{idle_channel, nothing_beside};

use crate::source::{Failed, Sink};

/// Drops all bytes that are written to it, and tells none. No call of it fails.
#[derive(Drop)]
pub struct NoSink;

impl Sink for NoSink {
    ghost use Rattle.std.specs.Prelude.{false};

    ghost tells = { false };

    ghost channel = { λ _. idle_channel };

    ghost beside = { λ _. nothing_beside };

    fn write(&mut self, bytes: &[u8]) -> Result<usize, Failed> {
        Ok(bytes.len())
    }

    fn flush(&mut self) -> Result<(), Failed> {
        Ok(())
    }
}
