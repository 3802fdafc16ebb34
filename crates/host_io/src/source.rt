// Streams of bytes as the layers above see them: sources are read, sinks are written. Both are told as a
// `Channel`, so that a role of a host, lent as a source or a sink, keeps its meanings.
ghost use Rattle.std.specs.Prelude.{◌≡◌, Bool, length};
ghost use Rattle.host_io.specs.Channel.{Channel, Reads, Writes, Flushes};
ghost use Rattle.host_io.specs.Beside.{Beside};

use thiserror::Error;

/// A call of the outside failed. It was counted, and moved nothing.
#[derive(Clone, Copy, Debug, PartialEq, Eq, Error)]
#[error("the host call failed")]
pub struct Failed;

/// A stream of bytes that is read to its end.
pub trait Source {
    /// Whether the bytes are told: what was taken and what is left. Names and counts always are.
    ghost tells: { Bool };

    ghost channel: { Self → Channel };

    /// Which object it lends, and the rest of that object. No call changes it.
    ghost beside: { Self → Beside };

    /// Takes bytes from the front of what is left into the front of the buffer, and answers their number.
    /// 0 for a buffer that isn't empty is the end.
    fn read(&mut self, buf: &mut [u8]) -> Result<usize, Failed>
        ensures reads { Reads tells (channel self.old) (channel self.new) (length buf.old) buf.new result }
        ensures beside { beside self.new ≡ beside self.old };
}

/// A stream of bytes that is written.
pub trait Sink {
    /// Whether the bytes are told: what was written and how much of it is flushed.
    ghost tells: { Bool };

    ghost channel: { Self → Channel };

    ghost beside: { Self → Beside };

    /// Writes bytes from the front of the piece, and answers their number, at least 1 of a piece that isn't
    /// empty.
    fn write(&mut self, bytes: &[u8]) -> Result<usize, Failed>
        ensures writes { Writes tells (channel self.old) (channel self.new) bytes.now result }
        ensures beside { beside self.new ≡ beside self.old };

    /// Hands all that was written to where it stays.
    fn flush(&mut self) -> Result<(), Failed>
        ensures flushes { Flushes tells (channel self.old) (channel self.new) result }
        ensures beside { beside self.new ≡ beside self.old };
}
