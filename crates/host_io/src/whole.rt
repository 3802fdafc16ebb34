// A whole piece written to a sink, which may take it in parts, and a whole buffer read from a source.
ghost use Rattle.std.specs.Prelude.{◌≡◌, length};
ghost use Rattle.host_io.specs.Channel.{WritesAll, Fills};

use crate::source::{Failed, Sink, Source};

/// Writes all of the bytes. Where a write fails, a front of them was written.
pub fn write_all<S: Sink>(sink: &mut S, bytes: &[u8]) -> Result<(), Failed>
    ensures writes { WritesAll S.tells (S.channel sink.old) (S.channel sink.new) bytes.now result }
    ensures beside { S.beside sink.new ≡ S.beside sink.old }
{
    let mut done = 0;
    'pieces: while done < bytes.len() {
        let written = sink.write(&bytes[done..])?;
        done += written;
    }
    Ok(())
}

/// Reads until the buffer is full or the input ends, and answers the number of bytes.
pub fn fill<S: Source>(source: &mut S, buf: &mut [u8]) -> Result<usize, Failed>
    ensures fills { Fills S.tells (S.channel source.old) (S.channel source.new) (length buf.old) buf.new result }
    ensures beside { S.beside source.new ≡ S.beside source.old }
{
    let mut done = 0;
    'pieces: while done < buf.len() {
        let count = source.read(&mut buf[done..])?;
        if count == 0 {
            return Ok(done);
        }
        done += count;
    }
    Ok(done)
}
