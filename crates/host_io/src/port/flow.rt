// A stream of the system behind its buffer, with a log of what passed. Its calls are proved for every stream: `known` says
// what each does to the bytes of a stream that tells them, and the logs are moved by these calls alone.
ghost use Rattle.std.specs.Prelude.{◌≡◌, ◌≤◌, ◌<◌, [], length, MatchOption, Ok, Err, IfSome, IfOk, IfErr, OnOk, ◌⊎◌};
ghost use Rattle.std.specs.IoError.{error_kind};
ghost use Rattle.std.specs.Io.Buffered.{reader_inner, reader_remaining, writer_inner, writer_contents, writer_buffer};
ghost use Rattle.std.specs.Io.KnownBytes.{Keeps, ReadConsumes, WriteAppends};
ghost use Rattle.host_io.specs.Real.{no_traffic, took, wrote, all_flushed, Passes};
ghost use Rattle.host_io.specs.Port.{traffic_in, traffic_out, name_in, name_out, Answers};

use super::Named;
use super::tally::Tally;
use crate::log::Log;
use crate::source::Failed;
use std::alloc::Global;
use std::io;
use std::io::{BufReader, BufWriter, ErrorKind, Read, Write};

// The bytes that are read or written at a time.
const BUFFER: usize = 65536;

/// A stream of the system that is read: the name of its file, what was taken from it, and whether it told its end.
#[derive(Drop)]
pub(crate) struct Input<R> {
    name: Log,
    stream: BufReader<R>,
    taken: Log,
    ended: bool,
}

/// A stream of the system that is written: the name of its file, none of a standard stream, what was written to it, and
/// what of that was flushed.
#[derive(Drop)]
pub(crate) struct Output<W: Write + Drop> {
    name: Log,
    stream: BufWriter<W>,
    written: Log,
    flushed: Log,
}

impl<R: Read + Drop> Input<R> {
    /// This stream, behind a buffer.
    pub(super) fn new(alloc: Global, named: Named<R>) -> io::Result<Self>
        ensures inner { IfOk result (λ input. reader_inner input.stream ≡ named.stream) }
        ensures name { IfOk result (λ input. name_in input ≡ named.name.bytes) }
        ensures passed { IfOk result (λ input. traffic_in input ≡ no_traffic) }
        ensures err { IfErr result (λ e. error_kind e ≡ ErrorKind.OutOfMemory) }
    {
        let Named { name, stream } = named;
        Ok(Input {
            name,
            stream: BufReader::with_capacity(alloc, BUFFER, stream)?,
            taken: Log::new(),
            ended: false,
        })
    }

    /// Whether a read met the end.
    pub(crate) fn has_ended(&self) -> bool
        ensures { result ≡ (traffic_in self.now).ended }
    {
        self.ended
    }

    /// One read.
    pub(crate) fn read_once(
        &mut self,
        buf: &mut [u8],
        tally: &mut Tally,
    ) -> Option<Result<usize, Failed>>
        ensures known { MatchOption result
            (Keeps (reader_remaining R.remaining self.old.stream) (reader_remaining R.remaining self.new.stream))
            (λ answer. ReadConsumes (reader_remaining R.remaining self.old.stream) (reader_remaining R.remaining self.new.stream)
            answer buf.new) }
        ensures count { IfSome result (λ answer. IfOk answer (λ n. n ≤ length buf.new)) }
        ensures passed { MatchOption result (traffic_in self.new ≡ traffic_in self.old)
            (λ answer. Passes (took buf.new) (traffic_in self.old) (traffic_in self.new) answer) }
        ensures name { name_in self.new ≡ name_in self.old }
        ensures tally { Answers tally.old tally.new result }
    {
        let answer = tally.note(self.stream.read(buf));
        if let Some(Ok(count)) = answer {
            self.taken = self.taken.and(&buf[..count]);
            self.ended = self.ended || count == 0 && !buf.is_empty();
        }
        answer
    }
}

impl<W: Write + Drop> Output<W> {
    /// This stream, behind a buffer.
    pub(super) fn new(alloc: Global, named: Named<W>) -> io::Result<Self>
        ensures inner { IfOk result (λ output. writer_inner output.stream ≡ named.stream) }
        ensures name { IfOk result (λ output. name_out output ≡ named.name.bytes) }
        ensures passed { IfOk result (λ output. traffic_out output ≡ no_traffic) }
        ensures err { IfErr result (λ e. error_kind e ≡ ErrorKind.OutOfMemory) }
    {
        let Named { name, stream } = named;
        Ok(Output {
            name,
            stream: BufWriter::with_capacity(alloc, BUFFER, stream)?,
            written: Log::new(),
            flushed: Log::new(),
        })
    }

    /// One write. One that takes nothing of a piece that isn't empty has failed, so that every loop over writes ends.
    pub(crate) fn write_once(
        &mut self,
        bytes: &[u8],
        tally: &mut Tally,
    ) -> Option<Result<usize, Failed>>
        ensures known { MatchOption result
            (Keeps (writer_contents W.contents self.old.stream) (writer_contents W.contents self.new.stream))
            (λ answer. WriteAppends (writer_contents W.contents self.old.stream) (writer_contents W.contents self.new.stream)
            answer bytes.now) }
        ensures count { IfSome result (λ answer. IfOk answer (λ n. n ≤ length bytes.now)) }
        ensures progress { IfSome result (λ answer. IfOk answer (λ n. 0 < length bytes.now → 0 < n)) }
        ensures passed { MatchOption result (traffic_out self.new ≡ traffic_out self.old)
            (λ answer. Passes (wrote bytes.now) (traffic_out self.old) (traffic_out self.new) answer) }
        ensures name { name_out self.new ≡ name_out self.old }
        ensures tally { Answers tally.old tally.new result }
    {
        // What the buffer takes is told apart at once, since an answer of the system is a large value to hand on.
        let count = match self.stream.write(bytes) {
            Ok(count) => count,
            Err(e) => return tally.note(Err(e)),
        };
        if count == 0 && !bytes.is_empty() {
            return Some(Err(tally.fail(ErrorKind::WriteZero)));
        }
        self.written = self.written.and(&bytes[..count]);
        Some(Ok(count))
    }

    /// One flush.
    pub(crate) fn flush_once(&mut self, tally: &mut Tally) -> Option<Result<(), Failed>>
        ensures known { Keeps (writer_contents W.contents self.old.stream) (writer_contents W.contents self.new.stream) }
        ensures empty { IfSome result (λ answer. OnOk answer (writer_buffer self.new.stream ≡ [])) }
        ensures passed { MatchOption result (traffic_out self.new ≡ traffic_out self.old)
            (λ answer. Passes (λ _. all_flushed) (traffic_out self.old) (traffic_out self.new) answer) }
        ensures name { name_out self.new ≡ name_out self.old }
        ensures tally { Answers tally.old tally.new result }
    {
        let answer = tally.note(self.stream.flush());
        if let Some(Ok(())) = answer {
            self.flushed = self.written.and(&[]);
        }
        answer
    }
}
