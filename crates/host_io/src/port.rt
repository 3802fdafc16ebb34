// The calls of the system that give a stream: all that is trusted of the real host. `File::open` and `File::create` are to
// reach the file of this name, and `stdout` and `stderr` the stream of their type, whose reads and writes are to be those that
// std's `Read` and `Write` describe. Each stands in one line, behind the line that notes what it asks for: so nothing is asked for
// that the list of what was made doesn't tell. It tells what the system refused as well. `env::args` is to be the command line.
ghost use Rattle.std.specs.Prelude.{◌≡◌, [], ◌∷◌, ◌++◌, IfOk};
ghost use Rattle.host_io.specs.Real.{no_traffic, Opened, Created, StandardOutput, StandardError};
ghost use Rattle.host_io.specs.Port.{traffic_in, traffic_out, name_in, name_out, Settles};

mod flow;
mod open_files;
mod tally;

use crate::log::Log;
use crate::made::Made;
use crate::reach::Reach;
use crate::source::Failed;
pub(crate) use flow::{Input, Output};
use open_files::OpenFiles;
use std::env::Args;
use std::fs::File;
use std::io::{ErrorKind, Stderr, Stdout};
use std::marker::Model;
use std::{env, io};
pub(crate) use tally::Tally;

// Opened to be held while the program runs: a standard stream that is closed at the start would else be the next file that is
// opened, and the proof's file would get the answer. So it is one that refuses each write.
const NOTHING: &str = "/dev/null";

/// The handle of the system, which only this file can use. A contract sees what it was asked for, in order.
#[derive(Drop)]
pub(crate) struct System {
    rt: HostRuntime,
    made: Made,
    open: OpenFiles,
    held: [Option<Named<File>>; 3],
}

impl Model for System {
    ghost use Rattle.std.specs.Prelude.{List};
    ghost use Rattle.host_io.specs.Real.{Target};

    ghost Value = { List Target };

    ghost view = { λ s. s.made.targets };
}

// A stream of the system, with the name by which its file was opened or created; a standard stream has none.
#[derive(Drop)]
struct Named<S> {
    name: Log,
    stream: S,
}

impl System {
    /// Nothing was asked for yet.
    pub(crate) fn new(rt: HostRuntime) -> Self
        ensures { result ≡ [] }
    {
        System {
            rt,
            made: Made::new(),
            open: OpenFiles::new(),
            held: [None, None, None],
        }
    }

    /// `/dev/null` was asked for three times and is held from now on, as often as it was opened. Nothing else was asked for.
    pub(crate) fn holding(rt: HostRuntime) -> Self
        ensures { result ≡ Opened NOTHING.now ∷ Opened NOTHING.now ∷ Opened NOTHING.now ∷ [] }
    {
        let mut system = System::new(rt);
        let first = system.opened(NOTHING).ok();
        let second = system.opened(NOTHING).ok();
        let third = system.opened(NOTHING).ok();
        system.held = [first, second, third];
        system
    }

    /// The words of the command line, or why they can't be had.
    pub(crate) fn words(&self) -> Result<Args, ErrorKind> {
        match env::args(&self.rt) {
            Ok(words) => Ok(words),
            Err(error) => Err(error.kind()),
        }
    }

    // Trusted: the file of this name, opened.
    fn opened(&mut self, name: &str) -> io::Result<Named<File>>
        ensures name { IfOk result (λ file. file.name.bytes ≡ name.now) }
        ensures made { self.new ≡ self.old ++ Opened name.now ∷ [] }
    {
        self.made = self.made.and(&Reach::Opened(name));
        let stream = File::open(&self.rt, name)?;
        self.open.note(&stream)?;
        Ok(Named {
            name: Log::of(name),
            stream,
        })
    }

    // Trusted: the file of this name, created, unless it is open.
    fn created(&mut self, name: &str) -> io::Result<Named<File>>
        ensures name { IfOk result (λ file. file.name.bytes ≡ name.now) }
        ensures made { self.new ≡ self.old ++ Created name.now ∷ [] }
    {
        self.made = self.made.and(&Reach::Created(name));
        self.open.refuse(&self.rt, name)?;
        let stream = File::create(&self.rt, name)?;
        self.open.note(&stream)?;
        Ok(Named {
            name: Log::of(name),
            stream,
        })
    }

    /// The file of this name, opened.
    pub(crate) fn open(&mut self, name: &str, tally: &mut Tally) -> Result<Input<File>, Failed>
        ensures name { IfOk result (λ input. name_in input ≡ name.now) }
        ensures passed { IfOk result (λ input. traffic_in input ≡ no_traffic) }
        ensures made { self.new ≡ self.old ++ Opened name.now ∷ [] }
        ensures tally { Settles tally.old tally.new result }
    {
        let file = tally.settle(self.opened(name))?;
        tally.settle(Input::new(self.rt.alloc(), file))
    }

    /// The file of this name, created.
    pub(crate) fn create(&mut self, name: &str, tally: &mut Tally) -> Result<Output<File>, Failed>
        ensures name { IfOk result (λ output. name_out output ≡ name.now) }
        ensures passed { IfOk result (λ output. traffic_out output ≡ no_traffic) }
        ensures made { self.new ≡ self.old ++ Created name.now ∷ [] }
        ensures tally { Settles tally.old tally.new result }
    {
        let file = tally.settle(self.created(name))?;
        tally.settle(Output::new(self.rt.alloc(), file))
    }

    /// Standard output.
    pub(crate) fn standard_output(&mut self, tally: &mut Tally) -> Result<Output<Stdout>, Failed>
        ensures passed { IfOk result (λ output. traffic_out output ≡ no_traffic) }
        ensures made { self.new ≡ self.old ++ StandardOutput ∷ [] }
        ensures tally { Settles tally.old tally.new result }
    {
        self.made = self.made.and(&Reach::Output);
        let stream = Named {
            name: Log::new(),
            stream: self.rt.stdout(),
        };
        tally.settle(Output::new(self.rt.alloc(), stream))
    }

    /// Standard error.
    pub(crate) fn standard_error(&mut self, tally: &mut Tally) -> Result<Output<Stderr>, Failed>
        ensures passed { IfOk result (λ output. traffic_out output ≡ no_traffic) }
        ensures made { self.new ≡ self.old ++ StandardError ∷ [] }
        ensures tally { Settles tally.old tally.new result }
    {
        self.made = self.made.and(&Reach::Error);
        let stream = Named {
            name: Log::new(),
            stream: self.rt.stderr(),
        };
        tally.settle(Output::new(self.rt.alloc(), stream))
    }
}
