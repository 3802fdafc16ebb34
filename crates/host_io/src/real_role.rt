// One role of the real host: the stream that it has, and how its calls ended. A call that a signal broke off is made again.
ghost use Rattle.std.specs.Prelude.{◌≡◌, ◌<◌, ◌≤◌, true, [], ◌∷◌, ◌++◌, length, Ok, IfOk};
ghost use Rattle.host_io.specs.Channel.{Reads, Writes, Flushes};
ghost use Rattle.host_io.specs.Files.{Opens};
ghost use Rattle.host_io.specs.Real.{unmet, took, wrote, all_flushed, told, closed, Passes, Opened, Created, Joins, Begins, begun};
ghost use Rattle.host_io.specs.Real.{IsSource, IsSink};
ghost use Rattle.host_io.specs.Port.{traffic_in, traffic_out, name_in, name_out, Settles};

use crate::port::{Input, Output, System, Tally};
use crate::role::Role;
use crate::source::Failed;
use crate::trace::Trace;
use std::fs::File;
use std::io::{Read, Stderr, Stdout, Write};
use std::marker::Model;

#[derive(Drop)]
pub(crate) enum Connection {
    Closed,
    Input(Input<File>),
    Output(Output<File>),
    Stdout(Output<Stdout>),
    Stderr(Output<Stderr>),
}

#[derive(Drop)]
pub(crate) struct RealRole {
    connection: Connection,
    tally: Tally,
}

impl Model for RealRole {
    ghost use Rattle.host_io.specs.Real.{Counted};

    ghost Value = { Counted };

    ghost use Rattle.host_io.specs.Port.{faults_of};
    ghost use Rattle.host_io.specs.Connection.{connected_of};

    ghost view = { λ r. record { device = connected_of r.connection; faults = faults_of r.tally } };
}

impl RealRole {
    pub(crate) fn new() -> Self
        ensures { result ≡ unmet }
    {
        RealRole {
            connection: Connection::Closed,
            tally: Tally::new(),
        }
    }

    /// Opens the file of this name.
    pub(crate) fn open(&mut self, system: &mut System, name: &str) -> Result<(), Failed>
        requires closed { self.old.device ≡ closed }
        ensures joins { Joins (Opened name.now) self.old self.new result }
        ensures opens { Opens (told self.old) (told self.new) name.now result }
        ensures made { system.new ≡ system.old ++ Opened name.now ∷ [] }
    {
        self.connection = Connection::Input(system.open(name, &mut self.tally)?);
        Ok(())
    }

    /// Creates the file of this name.
    pub(crate) fn create(&mut self, system: &mut System, name: &str) -> Result<(), Failed>
        requires closed { self.old.device ≡ closed }
        ensures joins { Joins (Created name.now) self.old self.new result }
        ensures opens { Opens (told self.old) (told self.new) name.now result }
        ensures made { system.new ≡ system.old ++ Created name.now ∷ [] }
    {
        self.connection = Connection::Output(system.create(name, &mut self.tally)?);
        Ok(())
    }

    /// Takes the standard stream of this role, where it has one and has not taken it yet.
    #[tactic(auto, unfolding(crate::specs::Real::begun))]
    pub(crate) fn begin(&mut self, system: &mut System, role: Role) -> Result<(), Failed>
        ensures begins { Begins role self.old self.new result }
        ensures no_less { self.old.faults ≤ self.new.faults }
        ensures made { system.new ≡ system.old ++ begun role self.old.device.target }
    {
        match (&self.connection, role) {
            (Connection::Closed, Role::Out) => {
                self.connection = Connection::Stdout(system.standard_output(&mut self.tally)?);
                Ok(())
            }
            (Connection::Closed, Role::Err) => {
                self.connection = Connection::Stderr(system.standard_error(&mut self.tally)?);
                Ok(())
            }
            _ => Ok(()),
        }
    }

    pub(crate) fn read(&mut self, buf: &mut [u8]) -> Result<usize, Failed>
        requires source { IsSource self.old.device.target }
        ensures reads { Reads true (told self.old) (told self.new) (length buf.old) buf.new result }
        ensures target { self.new.device.target ≡ self.old.device.target }
        ensures source { IsSource self.new.device.target }
        ensures passed { Passes (took buf.new) self.old.device.traffic self.new.device.traffic result }
    {
        match &mut self.connection {
            Connection::Input(input) => read(input, buf, &mut self.tally),
            _ => unreachable!(),
        }
    }

    pub(crate) fn write(&mut self, bytes: &[u8]) -> Result<usize, Failed>
        requires sink { IsSink self.old.device.target }
        ensures writes { Writes true (told self.old) (told self.new) bytes.now result }
        ensures target { self.new.device.target ≡ self.old.device.target }
        ensures sink { IsSink self.new.device.target }
        ensures passed { Passes (wrote bytes.now) self.old.device.traffic self.new.device.traffic result }
    {
        match &mut self.connection {
            Connection::Output(output) => write(output, bytes, &mut self.tally),
            Connection::Stdout(output) => write(output, bytes, &mut self.tally),
            Connection::Stderr(output) => write(output, bytes, &mut self.tally),
            _ => unreachable!(),
        }
    }

    /// Writes out the buffer.
    pub(crate) fn flush(&mut self) -> Result<(), Failed>
        ensures flushes { Flushes true (told self.old) (told self.new) result }
        ensures target { self.new.device.target ≡ self.old.device.target }
        ensures passed { Passes (λ _. all_flushed) self.old.device.traffic self.new.device.traffic result }
    {
        match &mut self.connection {
            Connection::Output(output) => flush(output, &mut self.tally),
            Connection::Stdout(output) => flush(output, &mut self.tally),
            Connection::Stderr(output) => flush(output, &mut self.tally),
            Connection::Input(_) | Connection::Closed => Ok(()),
        }
    }

    /// What is known of its calls.
    pub(crate) fn trace(&self) -> Trace {
        let (is_open, has_ended) = match &self.connection {
            Connection::Closed => (false, false),
            Connection::Input(input) => (true, input.has_ended()),
            Connection::Output(_) | Connection::Stdout(_) | Connection::Stderr(_) => (true, false),
        };
        Trace {
            is_open,
            has_ended,
            fault: self.tally.last_fault(),
        }
    }
}

fn read<R: Read + Drop>(
    input: &mut Input<R>,
    buf: &mut [u8],
    tally: &mut Tally,
) -> Result<usize, Failed>
    ensures count { IfOk result (λ n. n ≤ length buf.old) }
    ensures passed { Passes (took buf.new) (traffic_in input.old) (traffic_in input.new) result }
    ensures ended { (traffic_in input.old).ended ≡ true → result ≡ Ok 0 }
    ensures name { name_in input.new ≡ name_in input.old }
    ensures tally { Settles tally.old tally.new result }
{
    if input.has_ended() {
        return Ok(0);
    }
    'calls: while tally.may_repeat() {
        if let Some(answer) = input.read_once(buf, tally) {
            return answer;
        }
    }
    Err(tally.give_up())
}

fn write<W: Write + Drop>(
    output: &mut Output<W>,
    bytes: &[u8],
    tally: &mut Tally,
) -> Result<usize, Failed>
    ensures count { IfOk result (λ n. n ≤ length bytes.now) }
    ensures progress { IfOk result (λ n. 0 < length bytes.now → 0 < n) }
    ensures passed { Passes (wrote bytes.now) (traffic_out output.old) (traffic_out output.new) result }
    ensures name { name_out output.new ≡ name_out output.old }
    ensures tally { Settles tally.old tally.new result }
{
    'calls: while tally.may_repeat() {
        if let Some(answer) = output.write_once(bytes, tally) {
            return answer;
        }
    }
    Err(tally.give_up())
}

fn flush<W: Write + Drop>(output: &mut Output<W>, tally: &mut Tally) -> Result<(), Failed>
    ensures passed { Passes (λ _. all_flushed) (traffic_out output.old) (traffic_out output.new) result }
    ensures name { name_out output.new ≡ name_out output.old }
    ensures tally { Settles tally.old tally.new result }
{
    'calls: while tally.may_repeat() {
        if let Some(answer) = output.flush_once(tally) {
            return answer;
        }
    }
    Err(tally.give_up())
}
