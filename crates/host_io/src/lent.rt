// A reference to a source is a source, and one to a sink is a sink, with one lender more. So a ledger can work on a lent sink.
ghost use Rattle.host_io.specs.Beside.{beside_lent};

use crate::source::{Failed, Sink, Source};

impl<S: Source> Source for &mut S {
    ghost tells = { S.tells };

    ghost channel = { λ s. S.channel s.now };

    ghost beside = { λ s. beside_lent s.ghost_name (S.beside s.now) };

    fn read(&mut self, buf: &mut [u8]) -> Result<usize, Failed> {
        S::read(*self, buf)
    }
}

impl<S: Sink> Sink for &mut S {
    ghost tells = { S.tells };

    ghost channel = { λ s. S.channel s.now };

    ghost beside = { λ s. beside_lent s.ghost_name (S.beside s.now) };

    fn write(&mut self, bytes: &[u8]) -> Result<usize, Failed> {
        S::write(*self, bytes)
    }

    fn flush(&mut self) -> Result<(), Failed> {
        S::flush(*self)
    }
}
