// A small buffer before a sink. A text that is made of many small pieces is collected on the stack, and handed to the
// sink where the buffer is full: no memory is taken, and few writes are made.
ghost use Rattle.std.specs.Prelude.{◌≡◌, [], ◌++◌};
ghost use Rattle.host_io.specs.Emitted.{Emits};

use crate::source::{Failed, Sink};
use crate::whole::write_all;
use arrayvec::ArrayVec;
use itoa::{Buffer, Integer};

/// What is held back of a text, at most 512 bytes. It begins empty; at the end of the text its bytes are still to be
/// written.
pub type HeldBytes = ArrayVec<u8, 512>;

/// Puts bytes behind those that are held back; where they don't fit, writes what is held back first. Where a write
/// fails, a front of what was held back and of the bytes was written, and what is held back then is of no use. Takes no
/// memory and flushes nothing.
pub fn emit<S: Sink>(sink: &mut S, held: &mut HeldBytes, piece: &[u8]) -> Result<(), Failed>
    ensures emits { Emits S.tells (S.channel sink.old) (S.channel sink.new) held.old.items held.new.items piece.now result }
    ensures beside { S.beside sink.new ≡ S.beside sink.old }
{
    match held.try_extend_from_slice(piece) {
        Ok(()) => Ok(()),
        Err(_) => {
            write_all(sink, held.as_slice())?;
            held.clear();
            emit_first(sink, held, piece)
        }
    }
}

// The same where nothing is held back; bytes that don't fit the whole buffer are written at once.
fn emit_first<S: Sink>(sink: &mut S, held: &mut HeldBytes, piece: &[u8]) -> Result<(), Failed>
    requires { held.old.items ≡ [] }
    ensures emits { Emits S.tells (S.channel sink.old) (S.channel sink.new) held.old.items held.new.items piece.now result }
    ensures beside { S.beside sink.new ≡ S.beside sink.old }
{
    match held.try_extend_from_slice(piece) {
        Ok(()) => Ok(()),
        Err(_) => write_all(sink, piece),
    }
}

/// Puts what leads a number in, and the number in decimal digits, behind a minus sign where it is negative. As `emit`
/// for both pieces in turn.
pub fn emit_number<S: Sink, I: Integer>(
    sink: &mut S,
    held: &mut HeldBytes,
    lead: &[u8],
    number: I,
) -> Result<(), Failed>
    ensures emits { Emits S.tells (S.channel sink.old) (S.channel sink.new) held.old.items held.new.items (lead.now
        ++ I.text number) result }
    ensures beside { S.beside sink.new ≡ S.beside sink.old }
{
    emit(sink, held, lead)?;
    emit(sink, held, Buffer::new().format(number).as_bytes())
}
