// Bytes that only contracts see. They take no memory and no time.
ghost use Rattle.std.specs.Prelude.{◌≡◌, ℕ, List, [], ◌++◌};
ghost use Rattle.std.specs.Borrow.{ftrue};

use std::marker::Model;

#[derive(Drop)]
pub(crate) struct Log {
    pub(crate) ghost bytes: { List ℕ },
}

impl Model for Log {
    ghost also_owns = { λ _. ftrue };
}

// Bytes that a log is to note.
#[derive(Clone, Copy, Drop)]
struct Piece<'a> {
    bytes: &'a [u8],
}

impl Log {
    /// No byte.
    pub(crate) fn new() -> Log
        ensures { result.bytes ≡ [] }
    {
        Log {}
    }

    /// The bytes of this text.
    pub(crate) fn of(text: &str) -> Log
        ensures { result.bytes ≡ text.now }
    {
        Log::new().and(text.as_bytes())
    }

    /// These bytes more.
    #[inline(always)]
    pub(crate) fn and(&self, bytes: &[u8]) -> Log
        ensures { result.bytes ≡ self.now.bytes ++ bytes.now }
    {
        self.then(&Piece { bytes })
    }

    #[inline(always)]
    fn then(&self, _piece: &Piece<'_>) -> Log
        ensures { result.bytes ≡ self.now.bytes ++ _piece.now.bytes.now }
    {
        Log {}
    }
}
