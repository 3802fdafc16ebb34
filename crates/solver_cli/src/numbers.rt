// The clause numbers of a proof that passes by.

// Each line begins with a number: of an addition its own, of a deletion the last one.
const STRIDE: u64 = 1_000_000;

/// The greatest number so far.
#[derive(Drop)]
pub struct Numbers {
    last: u64,
    // What was read of the number at the head of a line; none behind it.
    head: Option<u64>,
}

impl Numbers {
    /// Behind a formula whose clauses have the numbers up to this one.
    pub fn behind(clauses: u64) -> Numbers {
        Numbers {
            last: clauses,
            head: Some(0),
        }
    }

    /// Numbers up to this one are in use.
    pub fn raise(&mut self, number: u64) {
        self.last = self.last.max(number);
    }

    /// The greatest number so far.
    pub fn last(&self) -> u64 {
        self.last
    }

    /// Takes bytes of the proof. The greatest number, where they bring it to the next million or beyond.
    pub fn take(&mut self, bytes: &[u8]) -> Option<u64> {
        let before = self.last / STRIDE;
        for byte in bytes {
            self.step(*byte);
        }
        if self.last / STRIDE > before {
            Some(self.last)
        } else {
            None
        }
    }

    fn step(&mut self, byte: u8) {
        if byte == b'\n' {
            self.head = Some(0);
            return;
        }
        let Some(head) = self.head else {
            return;
        };
        if byte.is_ascii_digit() {
            let digit = byte.wrapping_sub(b'0') as u64;
            self.head = Some(head.wrapping_mul(10).wrapping_add(digit));
        } else {
            self.last = self.last.max(head);
            self.head = None;
        }
    }
}
