// A line of comment, made of pieces.
ghost use Rattle.std.specs.Prelude.{◌<◌, IsTrue};
ghost use Rattle.arrayvec.specs.ArrayVec.{array_vec_len};
ghost use Rattle.solver_cli.specs.Comments.{are_comments, is_begun_comment};

use arrayvec::ArrayVec;
use itoa::{Buffer, Integer};

// The most bytes of a line, with its end.
const MOST: usize = 200;

// The most bytes of a text that are shown.
const SHOWN: usize = 100;

/// A line of comment that is still open. Line feeds in its pieces are left out, and so is what makes it longer than 200 bytes.
#[derive(Drop)]
pub struct Comment {
    bytes: ArrayVec<u8, 200>,
    ghost begun: { IsTrue (is_begun_comment bytes.items) },
    ghost room: { array_vec_len bytes < 200 },
}

impl Comment {
    /// That of no piece: `c` and a blank.
    pub fn new() -> Comment {
        let mut bytes = ArrayVec::new();
        bytes.push(b'c');
        bytes.push(b' ');
        Comment { bytes }
    }

    /// With this text behind it.
    pub fn text(mut self, text: &str) -> Comment {
        for byte in text.as_bytes() {
            self.push(*byte);
        }
        self
    }

    /// With this sentence behind it, in one line: a line feed and the blanks behind it become one blank.
    pub fn sentence(self, text: &str) -> Comment {
        let mut comment = self;
        let mut is_behind_line = false;
        for byte in text.as_bytes() {
            if *byte == b'\n' {
                is_behind_line = true;
            } else if !(is_behind_line && *byte == b' ') {
                if is_behind_line {
                    comment.push(b' ');
                }
                is_behind_line = false;
                comment.push(*byte);
            }
        }
        comment
    }

    /// With this name behind it, in quotes. A question mark stands for each of its control characters.
    pub fn name(self, name: &str) -> Comment {
        let mut comment = self.text("\"");
        for byte in name.as_bytes() {
            let shown = if *byte < b' ' || *byte == 127 {
                b'?'
            } else {
                *byte
            };
            comment.push(shown);
        }
        comment.text("\"")
    }

    /// With these bytes behind it, in quotes, a hundred at the most. A question mark stands for each that isn't a printable one of ASCII.
    pub fn shown(self, bytes: &[u8]) -> Comment {
        let mut comment = self.text("\"");
        for byte in &bytes[..bytes.len().min(SHOWN)] {
            let shown = if *byte < b' ' || *byte > b'~' {
                b'?'
            } else {
                *byte
            };
            comment.push(shown);
        }
        if bytes.len() > SHOWN {
            comment.text("\" ..")
        } else {
            comment.text("\"")
        }
    }

    /// With this number behind it.
    pub fn number<I: Integer>(self, number: I) -> Comment {
        self.text(Buffer::new().format(number))
    }

    /// The whole line.
    pub fn into_line(self) -> ArrayVec<u8, 200>
        ensures { IsTrue (are_comments result.items) }
    {
        let mut bytes = self.bytes;
        bytes.push(b'\n');
        bytes
    }

    fn push(&mut self, byte: u8) {
        if byte != b'\n' && self.bytes.len() + 1 < MOST {
            self.bytes.push(byte);
        }
    }
}
