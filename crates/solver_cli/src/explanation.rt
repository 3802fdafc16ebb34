// Lines of comment, one behind another.
ghost use Rattle.std.specs.Prelude.{IsTrue};
ghost use Rattle.solver_cli.specs.Comments.{are_comments};

use crate::comment::Comment;
use arrayvec::ArrayVec;

/// Lines of comment, 2,000 bytes at the most. A line for which there is no room is left out.
#[derive(Drop)]
pub struct Explanation {
    bytes: ArrayVec<u8, 2000>,
    ghost whole: { IsTrue (are_comments bytes.items) },
}

impl Explanation {
    /// No line.
    pub fn new() -> Explanation {
        Explanation {
            bytes: ArrayVec::new(),
        }
    }

    /// With this line behind them.
    pub fn line(mut self, comment: Comment) -> Explanation {
        let line = comment.into_line();
        self.push(line.as_slice());
        self
    }

    /// With a line of this text behind them.
    pub fn text(self, text: &str) -> Explanation {
        self.line(Comment::new().text(text))
    }

    /// All lines.
    pub fn bytes(&self) -> &[u8]
        ensures { IsTrue (are_comments result.now) }
    {
        self.bytes.as_slice()
    }

    fn push(&mut self, line: &[u8])
        requires { IsTrue (are_comments line.now) }
    {
        let _fits = self.bytes.try_extend_from_slice(line);
    }
}
