// What is answered of cubes.
ghost use Rattle.std.specs.Prelude.{◌≡◌, ◌++◌, ◌∷◌, [], OnOk};

use crate::values::Values;
use cnf_base::OutOfMemory;
use std::alloc::Global;

/// What was found of a cube.
#[derive(Drop)]
pub enum Answer {
    /// No assignment satisfies the formula and the cube, and a clause of the proof says so.
    Unsat,
    /// The least assignment that satisfies both.
    Sat(Values),
}

/// What is answered of cubes, in their order.
#[derive(Drop)]
pub struct Answers {
    list: Vec<Answer>,
}

impl std::marker::Model for Answers {
    ghost use Rattle.std.specs.Prelude.{List};
    ghost use Rattle.cube_queries.specs.declared.answer.Answer.{Answer};

    ghost Value = { List Answer };

    ghost view = { λ a. a.list.items };
}

impl Answers {
    pub(crate) fn new(alloc: Global) -> Answers
        ensures { result ≡ [] }
    {
        Answers {
            list: Vec::new(alloc),
        }
    }

    pub(crate) fn push(&mut self, answer: Answer) -> Result<(), OutOfMemory>
        ensures { OnOk result (self.new ≡ self.old ++ answer ∷ []) }
    {
        self.list.push(answer)?;
        Ok(())
    }

    pub fn as_slice(&self) -> &[Answer]
        ensures { result.now ≡ self.now }
    {
        self.list.as_slice()
    }
}

/// What a session comes to.
#[derive(Drop)]
pub enum Outcome {
    /// All cubes are answered.
    Answered(Answers),
    /// The greatest number of nodes is in use.
    NodeLimit,
    /// Fewer than four clause numbers are left.
    IdLimit,
}
