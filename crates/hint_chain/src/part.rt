// A part of a hint list: a clause that may serve as a hint, with its number.
ghost use Rattle.std.specs.Prelude.{◌≡◌, ◌≤◌, length};

use crate::inline::ShortClause;
use cnf_base::{Id, Lit};

/// A live clause of at most four literals, and its number.
#[derive(Clone, Copy)]
pub struct Part {
    id: Id,
    clause: ShortClause,
}

impl Part {
    /// The clause of this number.
    pub fn new(id: Id, clause: &[Lit]) -> Part
        requires { length clause.now ≤ 4 }
        ensures id { result.id ≡ id }
        ensures clause { result.clause ≡ clause.now }
    {
        Part {
            id,
            clause: ShortClause::from_slice(clause),
        }
    }

    /// The same of a clause that is kept inline already.
    pub fn of(id: Id, clause: ShortClause) -> Part
        ensures { result ≡ record { id = id; clause = clause } }
    {
        Part { id, clause }
    }

    /// The clause's number.
    pub fn id(&self) -> Id
        ensures { result ≡ self.now.id }
    {
        self.id
    }

    /// The clause's literals.
    pub fn clause(&self) -> &[Lit]
        ensures { result.now ≡ self.now.clause }
    {
        self.clause.as_slice()
    }
}
