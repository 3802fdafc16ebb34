// What a hint does, and why a step is refused.
ghost use Rattle.std.specs.Prelude.{◌≡◌};
ghost use Rattle.lrat_rules.specs.ReasonNumber.{number_of};

use cnf_base::Lit;

/// The effect of a hint's clause on a set of false literals.
#[derive(Clone, Copy)]
pub enum Effect {
    /// Each literal of the clause is false.
    Conflict,
    /// Exactly this literal isn't false, so it is forced.
    Unit(Lit),
    /// More than one literal isn't false.
    NotUnit,
}

/// Why a line of a proof is refused, or a proof as a whole, with the number of each reason.
#[derive(Clone, Copy, Debug, PartialEq, Eq)]
pub enum Reason {
    /// The line is no step.
    Syntax = 1,
    /// The number isn't greater than those of the formula and of all earlier additions.
    IdNotGreater = 2,
    /// A hint names no live clause.
    HintNotLive = 3,
    /// A hint's clause is neither false nor unit.
    HintNotUnit = 4,
    /// The empty clause, and its hints reach no conflict.
    NoConflict = 5,
    /// A candidate is neither blocked nor refuted by its group.
    CandidateOpen = 6,
    /// A group is of no candidate.
    GroupStray = 7,
    /// All lines are good, and none adds the empty clause.
    NoEmptyClause = 8,
}

impl Reason {
    /// The number of the reason, from 1.
    pub fn number(self) -> u8
        ensures { result ≡ number_of self }
    {
        self as u8
    }
}
