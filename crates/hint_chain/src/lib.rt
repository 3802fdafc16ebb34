//! The hints of additions over diagrams: of the unit of a clause's diagram, and of the two additions of a conjunction or
//! an implication. Clauses over nodes are lists of atoms. A list is chosen greedily among the clauses that may serve;
//! laws say that the choice closes, whatever constants occur, and that it is a strict refutation. It stands on the
//! rules of `lrat_rules`.
#![tactic(auto)]

mod atom;
mod hints;
mod inline;
mod laws;
mod part;
mod step;
mod unit;

pub use atom::{Atom, clause_from_atoms};
pub use hints::Hints;
pub use inline::{InlineLiterals, ShortClause};
pub use laws::{
    clause_law, closing_law, conjunction_law, following_unit_law, greedy_law, implication_law,
    unit_law, unit_path_law,
};
pub use part::Part;
pub use step::{ChildPart, StepParts, step_hints, step_hints_behind};
pub use unit::{UnitPart, unit_hints};
