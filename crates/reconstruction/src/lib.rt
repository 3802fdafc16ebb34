//! The reconstruction stack of a solver that takes variables away (Järvisalo, Biere: Reconstructing Solutions after Blocked
//! Clause Elimination, 2010): each quantified variable with the term that it was quantified from. A term that is to leave the
//! table of nodes is copied into cells first, each node once, so that an assignment can be recovered when the table has long
//! given its nodes back. What a stored term says is read off its cells alone: no call on a table touches it. It stands on
//! the nodes of `node_table`, and on `clause_terms` for the assignment.
#![tactic(auto)]

mod cells;
mod copying;
mod entries;
mod laws;
mod ranks;
mod restore;
mod stack;
mod walked;
mod walker;
mod way;

pub use cells::Cell;
pub use entries::{Entry, Kept};
pub use laws::{copies_law, restore_law, set_law};
pub use stack::Reconstruction;
