//! The least assignment that makes a node and a cube true, found along the node's diagram alone: nothing is made, and nothing is written.
//! Where there is none, the hints by which one clause forbids the cube, over the sums of nodes. Stands on the nodes of `node_table`.
#![tactic(auto)]

mod finder;
mod hints;
mod signs;
mod sum;
mod values;
mod walk;

pub use finder::Finder;
pub use sum::{Sum, sum_of};
