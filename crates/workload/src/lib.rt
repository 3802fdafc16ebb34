//! A workload for solvers: the mutilated chessboard, with the order and the schedule that go through it column by
//! column, and their texts.
#![tactic(auto)]

mod columns;
mod cursor;
mod formula;
mod make;
mod parts;
mod schedule;
mod square;
mod texts;

pub use make::board;
pub use parts::Board;
pub use schedule::{write_columns, write_sets};
pub use texts::{write_cnf, write_order};
