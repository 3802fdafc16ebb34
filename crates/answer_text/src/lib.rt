//! The texts that a solver prints: the lines of its outcome and the lines of a model. Each is exactly the text that
//! its contract names, or a front of it where a write fails, and takes no memory.
#![tactic(auto)]

mod model;
mod status;

pub use model::write_model;
pub use status::{
    write_board, write_cube, write_id_limit, write_last_identifier, write_node_limit,
    write_refused, write_sat, write_trimmed, write_unsat, write_verified,
};
