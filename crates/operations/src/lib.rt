//! What every operation on diagrams stands on, once: the split of two operands at the earlier variable, the defining
//! clauses that may serve as hints on either side of it, what an operation finds, and the entries of the computed
//! caches, which fit a table as one list. Beside it the laws of a call: what its cache keeps and forgets, how it accounts
//! for its clauses, and how many it adds; what reclamation wants of caches (`Purge`); and the machine that works an operation
//! off with a stack of its own. It stands on the hint lists of `hint_chain`, the caches of `op_cache` and the nodes of `node_table`.
#![tactic(auto)]

mod additions;
mod clauses;
mod computed;
mod frames;
mod laws;
mod machine;
mod operands;
mod pair;
mod parts;
mod purge;
mod retired;
mod stored_just;

pub use additions::add_both;
pub use computed::{Computed, Results};
pub use frames::Reply;
pub use laws::{
    accounts_law, budget_law, cache_law, cache_turn_law, entry_law, high_clause_law, literal_law,
    operand_law, price_law, purge_law, purge_turn_law, table_turn_law,
};
pub use machine::{Operation, work_off};
pub use operands::{Operands, split};
pub use pair::NodePair;
pub use parts::{ChildParts, down_parts, just_number, up_parts};
pub use purge::Purge;
pub use retired::{clause_number, retire};
pub use stored_just::StoredJustification;
