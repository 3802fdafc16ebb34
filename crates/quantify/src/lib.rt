//! The disjunction of two nodes of a table, and the existential quantification of a node by one variable, or by the variables of a
//! set of levels at once. None of them adds a clause: what they find are nodes with these functions. Results are kept in caches,
//! which name no clause either, and are purged of entries over nodes that aren't marked. It stands on `operations` and the nodes of
//! `node_table`.
#![tactic(auto)]

mod disjoin;
mod exists_cache;
mod join;
mod or_cache;
mod quantify;
mod quantify_set;

pub use disjoin::or;
pub use exists_cache::{ExistsCache, ExistsEntries};
pub use or_cache::{OrCache, OrEntries};
pub use quantify::exists;
pub use quantify_set::{exists_all, set_law};
