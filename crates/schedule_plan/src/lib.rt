//! What a run is told: the order of the variables, the plan, which clauses are pushed, conjoined and quantified in turn, and the
//! limits. Orders and plans are made here or read from their texts. A plan that is made or read is admissible: it pushes each
//! clause once, finds enough terms on the stack, quantifies a variable only where no other stacked term and no later clause
//! holds it, and leaves one term at most.
#![tactic(auto)]

mod emit;
mod forest;
mod limits;
mod links;
mod occurrence;
mod order;
mod order_error;
mod order_text;
mod plan;
mod schedule;
mod set_move;
mod variables;

pub use limits::Limits;
pub use order::Order;
pub use order_error::{OrderError, OrderKind};
pub use order_text::order_text_law;
pub use plan::{Move, Plan};
pub use schedule::error::{PlanError, PlanKind};
pub use schedule::read::schedule_text_law;
pub use set_move::set_move_law;
pub use variables::Variables;
