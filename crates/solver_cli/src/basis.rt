// By what a formula is decided.
use schedule_plan::{Order, Plan};

/// The order of the diagrams' variables, and the plan.
#[derive(Drop)]
pub struct Basis {
    pub order: Order,
    pub plan: Plan,
}
