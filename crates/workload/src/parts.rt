// The three parts of a workload.
use cnf_base::Cnf;
use schedule_plan::{Order, Plan};

/// A mutilated chessboard as a workload.
#[derive(Drop)]
pub struct Board {
    pub cnf: Cnf,
    pub order: Order,
    pub plan: Plan,
}
