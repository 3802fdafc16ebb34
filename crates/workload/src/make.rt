// The board: its formula, its column order and its column schedule.
ghost use Rattle.std.specs.Prelude.{◌≡◌, ◌≤◌, length, IfOk};
ghost use Rattle.cnf_base.specs.Order.{IsOrder};
ghost use Rattle.schedule_plan.specs.Plan.{IsAdmissible};
ghost use Rattle.workload.specs.Board.{board_formula, column_order, most_columns};
ghost use Rattle.workload.specs.Schedule.{board_moves};

use crate::columns::{board_moves, column_order};
use crate::formula::formula;
use crate::parts::Board;
use cnf_base::OutOfMemory;
use schedule_plan::{Order, Plan};
use std::alloc::Global;

/// The board of n by n squares, n from 2 to 100, without its first and its last square: is it covered by dominoes? (It is
/// not.)
pub fn board(alloc: Global, n: u32) -> Result<Board, OutOfMemory>
    requires least { 2 ≤ n }
    requires most { n ≤ most_columns }
    ensures cnf { IfOk result (λ board. board.cnf ≡ board_formula n) }
    ensures order { IfOk result (λ board. board.order ≡ column_order n) }
    ensures plan { IfOk result (λ board. board.plan ≡ board_moves n) }
    ensures is_order { IfOk result (λ board. IsOrder board.order × (length board.order ≡ board.cnf.vars)) }
    ensures admissible { IfOk result (λ board. IsAdmissible board.cnf board.plan) }
{
    let cnf = formula(alloc, n)?;
    let order = Order::of_variables(column_order(alloc, n)?);
    let plan = Plan::of_moves(board_moves(alloc, n)?);
    Ok(Board { cnf, order, plan })
}
