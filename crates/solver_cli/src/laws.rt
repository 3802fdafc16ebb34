// What two runs promise together, and what the text of an order is read as, as clauses of functions without work.
ghost use Rattle.std.specs.Prelude.{◌≡◌, ◌≤◌, ℕ, List};
ghost use Rattle.cnf_base.specs.Limits.{max_vars};
ghost use Rattle.host_io.specs.declared.role.Role.TheVariants.{ProofOut};
ghost use Rattle.schedule_plan.specs.OrderText.{order as given_order, order_text};
ghost use Rattle.solver_cli.specs.Answer.{IsOrderOf};
ghost use Rattle.solver_cli.specs.Headline.{Promises};
ghost use Rattle.solver_cli.specs.Run.{Run, written_in};
ghost use Rattle.solver_cli.specs.MadeText.{order_line};
ghost use Rattle.solver_cli.specs.SolveThenCheck.{ChecksSolved, MayEnd};
ghost use Rattle.solver_cli.specs.ConvertThenCheck.{ChecksDrat, ChecksLrat};

use cnf_base::number_laws;
use dimacs_reader::cnf_law;
use drat_law::{drat_law, fresh_drat_law};
use lrat_checker::check_law;
use text_scan::short_text_law;

/// The proof that `solve` leaves with 'unsatisfiable' is verified by `check` as LRAT, where both read the formula in the same mode,
/// unless it is too long, memory runs out or a call of the host fails. It holds of any two runs that keep what `run` promises.
pub fn solve_then_check_law()
    ensures { (solved checked : Run) → Promises solved → Promises checked → ChecksSolved solved checked
        → MayEnd checked (written_in solved ProofOut) checked.status }
{
    check_law();
}

/// The DRAT proof that `drat` leaves of a verified proof, by new names or not, is verified by `check --format drat`, in any order of
/// literals or not, where both read the formula in the same mode, unless it is longer than is looked at, memory runs out or a call of the
/// host fails. It holds of any two runs that keep what `run` promises.
pub fn drat_then_check_law()
    ensures { (converted checked : Run) → Promises converted → Promises checked → ChecksDrat converted checked
        → MayEnd checked (written_in converted ProofOut) checked.status }
{
    cnf_law();
    drat_law();
    fresh_drat_law();
}

/// The LRAT proof that `lrat` leaves of a verified DRAT proof is verified by `check`, where both read the formula in the same mode, unless
/// it is too long, memory runs out or a call of the host fails. It holds of any two runs that keep what `run` promises.
pub fn lrat_then_check_law()
    ensures { (converted checked : Run) → Promises converted → Promises checked → ChecksLrat converted checked
        → MayEnd checked (written_in converted ProofOut) checked.status }
{
    check_law();
}

/// The text that `order` writes is read, by `--order` and `--buckets` of a formula of as many variables, as the order that was written.
pub fn order_line_law()
    ensures { (vars : ℕ) (order : List ℕ) → vars ≤ max_vars → IsOrderOf vars order → order_text vars (order_line order) ≡ given_order order }
{
    number_laws();
    short_text_law();
}
