// The numbers of a set of variables.
ghost use Rattle.std.specs.Prelude.{◌≡◌, ◌<◌, ◌^◌, IfOk, IsTrue, nat_lt};
ghost use Rattle.std.specs.List.{list_all, list_any};
ghost use Rattle.schedule_plan.specs.ScheduleText.{is_out_of_range};

use crate::variables::Variables;
use cnf_base::{Cnf, OutOfMemory};
use std::alloc::Global;

/// Whether one of these numbers is none of a variable.
pub(crate) fn is_any_out_of_range(formula: &Cnf, numbers: &[u64]) -> bool
    ensures { result ≡ list_any (is_out_of_range formula.now) numbers.now }
{
    numbers
        .iter()
        .any(|number| is_out_of_range(formula, *number))
}

fn is_out_of_range(formula: &Cnf, number: u64) -> bool
    ensures { result ≡ is_out_of_range formula.now number }
{
    number < 1 || number > formula.vars() as u64
}

/// The variables with these numbers.
pub(crate) fn variables_of(alloc: Global, numbers: &[u64]) -> Result<Variables, OutOfMemory>
    requires within { IsTrue (list_all (λ x. nat_lt x (2 ^ 32)) numbers.now) }
    ensures { IfOk result (λ variables. variables ≡ numbers.now) }
{
    let mut variables = Vec::new(alloc);
    'numbers: for number in numbers {
        variables.push(*number as u32)?;
    }
    Variables::of_numbers(alloc, variables)
}
