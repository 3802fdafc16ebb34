// The bucket that each item belongs to. Items are numbered: the clauses first, and then the results of the buckets.
// Their buckets are the parents in the column elimination tree of sparse factorization. It is found in nearly linear
// time, with path compression, and without any set of variables. (Liu: A Compact Row Storage Scheme for Cholesky Factors
// Using Elimination Trees, 1986; George, Ng: Symbolic Factorization for Sparse Gaussian Elimination with Partial
// Pivoting, 1987.)
ghost use Rattle.std.specs.Prelude.{◌≡◌, ℕ, ◌+◌, length, replicate, None, IfOk};
ghost use Rattle.cnf_base.specs.Order.{IsOrder};
ghost use Rattle.schedule_plan.specs.Forest.{AreOccurrences, AreBuckets, AreFresh, item_count};

use crate::occurrence::Occurrence;
use crate::order::Order;
use cnf_base::{Cnf, OutOfMemory};
use std::alloc::Global;

/// The bucket of each item.
pub(crate) fn buckets(
    alloc: Global,
    formula: &Cnf,
    order: &Order,
    occurrences: &[Occurrence],
) -> Result<Vec<u32>, OutOfMemory>
    requires order { length order.now ≡ formula.now.vars }
    requires occurrences { AreOccurrences formula.now order.now occurrences.now }
    ensures { IfOk result (λ buckets. AreBuckets formula.now order.now buckets.items) }
{
    formula.formula_law();
    let clauses = formula.len();
    let variables = order.as_slice().len();
    let mut buckets = fresh(alloc, formula, order, occurrences)?;
    let mut above = vec![in alloc; None; clauses + variables]?;
    climb(formula, order, occurrences, &mut buckets, &mut above);
    Ok(buckets)
}

// The buckets before any occurrence is looked at: that of no variable, and behind it that of the results which there
// aren't.
fn fresh(
    alloc: Global,
    formula: &Cnf,
    order: &Order,
    occurrences: &[Occurrence],
) -> Result<Vec<u32>, OutOfMemory>
    requires order { length order.now ≡ formula.now.vars }
    requires occurrences { AreOccurrences formula.now order.now occurrences.now }
    ensures { IfOk result (λ buckets. AreFresh formula.now order.now buckets.items) }
{
    formula.formula_law();
    let clauses = formula.len();
    let variables = order.as_slice().len();
    let mut buckets = vec![in alloc; variables as u32; clauses]?;
    buckets.resize(clauses + variables, variables as u32 + 1)?;
    for one in occurrences {
        buckets[clauses + one.place as usize] = variables as u32;
    }
    Ok(buckets)
}

// Each clause climbs to the bucket of each of its variables, in their order, over all items that it is inside by then.
// One that nothing is above yet goes to this bucket.
fn climb(
    formula: &Cnf,
    order: &Order,
    occurrences: &[Occurrence],
    buckets: &mut [u32],
    above: &mut [Option<u32>],
)
    requires order { length order.now ≡ formula.now.vars }
    requires occurrences { AreOccurrences formula.now order.now occurrences.now }
    requires fresh { AreFresh formula.now order.now buckets.old }
    requires sound { IsOrder order.now }
    requires above { above.old ≡ replicate (item_count formula.now order.now) None }
    ensures { AreBuckets formula.now order.now buckets.new }
{
    formula.formula_law();
    let clauses = formula.len();
    'occurrences: for one in occurrences {
        let top = clauses + one.place as usize;
        let mut item = one.clause as usize;
        'climbing: while item < top {
            match above[item] {
                Some(next) => {
                    above[item] = Some(top as u32);
                    item = next as usize;
                }
                None => {
                    above[item] = Some(top as u32);
                    buckets[item] = one.place;
                    item = top;
                }
            }
        }
    }
}
