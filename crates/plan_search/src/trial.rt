// A trial of a pair of orders.
ghost use Rattle.std.specs.Prelude.{◌≡◌, length, IfOk, OnOk};
ghost use Rattle.schedule_plan.specs.Limits.{AreLimits};
ghost use Rattle.schedule_plan.specs.Bucket.{bucket};
ghost use Rattle.plan_search.specs.Found.{IsBucketPlan, IsPlanBy, IsTrialBy, limits_of_trial};
ghost use Rattle.plan_search.specs.Orders.{IsMade, MakesMore, order_of};

use crate::candidates::{Next, Pair};
use crate::orders::Orders;
use cnf_base::{Cnf, OutOfMemory};
use parity_runs::try_with_parity;
use schedule_plan::{Limits, Order, Plan};
use std::alloc::Global;
use term_runner::{Trial, try_plan};

/// A plan and how far its trial came.
#[derive(Drop)]
pub struct Tried {
    pub plan: Plan,
    pub trial: Trial,
}

/// Makes the orders of a pair that aren't there yet, and runs the plan by one of them over the other, within the limits of a trial, behind the
/// sums of the parity equations where these are added up.
pub fn attempt(
    alloc: Global,
    formula: &Cnf,
    limits: Limits,
    parity: bool,
    orders: &mut Orders,
    next: &Next,
) -> Result<Tried, OutOfMemory>
    requires limits { AreLimits limits }
    requires orders { orders.old.vars ≡ formula.now.vars }
    ensures plan { IfOk result (λ tried. IsBucketPlan formula.now tried.plan) }
    ensures of_pair { IfOk result (λ tried. IsPlanBy formula.now (order_of next.now.pair.buckets orders.new) tried.plan) }
    ensures trial { IfOk result (λ tried. IsTrialBy formula.now (order_of next.now.pair.diagrams orders.new) tried.plan
        (limits_of_trial formula.now next.now.above limits) tried.trial) }
    ensures made { OnOk result (IsMade next.now.pair.diagrams orders.new) }
    ensures more { MakesMore orders.old orders.new }
{
    let plan = planned(alloc, formula, orders, next.pair)?;
    let diagrams = orders.get(next.pair.diagrams);
    let limits = trial_limits(formula, next.above, limits);
    let found = if parity {
        try_with_parity(alloc, formula, diagrams, &plan, limits)
    } else {
        try_plan(alloc, formula, diagrams, &plan, limits)
    };
    let trial = found?;
    Ok(Tried { plan, trial })
}

/// The plan of a pair, both of whose orders are made then.
#[tactic(auto, using(crate::proofs::More::more_then, crate::proofs::More::made_yet))]
pub fn planned(
    alloc: Global,
    formula: &Cnf,
    orders: &mut Orders,
    pair: Pair,
) -> Result<Plan, OutOfMemory>
    requires { orders.old.vars ≡ formula.now.vars }
    ensures plan { IfOk result (IsBucketPlan formula.now) }
    ensures of_pair { IfOk result (IsPlanBy formula.now (order_of pair.buckets orders.new)) }
    ensures made { OnOk result (IsMade pair.diagrams orders.new) }
    ensures more { MakesMore orders.old orders.new }
{
    orders.make(alloc, formula, pair.buckets)?;
    orders.make(alloc, formula, pair.diagrams)?;
    bucket_plan(alloc, formula, orders.get(pair.buckets))
}

fn bucket_plan(alloc: Global, formula: &Cnf, elimination: &Order) -> Result<Plan, OutOfMemory>
    requires { length elimination.now ≡ formula.now.vars }
    ensures plan { IfOk result (IsBucketPlan formula.now) }
    ensures moves { IfOk result (λ plan. plan ≡ bucket formula.now elimination.now) }
{
    let _ = elimination.as_slice();
    let plan = Plan::bucket(alloc, formula, elimination)?;
    Ok(plan)
}

/// The limits of a trial with so many numbers above the formula's.
pub fn trial_limits(formula: &Cnf, above: u64, limits: Limits) -> Limits
    requires { AreLimits limits }
    ensures value { result ≡ limits_of_trial formula.now above limits }
    ensures limits { AreLimits result }
{
    Limits {
        cache: limits.cache,
        max_nodes: limits.max_nodes,
        max_ids: (formula.len() as u64)
            .saturating_add(above)
            .min(limits.max_ids),
    }
}
