// The search: trials of the pairs in turn, until one decides the formula.
ghost use Rattle.std.specs.Prelude.{◌≡◌, length, IfOk, IfSome, IsTrue};
ghost use Rattle.schedule_plan.specs.declared.limits.Limits.{Limits as LimitsValue};
ghost use Rattle.schedule_plan.specs.Limits.{AreLimits};
ghost use Rattle.plan_search.specs.Found.{IsBucketPlan, IsFound, WasDecided, WasDecidedBy};
ghost use Rattle.plan_search.specs.Orders.{IsMade, MakesMore, order_of};

use crate::candidates::{Candidates, NATURAL, Next, Pair};
use crate::estimate::estimate;
use crate::observer::{Attempt, Observer};
use crate::orders::{Kind, Orders};
use crate::trial::{Tried, attempt, planned, trial_limits};
use cnf_base::{Cnf, OutOfMemory};
use schedule_plan::{Limits, Order, Plan};
use std::alloc::Global;
use term_runner::TrialEnd;

// Each of the nine pairs has at most 20 trials: the first has at least 6,250 numbers, and each next one four times as many, up
// to at most 10^15.
const MOST_TRIALS: u32 = 180;

/// An order of the diagrams, and the bucket plan of an order.
#[derive(Drop)]
pub struct FoundPlan {
    pub order: Order,
    pub plan: Plan,
    /// Whether a trial of both decided the formula.
    pub decided: bool,
}

/// Looks for a plan that decides a formula soon, behind the sums of its parity equations where these are added up. `natural` is the order of the variables that is tried beside those that are
/// found. Where no trial decides the formula within the limits, the plan is the one that is estimated to need the fewest clause
/// numbers. Where there is no memory for other orders or for trials, it is the one over `natural`; so want of memory is only
/// answered where there is none for that. The observer is told of each trial that came to an end, and of the pair.
pub fn find_plan<O: Observer>(
    alloc: Global,
    formula: &Cnf,
    natural: Order,
    limits: Limits,
    parity: bool,
    observer: &mut O,
) -> Result<FoundPlan, OutOfMemory>
    requires order { length natural ≡ formula.now.vars }
    requires limits { AreLimits limits }
    ensures found { IfOk result (λ found. IsFound formula.now found.order found.plan) }
    ensures decided { IfOk result (λ found. IsTrue found.decided → WasDecided formula.now limits found.order found.plan) }
    ensures beside { O.beside observer.new ≡ O.beside observer.old }
{
    let mut orders = Orders::new(formula.vars(), natural);
    let answer = search(alloc, formula, limits, parity, &mut orders, observer);
    observer.found(answer.pair);
    let (kind, plan, decided) = settled(alloc, formula, &mut orders, answer)?;
    let order = orders.into_order(kind);
    Ok(FoundPlan {
        order,
        plan,
        decided,
    })
}

// The pair that was found, and its plan where a trial of it decided the formula.
#[derive(Drop)]
struct Answer {
    pair: Pair,
    plan: Option<Plan>,
}

#[tactic(auto, using(crate::proofs::More::more_none, crate::proofs::More::more_then))]
fn search<O: Observer>(
    alloc: Global,
    formula: &Cnf,
    limits: Limits,
    parity: bool,
    orders: &mut Orders,
    observer: &mut O,
) -> Answer
    requires limits { AreLimits limits }
    requires orders { orders.old.vars ≡ formula.now.vars }
    ensures plan { IfSome result.plan (IsBucketPlan formula.now) }
    ensures made { IfSome result.plan (λ _. IsMade result.pair.diagrams orders.new) }
    ensures decided { IfSome result.plan (WasDecidedBy formula.now limits (order_of result.pair.diagrams orders.new)) }
    ensures more { MakesMore orders.old orders.new }
    ensures beside { O.beside observer.new ≡ O.beside observer.old }
{
    // With no memory for the hypergraph no other order can be made.
    let Ok(size) = orders.size(alloc, formula) else {
        return Answer {
            pair: NATURAL,
            plan: None,
        };
    };
    let most = limits.max_ids.saturating_sub(formula.len() as u64);
    let mut candidates = Candidates::new(size, most);
    'trials: for _ in 0..MOST_TRIALS {
        let Some(next) = candidates.next() else {
            break;
        };
        if let Some(plan) = tried(
            alloc,
            formula,
            limits,
            parity,
            orders,
            &mut candidates,
            &next,
            observer,
        ) {
            return Answer {
                pair: next.pair,
                plan: Some(plan),
            };
        }
    }
    Answer {
        pair: candidates.best(),
        plan: None,
    }
}

// Makes one trial, and notes what it told. The plan, where the trial decided the formula.
fn tried<O: Observer>(
    alloc: Global,
    formula: &Cnf,
    limits: Limits,
    parity: bool,
    orders: &mut Orders,
    candidates: &mut Candidates,
    next: &Next,
    observer: &mut O,
) -> Option<Plan>
    requires limits { AreLimits limits }
    requires orders { orders.old.vars ≡ formula.now.vars }
    ensures plan { IfSome result (IsBucketPlan formula.now) }
    ensures made { IfSome result (λ _. IsMade next.now.pair.diagrams orders.new) }
    ensures decided { IfSome result (WasDecidedBy formula.now limits (order_of next.now.pair.diagrams orders.new)) }
    ensures more { MakesMore orders.old orders.new }
    ensures beside { O.beside observer.new ≡ O.beside observer.old }
{
    let Ok(tried) = attempt(alloc, formula, limits, parity, orders, next) else {
        candidates.take_out(next, u64::MAX);
        return None;
    };
    let Tried { plan, trial } = tried;
    observer.tried(Attempt {
        pair: next.pair,
        max_ids: trial_limits(formula, next.above, limits).max_ids,
        moves: trial.moves,
        all_moves: plan.len(),
    });
    let estimate = estimate(next.above, plan.len(), &trial);
    match trial.end {
        TrialEnd::Decided => Some(plan),
        TrialEnd::NodeLimit => {
            candidates.take_out(next, estimate);
            None
        }
        TrialEnd::IdLimit => {
            candidates.reached(next, estimate);
            None
        }
    }
}

// The plan of the answer with the kind of its order of the diagrams, and whether a trial decided the formula by both; the plan over the
// given order where there is no memory.
#[tactic(auto, using(crate::proofs::More::more_none, crate::proofs::More::more_then))]
fn settled(
    alloc: Global,
    formula: &Cnf,
    orders: &mut Orders,
    answer: Answer,
) -> Result<(Kind, Plan, bool), OutOfMemory>
    requires orders { orders.old.vars ≡ formula.now.vars }
    requires plan { IfSome answer.plan (IsBucketPlan formula.now) }
    requires made { IfSome answer.plan (λ _. IsMade answer.pair.diagrams orders.old) }
    ensures plan { IfOk result (λ found. IsBucketPlan formula.now found.1) }
    ensures made { IfOk result (λ found. IsMade found.0 orders.new) }
    ensures decided { (limits : LimitsValue) → IfSome answer.plan (WasDecidedBy formula.now limits (order_of answer.pair.diagrams orders.old))
        → IfOk result (λ found. IsTrue found.2 → WasDecidedBy formula.now limits (order_of found.0 orders.new) found.1) }
    ensures more { MakesMore orders.old orders.new }
{
    let Answer { pair, plan } = answer;
    if let Some(plan) = plan {
        return Ok((pair.diagrams, plan, true));
    }
    if let Ok(plan) = planned(alloc, formula, orders, pair) {
        return Ok((pair.diagrams, plan, false));
    }
    let plan = planned(alloc, formula, orders, NATURAL)?;
    Ok((Kind::Natural, plan, false))
}
