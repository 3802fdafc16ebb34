// What a runner hands on to a plan, once all its terms are released.
ghost use Rattle.std.specs.Prelude.{◌≡◌, length};
ghost use Rattle.bdd_terms.specs.Handover.{IsHandedOver};
ghost use Rattle.bdd_terms.specs.Runner.{IsRunner};

use crate::runner::Runner;
use crate::terms::Terms;
use cnf_base::Cnf;
use host_io::Sink;
use schedule_plan::Limits;

/// The formula, the limits, a table and caches over the formula, and whether the empty clause was added.
#[derive(Drop)]
pub struct Handover<'a, S: Sink + Drop> {
    pub formula: &'a Cnf,
    pub limits: Limits,
    /// None of them is out.
    pub terms: Terms<S>,
    pub refuted: bool,
}

impl<'a, S: Sink + Drop> Runner<'a, S> {
    /// Hands on what it has. The clauses of refused cubes are retired; nodes and clauses that its calls left stay.
    pub fn hand_over(self) -> Handover<'a, S>
        requires runner { IsRunner self }
        requires none_out { length self.terms.out.items ≡ 0 }
        ensures { IsHandedOver self.entry result }
    {
        let mut runner = self;
        runner.give_up_refusals();
        let Runner {
            formula,
            limits,
            terms,
            refuted,
            kept: _,
            refusals: _,
        } = runner;
        Handover {
            formula,
            limits,
            terms,
            refuted,
        }
    }
}
