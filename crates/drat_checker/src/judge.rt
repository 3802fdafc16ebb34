// The judge of a proof's steps, in whose contract the clauses that stand are a list.
ghost use Rattle.std.specs.Prelude.{◌≡◌, [], ◌∷◌, ◌++◌, IfOk, OnErr, IfNone, OnSome, OnOk, IsTrue};
ghost use Rattle.drat_text.specs.declared.step.DratStep.TheVariants.{Add};
ghost use Rattle.drat_rules.specs.Clauses.{equality_of, without_first_by};
ghost use Rattle.drat_rules.specs.Addition.{drat_fault};
ghost use Rattle.drat_rules.specs.Run.{drat_step_fault, after_by};
ghost use Rattle.drat_checker.specs.Memory.{is_addition};

use crate::line::LineHints;
use crate::numbered::NumberedJudge;
use cnf_base::{Cnf, Lit, OutOfMemory};
use drat_rules::Deletions;
use drat_text::DratStep;
use lrat_rules::Reason;
use std::alloc::Global;
use std::marker::Model;

/// Judges the steps of a DRAT proof in turn, from a formula's clauses on.
#[derive(Drop)]
pub struct DratJudge {
    judge: NumberedJudge,
    line: LineHints,
}

impl Model for DratJudge {
    ghost use Rattle.std.specs.Prelude.{List, ℤ};
    ghost use Rattle.drat_checker.specs.Places.{standing};

    ghost Value = { List (List ℤ) };

    ghost view = { λ judge. standing judge.judge };
}

impl DratJudge {
    /// The formula's clauses stand.
    pub fn open(alloc: Global, formula: &Cnf) -> Result<DratJudge, OutOfMemory>
        ensures { IfOk result (λ judge. judge ≡ formula.now.clauses) }
    {
        let judge = NumberedJudge::open(alloc, formula)?;
        Ok(DratJudge {
            judge,
            line: LineHints::new(alloc, false),
        })
    }

    /// Why the step isn't good, or nothing: then it is taken. A bad step and a refusal change nothing.
    pub fn step(
        &mut self,
        deletions: Deletions,
        step: &DratStep,
    ) -> Result<Option<Reason>, OutOfMemory>
        ensures fault { IfOk result (λ fault. fault ≡ drat_step_fault self.old step.now) }
        ensures good { IfOk result (λ fault. IfNone fault (self.new ≡ after_by (equality_of deletions) self.old step.now)) }
        ensures bad { IfOk result (λ fault. OnSome fault (self.new ≡ self.old)) }
        ensures err { OnErr result (self.new ≡ self.old) }
        // A deletion wants no memory.
        ensures memory { OnErr result (IsTrue (is_addition step.now)) }
    {
        match step {
            DratStep::Add { lits } => self.add(lits.as_slice()),
            DratStep::Delete { lits } => {
                self.delete(deletions, lits.as_slice());
                Ok(None)
            }
        }
    }

    fn add(&mut self, clause: &[Lit]) -> Result<Option<Reason>, OutOfMemory>
        ensures fault { IfOk result (λ fault. fault ≡ drat_fault self.old clause.now) }
        ensures good { IfOk result (λ fault. IfNone fault (self.new ≡ self.old ++ clause.now ∷ [])) }
        ensures bad { IfOk result (λ fault. OnSome fault (self.new ≡ self.old)) }
        ensures err { OnErr result (self.new ≡ self.old) }
        ensures memory { OnErr result (IsTrue (is_addition (Add clause.now))) }
    {
        self.judge.add(&mut self.line, clause)
    }

    fn delete(&mut self, deletions: Deletions, clause: &[Lit])
        ensures { self.new ≡ without_first_by (equality_of deletions) clause.now self.old }
    {
        match self.judge.find(deletions, clause) {
            None => self.judge.postpone(clause),
            Some(number) => self.judge.clear(number),
        }
    }
}
