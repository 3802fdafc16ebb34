// The judge of a proof's steps. It keeps the live clauses, the greatest number, and the memory of one chain of hints. It judges steps
// and no texts: reading is a layer of its own.
ghost use Rattle.std.specs.Prelude.{◌≡◌, IfOk, OnErr, IfNone, OnSome, IsTrue};
ghost use Rattle.std.specs.FinMap as map;
ghost use Rattle.std.specs.Option.{option_copied};
ghost use Rattle.cnf_base.specs.declared.step.Step.TheVariants.{Add};
ghost use Rattle.lrat_rules.specs.State.{start, clause_at, with_clause, numbered_from};
ghost use Rattle.lrat_rules.specs.Addition.{fault};
ghost use Rattle.lrat_rules.specs.Run.{step_fault, after_step};
ghost use Rattle.lrat_checker.specs.Cuts.{uses_of, uses_of_step};
ghost use Rattle.lrat_checker.specs.Memory.{may_want_memory};

use crate::addition::addition_fault;
use crate::live::IndexedClauses;
use crate::uses::Uses;
use cnf_base::{Cnf, Group, Id, Lit, OutOfMemory, Step};
use lrat_rules::{Chain, Reason};
use std::alloc::Global;
use std::marker::Model;

/// Judges the steps of a proof in turn, from a formula's clauses on.
#[derive(Drop)]
pub struct Judge {
    alloc: Global,
    live: IndexedClauses,
    top: Id,
    chain: Chain,
}

impl Model for Judge {
    ghost use Rattle.lrat_rules.specs.State.{State, state_code};

    ghost Value = { State };

    ghost coded = { state_code };

    ghost view = { λ judge. record { live = judge.live; top = judge.top } };
}

impl Judge {
    /// The formula's clauses are live, under 1, 2, ..
    pub fn open(alloc: Global, formula: &Cnf) -> Result<Judge, OutOfMemory>
        ensures { IfOk result (λ judge. judge ≡ start formula.now.clauses) }
    {
        let chain = Chain::new(alloc);
        let live = numbered(alloc, formula)?;
        let top = Id(formula.len() as u64);
        Ok(Judge {
            alloc,
            live,
            top,
            chain,
        })
    }

    /// Why the step isn't good, or nothing: then it is taken. A bad step and a refusal change nothing.
    pub fn step(&mut self, step: &Step) -> Result<Option<Reason>, OutOfMemory>
        ensures fault { IfOk result (λ fault. fault ≡ step_fault self.old step.now) }
        ensures good { IfOk result (λ fault. IfNone fault (self.new ≡ after_step self.old step.now)) }
        ensures bad { IfOk result (λ fault. OnSome fault (self.new ≡ self.old)) }
        ensures err { OnErr result (self.new ≡ self.old) }
        // A deletion, and an addition whose number isn't greater, want no memory; an addition wants it for the literals
        // that are kept while it is judged, and where it is good.
        ensures memory { OnErr result (IsTrue (may_want_memory self.old step.now)) }
    {
        let mut uses = Uses::new(self.alloc);
        self.step_with(step, &mut uses)
    }

    /// The same, and where the step is good, how many hints of each of its lists were taken. After a bad step or a refusal
    /// these are some numbers.
    pub fn step_with(&mut self, step: &Step, uses: &mut Uses) -> Result<Option<Reason>, OutOfMemory>
        ensures fault { IfOk result (λ fault. fault ≡ step_fault self.old step.now) }
        ensures good { IfOk result (λ fault. IfNone fault (self.new ≡ after_step self.old step.now)) }
        ensures bad { IfOk result (λ fault. OnSome fault (self.new ≡ self.old)) }
        ensures err { OnErr result (self.new ≡ self.old) }
        ensures uses { IfOk result (λ fault. IfNone fault (uses.new ≡ uses_of_step self.old step.now)) }
        ensures memory { OnErr result (IsTrue (may_want_memory self.old step.now)) }
    {
        match step {
            Step::Add {
                id,
                lits,
                pos,
                groups,
            } => self.add(
                *id,
                lits.as_slice(),
                pos.as_slice(),
                groups.as_slice(),
                uses,
            ),
            Step::Delete { ids, .. } => {
                self.live.remove_all(ids.as_slice());
                uses.restart(0);
                Ok(None)
            }
        }
    }

    /// The clause of this number, where it is live.
    pub fn clause(&self, id: Id) -> Option<&[Lit]>
        ensures { option_copied result ≡ clause_at self.now.live id }
    {
        self.live.clause(id)
    }

    /// Takes out the clause of this number, and passes over a number that isn't live.
    pub fn remove(&mut self, id: Id)
        ensures { self.new ≡ record self.old { live = map.remove self.old.live id } }
    {
        self.live.remove(id);
    }

    fn add(
        &mut self,
        id: Id,
        clause: &[Lit],
        hints: &[Id],
        groups: &[Group],
        uses: &mut Uses,
    ) -> Result<Option<Reason>, OutOfMemory>
        ensures fault { IfOk result (λ answer. answer ≡ fault self.old id clause.now hints.now groups.now) }
        ensures good { IfOk result (λ answer. IfNone answer (self.new
            ≡ record { live = with_clause self.old.live id clause.now; top = id })) }
        ensures bad { IfOk result (λ answer. OnSome answer (self.new ≡ self.old)) }
        ensures err { OnErr result (self.new ≡ self.old) }
        ensures uses { IfOk result (λ answer. IfNone answer (uses.new ≡ uses_of self.old.live clause.now hints.now groups.now)) }
        ensures memory { OnErr result (IsTrue (may_want_memory self.old (Add id clause.now hints.now groups.now))) }
    {
        let fault = addition_fault(
            &mut self.live,
            self.top,
            &mut self.chain,
            id,
            clause,
            hints,
            groups,
            uses,
        )?;
        if let Some(reason) = fault {
            return Ok(Some(reason));
        }
        self.live.insert(id, clause)?;
        self.top = id;
        Ok(None)
    }
}

// The clauses of a formula under 1, 2, ..
fn numbered(alloc: Global, formula: &Cnf) -> Result<IndexedClauses, OutOfMemory>
    ensures { IfOk result (λ live. live ≡ map.from_entries (numbered_from 1 formula.now.clauses)) }
{
    let mut live = IndexedClauses::new(alloc);
    lrat_rules::start_law();
    for i in 0..formula.len() {
        live.insert(Id(i as u64 + 1), formula.clause(i + 1))?;
    }
    Ok(live)
}
