// The moves so far, and what tells in constant time whether the next is possible. The clauses of a stacked term were pushed
// in turn. So another term holds a variable exactly where a clause that holds it was pushed before the first of the top
// term's, unless the variable was quantified: then no other term and no clause to come held it.
ghost use Rattle.std.specs.Prelude.{◌≡◌, ◌≢◌, ◌<◌, ◌≤◌, ◌-◌, ◌++◌, [], ◌∷◌, length, None, Ok, Err, IfOk, OnOk, IsTrue, replicate, false};
ghost use Rattle.std.specs.Prelude.{slice_index_or};
ghost use Rattle.schedule_plan.specs.declared.plan.Move.TheVariants.{Push as PushMove, And as AndMove, Exists as ExistsMove, ExistsAll as ExistsAllMove};
ghost use Rattle.schedule_plan.specs.declared.schedule.error.PlanError.TheVariants.{OutOfMemory as NoMemory};
ghost use Rattle.schedule_plan.specs.Plan.{IsAdmissible};
ghost use Rattle.schedule_plan.specs.ScheduleText.{taken, unless, fault_behind, end_fault_behind};
ghost use Rattle.schedule_plan.specs.ScheduleState.{Stands, Takes};
ghost use Rattle.schedule_plan.specs.ScheduleMemory.{moves_may_want_memory};

use crate::plan::{Move, Plan};
use crate::schedule::error::{PlanError, PlanKind};
use crate::schedule::set::{is_any_out_of_range, variables_of};
use crate::schedule::uses::{NEVER, Use, count_clause, is_any_used, push_clause, quantify_each};
use cnf_base::{Cnf, OutOfMemory};
use std::alloc::Global;

/// The moves so far, and what they make of the clauses, the variables and the terms.
#[derive(Drop)]
pub(crate) struct ScheduleJudge {
    pub(crate) moves: Vec<Move>,
    // by a variable's number
    pub(crate) uses: Vec<Use>,
    // whether a clause was pushed, by its number
    pub(crate) flags: Vec<bool>,
    // for each stacked term how many clauses were pushed before it
    pub(crate) starts: Vec<u32>,
    pub(crate) pushes: u32,
}

impl ScheduleJudge {
    pub(crate) fn new(alloc: Global, formula: &Cnf) -> Result<ScheduleJudge, OutOfMemory>
        ensures stands { IfOk result (Stands formula.now) }
        ensures moves { IfOk result (λ judge. judge.moves.items ≡ []) }
    {
        formula.formula_law();
        let fresh = Use {
            to_come: 0,
            earliest: NEVER,
            seen: 0,
        };
        let mut uses = vec![in alloc; fresh; formula.vars() as usize + 1]?;
        for clause in 0..formula.len() {
            count_clause(&mut uses, formula.clause(clause + 1), clause as u32 + 1);
        }
        Ok(ScheduleJudge {
            moves: Vec::new(alloc),
            uses,
            flags: vec![in alloc; false; formula.len() + 1]?,
            starts: Vec::new(alloc),
            pushes: 0,
        })
    }

    /// Pushes a clause, on this line.
    pub(crate) fn push(&mut self, formula: &Cnf, number: u64, line: u64) -> Result<(), PlanError>
        requires { Stands formula.now self.old }
        ensures stands { OnOk result (Stands formula.now self.new) }
        ensures takes { Takes result (taken formula.now self.old.moves.items (PushMove number ∷ [])) line self.new.moves.items }
        // want of memory never stands for a refusal
        ensures memory { result ≡ Err NoMemory → fault_behind formula.now self.old.moves.items (PushMove number) ≡ None }
    {
        formula.formula_law();
        if number < 1 || number > formula.len() as u64 {
            return Err(PlanError::Refused(PlanKind::ClauseRange, line));
        }
        if self.flags[number as usize] {
            return Err(PlanError::Refused(PlanKind::ClauseTwice, line));
        }
        self.put_clause(formula, number as u32)?;
        Ok(())
    }

    fn put_clause(&mut self, formula: &Cnf, number: u32) -> Result<(), OutOfMemory>
        requires stands { Stands formula.now self.old }
        requires from_one { 1 ≤ number }
        requires to_len { number ≤ length formula.now.clauses }
        requires fresh { slice_index_or self.old.flags.items number false ≡ false }
        ensures stands { OnOk result (Stands formula.now self.new) }
        ensures moves { OnOk result (self.new.moves.items ≡ self.old.moves.items ++ PushMove number ∷ []) }
    {
        formula.formula_law();
        self.starts.push(self.pushes)?;
        self.moves.push(Move::Push(number))?;
        let mark = formula.len() as u32 + 1 + self.pushes;
        push_clause(
            &mut self.uses,
            formula.clause(number as usize),
            mark,
            self.pushes,
        );
        self.flags[number as usize] = true;
        self.pushes += 1;
        Ok(())
    }

    /// Conjoins so many top terms, on this line.
    pub(crate) fn conjoin(&mut self, formula: &Cnf, terms: u64, line: u64) -> Result<(), PlanError>
        requires stands { Stands formula.now self.old }
        requires two { 2 ≤ terms }
        ensures stands { OnOk result (Stands formula.now self.new) }
        ensures takes { Takes result (taken formula.now self.old.moves.items (replicate (terms - 1) AndMove)) line self.new.moves.items }
        ensures memory { result ≡ Err NoMemory
            → IsTrue (moves_may_want_memory formula.now self.old.moves.items (replicate (terms - 1) AndMove)) }
    {
        if (self.starts.as_slice().len() as u64) < terms {
            return Err(PlanError::Refused(PlanKind::StackShort, line));
        }
        for _ in 1..terms {
            self.conjoin_top(formula)?;
        }
        Ok(())
    }

    fn conjoin_top(&mut self, formula: &Cnf) -> Result<(), OutOfMemory>
        requires stands { Stands formula.now self.old }
        requires two { 2 ≤ length self.old.starts.items }
        ensures stands { OnOk result (Stands formula.now self.new) }
        ensures moves { OnOk result (self.new.moves.items ≡ self.old.moves.items ++ AndMove ∷ []) }
        ensures fewer { OnOk result (length self.new.starts.items ≡ length self.old.starts.items - 1) }
    {
        self.moves.push(Move::And)?;
        let terms = self.starts.as_slice().len();
        self.starts.truncate(terms - 1);
        Ok(())
    }

    /// Quantifies a variable, on this line.
    pub(crate) fn exists(&mut self, formula: &Cnf, number: u64, line: u64) -> Result<(), PlanError>
        requires { Stands formula.now self.old }
        ensures stands { OnOk result (Stands formula.now self.new) }
        ensures takes { Takes result (taken formula.now self.old.moves.items (ExistsMove number ∷ [])) line self.new.moves.items }
        ensures memory { result ≡ Err NoMemory → fault_behind formula.now self.old.moves.items (ExistsMove number) ≡ None }
    {
        formula.formula_law();
        let terms = self.starts.as_slice().len();
        if terms == 0 {
            return Err(PlanError::Refused(PlanKind::StackShort, line));
        }
        let start = self.starts[terms - 1];
        if number < 1 || number > formula.vars() as u64 {
            return Err(PlanError::Refused(PlanKind::VariableRange, line));
        }
        let one = self.uses[number as usize];
        if one.earliest < start || one.to_come > 0 {
            return Err(PlanError::Refused(PlanKind::VariableInUse, line));
        }
        self.moves.push(Move::Exists(number as u32))?;
        self.uses[number as usize] = Use {
            to_come: 0,
            earliest: NEVER,
            seen: one.seen,
        };
        Ok(())
    }

    /// Quantifies a set of variables at once, on this line. Each test is made of all of them before the next one.
    pub(crate) fn exists_all(
        &mut self,
        formula: &Cnf,
        numbers: &[u64],
        line: u64,
    ) -> Result<(), PlanError>
        requires { Stands formula.now self.old }
        ensures stands { OnOk result (Stands formula.now self.new) }
        ensures takes { Takes result (taken formula.now self.old.moves.items (ExistsAllMove numbers.now ∷ [])) line self.new.moves.items }
        ensures memory { result ≡ Err NoMemory → fault_behind formula.now self.old.moves.items (ExistsAllMove numbers.now) ≡ None }
    {
        formula.formula_law();
        let terms = self.starts.as_slice().len();
        if terms == 0 {
            return Err(PlanError::Refused(PlanKind::StackShort, line));
        }
        let begun = self.starts[terms - 1];
        if is_any_out_of_range(formula, numbers) {
            return Err(PlanError::Refused(PlanKind::VariableRange, line));
        }
        if is_any_used(self.uses.as_slice(), numbers, begun) {
            return Err(PlanError::Refused(PlanKind::VariableInUse, line));
        }
        let set = variables_of(*self.moves.allocator(), numbers)?;
        self.moves.push(Move::ExistsAll(set))?;
        quantify_each(&mut self.uses, numbers);
        Ok(())
    }

    /// The moves, at the end of the text, on this line.
    pub(crate) fn finish(self, formula: &Cnf, line: u64) -> Result<Plan, PlanError>
        requires { Stands formula.now self }
        ensures moves { IfOk result (λ plan. plan ≡ self.moves.items) }
        ensures takes { Takes result (unless (end_fault_behind formula.now self.moves.items) (Ok self.moves.items)) line self.moves.items }
        ensures memory { result ≢ Err NoMemory }
        ensures admissible { IfOk result (IsAdmissible formula.now) }
    {
        if (self.pushes as usize) < formula.len() {
            return Err(PlanError::Refused(PlanKind::ClauseUnused, line));
        }
        if self.starts.as_slice().len() > 1 {
            return Err(PlanError::Refused(PlanKind::TermsLeft, line));
        }
        let ScheduleJudge {
            moves,
            uses: _,
            flags: _,
            starts: _,
            pushes: _,
        } = self;
        Ok(Plan::of_moves(moves))
    }
}
