// Plans: which clauses are pushed, conjoined and quantified in turn. (Bryant, Heule: Generating Extended Resolution
// Proofs with a BDD-Based SAT Solver, 2021, section 5.)
ghost use Rattle.std.specs.Prelude.{◌≡◌, ◌≢◌, ◌⊎◌, Err, IsTrue, IfOk, IfNone, IfSome, None, Some, length};
ghost use Rattle.std.specs.List.{slice_get};
ghost use Rattle.schedule_plan.specs.Plan.{IsAdmissible, conjoin};
ghost use Rattle.schedule_plan.specs.Bucket.{bucket};
ghost use Rattle.host_io.specs.Channel.{Rose};
ghost use Rattle.text_scan.specs.Decides.{gained, Decides, OnlyReads};
ghost use Rattle.schedule_plan.specs.declared.schedule.error.PlanError.TheVariants.{ReadFault, OutOfMemory as NoMemory};
ghost use Rattle.schedule_plan.specs.ScheduleText.{schedule, schedule_so_far, overlong};
ghost use Rattle.schedule_plan.specs.ScheduleState.{Answers};
ghost use Rattle.schedule_plan.specs.ScheduleMemory.{may_want_memory};

use crate::emit::bucket_moves;
use crate::forest::buckets;
use crate::links::linked;
use crate::occurrence::occurrences;
use crate::order::Order;
use crate::schedule::error::PlanError;
use crate::schedule::read::read_schedule;
use crate::variables::Variables;
use cnf_base::{Cnf, OutOfMemory};
use host_io::Source;
use std::alloc::Global;
use std::marker::Model;

/// One step of a plan.
#[derive(Debug, Drop)]
pub enum Move {
    /// Pushes the term of the clause of this number, from 1.
    Push(u32),
    /// Takes the two top terms, and pushes their conjunction.
    And,
    /// Quantifies this variable from the top term.
    Exists(u32),
    /// Quantifies all variables of this set from the top term.
    ExistsAll(Variables),
}

/// A list of moves.
#[derive(Drop)]
pub struct Plan {
    moves: Vec<Move>,
}

impl Model for Plan {
    ghost use Rattle.std.specs.Prelude.{List};
    ghost use Rattle.schedule_plan.specs.declared.plan.Move.{Move};

    ghost Value = { List Move };

    ghost view = { λ p. p.moves.items };
}

impl Plan {
    /// Conjoins the clauses one by one, in the order of the file.
    pub fn conjoin(alloc: Global, formula: &Cnf) -> Result<Plan, OutOfMemory>
        ensures moves { IfOk result (λ plan. plan ≡ conjoin (length formula.now.clauses)) }
        ensures admissible { IfOk result (IsAdmissible formula.now) }
    {
        formula.formula_law();
        let mut moves = Vec::new(alloc);
        for clause in 0..formula.len() as u32 {
            moves.push(Move::Push(clause + 1))?;
            if clause > 0 {
                moves.push(Move::And)?;
            }
        }
        Ok(Plan { moves })
    }

    /// The bucket plan: the variables are quantified in the order, each as soon as all terms that hold it are conjoined.
    pub fn bucket(alloc: Global, formula: &Cnf, order: &Order) -> Result<Plan, OutOfMemory>
        requires order { length order.now ≡ formula.now.vars }
        ensures moves { IfOk result (λ plan. plan ≡ bucket formula.now order.now) }
        ensures admissible { IfOk result (IsAdmissible formula.now) }
    {
        formula.formula_law();
        let occurrences = occurrences(alloc, formula, order)?;
        let buckets = buckets(alloc, formula, order, occurrences.as_slice())?;
        let links = linked(alloc, buckets.as_slice(), order.as_slice().len() + 2)?;
        let moves = bucket_moves(alloc, formula, order, &links)?;
        Ok(Plan { moves })
    }

    /// A plan of these moves, whether it is admissible or not.
    pub fn of_moves(moves: Vec<Move>) -> Plan
        ensures { result ≡ moves.items }
    {
        Plan { moves }
    }

    /// Reads a schedule: one command a line, `c` with the clauses that are pushed, `a` with how many top terms are
    /// conjoined, `q` with the variables that are quantified in turn, `e` with those of a set that is quantified at once.
    /// Lines that begin with `#` are skipped. A text has at most 4,000,000,000 bytes. No read follows once the answer is
    /// decided.
    pub fn read<S: Source>(alloc: Global, formula: &Cnf, source: &mut S) -> Result<Plan, PlanError>
        // The answer is the format's of the bytes that were taken and whatever may follow them, so of the whole text.
        ensures decides { IsTrue S.tells → Decides (S.channel source.old) (S.channel source.new)
            (λ bytes more. Answers result (schedule formula.now bytes)) }
        ensures fault { result ≡ Err ReadFault → Rose (S.channel source.old).faults (S.channel source.new).faults }
        // no failed read is told as anything else
        ensures unfailed { result ≢ Err ReadFault → (S.channel source.new).faults ≡ (S.channel source.old).faults }
        // a read fails only where the bytes taken decide nothing yet
        ensures undecided { IsTrue S.tells → result ≡ Err ReadFault →
            schedule_so_far formula.now (gained (S.channel source.old) (S.channel source.new)) ≡ overlong }
        // Memory is wanted only before the first byte, for what is kept of the formula, or for a number behind a command, or for a move
        // that has no fault, with no more tokens behind in the bytes taken than a block can spell.
        ensures memory { IsTrue S.tells → result ≡ Err NoMemory → (S.channel source.new ≡ S.channel source.old)
            ⊎ Decides (S.channel source.old) (S.channel source.new)
            (λ bytes more. IsTrue (may_want_memory formula.now (length more) bytes)) }
        ensures admissible { IfOk result (IsAdmissible formula.now) }

        ensures reads { OnlyReads (S.channel source.old) (S.channel source.new) }
        ensures beside { S.beside source.new ≡ S.beside source.old }
    {
        read_schedule(alloc, formula, source)
    }

    pub fn len(&self) -> usize
        ensures { result ≡ length self.now }
    {
        self.moves.len()
    }

    /// The move of a place, from 0; None exactly where there is none.
    pub fn get(&self, i: usize) -> Option<&Move>
        ensures some { IfSome result (λ step. slice_get self.now i ≡ Some step.now) }
        ensures none { IfNone result (slice_get self.now i ≡ None) }
    {
        self.moves.get(i)
    }
}
