// The ledger: a formula, the steps of its proof, and what is live behind them.
ghost use Rattle.std.specs.Prelude.{◌≡◌, ◌≢◌, ◌<◌, ◌≤◌, ◌+◌, ◌-◌, ◌++◌, ◌↔◌, ◌∷◌, ℕ, ℤ, List, [], Some, true, false, IsTrue, OnOk, IfOk, IfErr};
ghost use Rattle.std.specs.Prelude.{IsErrOf, OnErr, IfSome, is_ok, is_some, length};
ghost use Rattle.std.specs.Option.{option_copied};
ghost use Rattle.cnf_base.specs.declared.step.Step.{Step};
ghost use Rattle.cnf_base.specs.ProofText.{max_id};
ghost use Rattle.lrat_rules.specs.State.{start, clause_at};
ghost use Rattle.lrat_rules.specs.Strict.{RefutesStrictly, IsDefinition};
ghost use Rattle.lrat_rules.specs.Derivation.{IsCutProof, IsWritten, are_added};
ghost use Rattle.clause_ledger.specs.Book.{AreTold, IsBook, IsTextOf, addition, after_steps, definition, deletion};
ghost use Rattle.clause_ledger.specs.Kept.{AreKept, ample_room, room_of};

use crate::error::LedgerError;
use crate::history::{Change, History};
use crate::kept::{Kept, push_kept, remove_kept, reserve_kept};
use cnf_base::{Cnf, Id, Lit, OutOfMemory};
use host_io::Sink;
use lrat_rules::{definition_law, derivation_law, live_law, start_law, strict_addition_law};
use lrat_write::{write_add, write_define, write_delete};
use std::alloc::Global;
use std::marker::Model;
use std::snapshot::Snapshot;

/// A formula, the steps of its proof, which go to a sink line by line, and the clauses that are live behind them. The
/// clauses themselves are kept only where they are to be read.
#[derive(Drop)]
pub struct Ledger<S: Sink + Drop> {
    sink: S,
    origin: Snapshot<S>,
    history: History,
    kept: Option<Kept>,
    top: u64,
    max_ids: u64,
    in_step: bool,
}

impl<S: Sink + Drop> Model for Ledger<S> {
    ghost use Rattle.std.specs.Prelude.{◌≡◌, ◌≤◌, IfSome, is_some};
    ghost use Rattle.cnf_base.specs.ProofText.{max_id};
    ghost use Rattle.clause_ledger.specs.Book.{Book, IsProofOf, IsSince, book_code};
    ghost use Rattle.clause_ledger.specs.Kept.{AreKept, room_of};

    ghost Value = { Book S };

    ghost coded = { book_code S.code };

    ghost view = { λ l. record {
      sink = l.sink;
      origin = l.origin.value;
      formula = l.history.story.formula;
      steps = l.history.story.steps;
      state = l.history.story.state;
      limit = l.max_ids;
      in_step = l.in_step;
      finished = l.history.story.finished;
      keeps = is_some l.kept;
      spare = room_of l.kept;
    } };

    ghost invariant = { λ l. (l.max_ids ≤ max_id) × (l.top ≤ max_id) × (l.history.story.state.top ≡ l.top)
        × IsProofOf l.history.story.formula l.history.story.steps l.history.story.state
        × IsSince S.tells l.in_step l.history.story.finished l.history.story.steps (S.channel l.origin.value) (S.channel l.sink)
        × (S.beside l.sink ≡ S.beside l.origin.value) × IfSome l.kept (AreKept l.history.story.state) };
}

impl<S: Sink + Drop> Ledger<S> {
    /// Opens a ledger with the clauses of a formula, whose numbers are 1, 2, .., and keeps all live clauses, so that `clause`
    /// can be called. `max_ids` is the greatest number allowed for additions. A refusal for want of memory hands the sink
    /// back.
    pub fn open(
        alloc: Global,
        formula: &Cnf,
        sink: S,
        max_ids: u64,
    ) -> Result<Ledger<S>, (S, OutOfMemory)>
        requires limit { max_ids ≤ max_id }
        ensures opened { IfOk result (λ ledger. ledger ≡ record {
          sink = sink;
          origin = sink;
          formula = formula.now.clauses;
          steps = [];
          state = start formula.now.clauses;
          limit = max_ids;
          in_step = true;
          finished = false;
          keeps = true;
          spare = ledger.spare;
        }) }
        ensures refused { IfErr result (λ back. back.0 ≡ sink) }
    {
        start_law();
        formula.formula_law();
        match Kept::of(alloc, formula) {
            Ok(kept) => Ok(Ledger::begin(formula, Some(kept), sink, max_ids)),
            Err(e) => Err((sink, e)),
        }
    }

    /// A ledger with the clauses of a formula, whose numbers are 1, 2, .. It keeps no clause, so that it takes no memory, now
    /// and later.
    pub fn new(formula: &Cnf, sink: S, max_ids: u64) -> Self
        requires limit { max_ids ≤ max_id }
        ensures { result ≡ record {
          sink = sink;
          origin = sink;
          formula = formula.now.clauses;
          steps = [];
          state = start formula.now.clauses;
          limit = max_ids;
          in_step = true;
          finished = false;
          keeps = false;
          spare = ample_room;
        } }
    {
        Ledger::begin(formula, None, sink, max_ids)
    }

    // A ledger with the clauses of a formula, and what is kept of them.
    fn begin(formula: &Cnf, kept: Option<Kept>, sink: S, max_ids: u64) -> Self
        requires limit { max_ids ≤ max_id }
        requires kept { IfSome kept (AreKept (start formula.now.clauses)) }
        ensures { result ≡ record {
          sink = sink;
          origin = sink;
          formula = formula.now.clauses;
          steps = [];
          state = start formula.now.clauses;
          limit = max_ids;
          in_step = true;
          finished = false;
          keeps = is_some kept;
          spare = room_of kept;
        } }
    {
        start_law();
        derivation_law();
        formula.formula_law();
        let top = formula.len() as u64;
        let origin = Snapshot::of(&sink);
        let history = History::new().then(&Change::Start(formula));
        Ledger {
            sink,
            origin,
            history,
            kept,
            top,
            max_ids,
            in_step: true,
        }
    }

    /// For the prover alone: the steps prove the live clauses, and the sink has their lines. So what was written is a proof of
    /// what is live, or, out of step, one that was cut short in the line of its last step.
    pub fn book_law(&self)
        ensures book { IsBook S.tells S.channel S.beside self.now }
        ensures written { (bytes : List ℕ) → IsTextOf true self.now.steps bytes → IsWritten self.now.formula bytes self.now.state }
        ensures cut { (bytes : List ℕ) (earlier : List Step) (last : Step) → IsTextOf false self.now.steps bytes
            → self.now.steps ≡ earlier ++ last ∷ []
            → IsCutProof self.now.formula bytes (after_steps (start self.now.formula) earlier) self.now.state }
    {
        derivation_law();
        let _top = self.top;
    }

    /// Adds a clause under the next number, with a strict refutation of its negation as hints.
    pub fn add(&mut self, clause: &[Lit], hints: &[Id]) -> Result<Id, LedgerError>
        requires in_step { IsTrue self.old.in_step }
        requires strict { RefutesStrictly self.old.state.live clause.now hints.now }
        ensures added { IfOk result (λ id. (id ≡ self.old.state.top + 1)
            × AreTold true self.old self.new (addition self.old.state clause.now hints.now ∷ [])) }

        // The number limit is tried first; it and want of memory change nothing.
        ensures id_limit { IsErrOf result LedgerError.IdLimit ↔ (self.old.limit ≤ self.old.state.top) }
        ensures unchanged { IfErr result (λ e. e ≢ LedgerError.WriteFault → self.new ≡ self.old) }

        // Short clauses use up the room that `reserve` made one by one, and find memory while there is some; a long one uses up
        // all of it. Where no clause is kept none is wanted.
        ensures memory { IsErrOf result LedgerError.OutOfMemory → length clause.now ≤ 4 → self.old.spare ≡ 0 }
        ensures memory_to_keep { IsErrOf result LedgerError.OutOfMemory → IsTrue self.old.keeps }
        ensures spare { length clause.now ≤ 4 → self.old.spare ≤ self.new.spare + 1 }

        // A failed write leaves the ledger out of step: its line may be cut short.
        ensures torn { IsErrOf result LedgerError.WriteFault
            → AreTold false self.old self.new (addition self.old.state clause.now hints.now ∷ []) }
    {
        derivation_law();
        strict_addition_law();
        live_law();
        let id = self.next_id()?;
        push_kept(&mut self.kept, clause)?;
        self.history = self.history.then(&Change::Add(clause, hints));
        self.top = id.get();
        match write_add(&mut self.sink, id, clause, hints) {
            Ok(()) => Ok(id),
            Err(_) => Err(put_out(&mut self.in_step)),
        }
    }

    /// Adds a clause under the next number by its first literal: each live clause that holds its negation is named as
    /// a candidate, and blocked. Answers and failures are those of `add`.
    pub fn define(&mut self, clause: &[Lit], candidates: &[Id]) -> Result<Id, LedgerError>
        requires in_step { IsTrue self.old.in_step }
        requires definition { IsDefinition self.old.state.live clause.now candidates.now }
        ensures added { IfOk result (λ id. (id ≡ self.old.state.top + 1)
            × AreTold true self.old self.new (definition self.old.state clause.now candidates.now ∷ [])) }
        ensures id_limit { IsErrOf result LedgerError.IdLimit ↔ (self.old.limit ≤ self.old.state.top) }
        ensures unchanged { IfErr result (λ e. e ≢ LedgerError.WriteFault → self.new ≡ self.old) }
        ensures memory { IsErrOf result LedgerError.OutOfMemory → length clause.now ≤ 4 → self.old.spare ≡ 0 }
        ensures memory_to_keep { IsErrOf result LedgerError.OutOfMemory → IsTrue self.old.keeps }
        ensures spare { length clause.now ≤ 4 → self.old.spare ≤ self.new.spare + 1 }
        ensures torn { IsErrOf result LedgerError.WriteFault
            → AreTold false self.old self.new (definition self.old.state clause.now candidates.now ∷ []) }
    {
        derivation_law();
        definition_law();
        live_law();
        let id = self.next_id()?;
        push_kept(&mut self.kept, clause)?;
        self.history = self.history.then(&Change::Define(clause, candidates));
        self.top = id.get();
        match write_define(&mut self.sink, id, clause, candidates) {
            Ok(()) => Ok(id),
            Err(_) => Err(put_out(&mut self.in_step)),
        }
    }

    /// Deletes clauses that were added, by one line under the last number; an empty list writes nothing. Only
    /// `WriteFault` may come.
    pub fn delete(&mut self, ids: &[Id]) -> Result<(), LedgerError>
        requires in_step { IsTrue self.old.in_step }
        // Distinct numbers of live clauses, above those of the formula, which the book holds. A table has its own count (`inputs`),
        // which is no less.
        requires live { IsTrue (are_added (length self.old.formula) self.old.state.live ids.now) }
        ensures told { AreTold (is_ok result) self.old self.new (deletion self.old.state ids.now) }
        ensures room { self.new.spare ≡ self.old.spare }
        ensures error { IfErr result (λ e. e ≡ LedgerError.WriteFault) }
        ensures some { OnErr result (ids.now ≢ []) }
    {
        derivation_law();
        if ids.is_empty() {
            return Ok(());
        }
        remove_kept(&mut self.kept, ids);
        self.history = self.history.then(&Change::Delete(ids));
        match write_delete(&mut self.sink, Id(self.top), ids) {
            Ok(()) => Ok(()),
            Err(_) => Err(put_out(&mut self.in_step)),
        }
    }

    /// Makes room for so many more clauses of at most four literals each: as many calls of `add` or `define` with such
    /// clauses don't answer `OutOfMemory`. Room grows in steps, so that it may be asked for before every few clauses.
    pub fn reserve(&mut self, n: usize) -> Result<(), OutOfMemory>
        ensures room { OnOk result (n ≤ self.new.spare) }
        ensures not_less { self.old.spare ≤ self.new.spare }
        ensures memory_to_keep { OnErr result (IsTrue self.old.keeps) }
        ensures unchanged { self.new ≡ record self.old { spare = self.new.spare } }
    {
        reserve_kept(&mut self.kept, n)
    }

    /// The clause of a number, where it is live. Only a ledger that keeps clauses can tell it.
    pub fn clause(&self, id: Id) -> Option<&[Lit]>
        requires { IsTrue self.now.keeps }
        ensures { option_copied result ≡ clause_at self.now.state.live id }
    {
        match &self.kept {
            Some(kept) => kept.clause(id),
            None => None,
        }
    }

    /// Whether clauses are kept, so that `clause` can be called: true as `open` left it, false as `new` did.
    pub fn keeps_clauses(&self) -> bool
        ensures { result ≡ self.now.keeps }
    {
        self.kept.is_some()
    }

    /// The greatest number so far; live clauses have the numbers from 1 up to it.
    pub fn last_id(&self) -> u64
        ensures value { result ≡ self.now.state.top }
        ensures range { result ≤ max_id }
        ensures numbers { (id : ℕ) (clause : List ℤ) → clause_at self.now.state.live id ≡ Some clause → (0 < id)
            × (id ≤ self.now.state.top) }
    {
        self.top
    }

    /// How many numbers are left under the limit.
    pub fn ids_left(&self) -> u64
        ensures { result ≡ self.now.limit - self.now.state.top }
    {
        self.max_ids.saturating_sub(self.top)
    }

    /// False exactly once a call has answered `WriteFault`.
    pub fn is_in_step(&self) -> bool
        ensures { result ≡ self.now.in_step }
    {
        self.in_step
    }

    /// Flushes all that was written. Only `WriteFault` may come.
    pub fn finish(&mut self) -> Result<(), LedgerError>
        requires { IsTrue self.old.in_step }
        ensures state { self.new ≡ record self.old { sink = self.new.sink; in_step = is_ok result; finished = true } }
        ensures written { (S.channel self.new.sink).written ≡ (S.channel self.old.sink).written }
        ensures flushed { IsTrue S.tells → OnOk result ((S.channel self.new.sink).flushed ≡ length (S.channel self.new.sink).written) }
        ensures unflushed { OnErr result ((S.channel self.new.sink).flushed ≡ (S.channel self.old.sink).flushed) }
        ensures error { IfErr result (λ e. e ≡ LedgerError.WriteFault) }
    {
        self.history = self.history.then(&Change::Finish);
        match self.sink.flush() {
            Ok(()) => Ok(()),
            Err(_) => Err(put_out(&mut self.in_step)),
        }
    }

    // The next number, unless the limit is reached.
    fn next_id(&self) -> Result<Id, LedgerError>
        ensures next { IfOk result (λ id. (id ≡ self.now.state.top + 1) × (id ≤ max_id) × (self.now.state.top < self.now.limit)) }
        ensures limit { IfErr result (λ e. (e ≡ LedgerError.IdLimit) × (self.now.limit ≤ self.now.state.top)) }
    {
        let next = self.top + 1;
        if next > self.max_ids {
            return Err(LedgerError::IdLimit);
        }
        Ok(Id(next))
    }

    /// Hands the sink back.
    pub fn close(self) -> S
        ensures { result ≡ self.sink }
    {
        let Ledger {
            sink,
            origin: _,
            history: _,
            kept: _,
            top: _,
            max_ids: _,
            in_step: _,
        } = self;
        sink
    }
}

// Remembers that a call of the sink failed.
fn put_out(in_step: &mut bool) -> LedgerError
    ensures error { result ≡ LedgerError.WriteFault }
    ensures out_of_step { in_step.new ≡ false }
{
    *in_step = false;
    LedgerError::WriteFault
}
