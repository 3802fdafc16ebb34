// A runner, from its opening to the end of its proof. Terms are asked for one by one, and what was written is flushed at the end; or what
// it has is handed on to a plan (`handover`). The sink may be a lent one.
ghost use Rattle.std.specs.Prelude.{◌≡◌, ◌≤◌, ◌++◌, ◌∷◌, ℕ, true, false, List, [], length, IsTrue, IfOk, IfErr, OnErr, OnOk};
ghost use Rattle.std.specs.FinMap as map;
ghost use Rattle.cnf_base.specs.declared.step.Step.{Step};
ghost use Rattle.cnf_base.specs.Limits.{max_vars};
ghost use Rattle.clause_ledger.specs.Book.{IsBook, IsTextOf, after_steps};
ghost use Rattle.host_io.specs.Channel.{Rose};
ghost use Rattle.lrat_rules.specs.Derivation.{IsCutProof, IsWritten};
ghost use Rattle.lrat_rules.specs.State.{start};
ghost use Rattle.node_table.specs.Table.{live_nodes};
ghost use Rattle.schedule_plan.specs.Limits.{AreLimits};
ghost use Rattle.bdd_terms.specs.Caches.{HaveSize, all_entries};
ghost use Rattle.bdd_terms.specs.Runner.{IsRunner};
ghost use Rattle.bdd_terms.specs.Unused.{IsOpenedOver};

use crate::caches::Caches;
use crate::error::RunError;
use crate::held::HeldTerm;
use crate::reading::Reading;
use crate::terms::Terms;
use clause_ledger::Ledger;
use cnf_base::{Cnf, Id, OutOfMemory};
use host_io::Sink;
use lrat_rules::start_law;
use node_table::{Diagram, Table, opening_law};
use schedule_plan::{Limits, Order};
use std::alloc::Global;

/// What a runner takes memory for when it is opened: the places of the variables, and empty caches.
#[derive(Drop)]
pub struct Parts {
    diagram: Diagram,
    caches: Caches,
}

impl Parts {
    /// Those of this order, with so many entries for each cache.
    pub fn new(alloc: Global, order: &Order, capacity: u32) -> Result<Parts, OutOfMemory>
        requires few { length order.now ≤ max_vars }
        requires capacity { 1 ≤ capacity }
        ensures { IfOk result (λ parts. (parts.diagram ≡ record { order = order.now; nodes = map.empty })
            × (all_entries parts.caches ≡ []) × HaveSize parts.caches capacity) }
    {
        let diagram = Diagram::new(alloc, order.as_slice())?;
        let caches = Caches::new(alloc, capacity)?;
        Ok(Parts { diagram, caches })
    }
}

/// The terms of a formula on one proof, which goes to a sink: those of its clauses, and what comes of them.
#[derive(Drop)]
pub struct Runner<'a, S: Sink + Drop> {
    pub(crate) formula: &'a Cnf,
    pub(crate) limits: Limits,
    pub(crate) terms: Terms<S>,
    // Whether the empty clause was added.
    pub(crate) refuted: bool,
    // The first term that was False, once it is released: its clause stays.
    pub(crate) kept: Option<HeldTerm>,
    // The clauses of cubes that were refused, which stay.
    pub(crate) refusals: Vec<Id>,
}

impl<'a, S: Sink + Drop> Runner<'a, S> {
    /// Opens a runner over a formula and a sink. A refusal hands the sink back, to which nothing was written.
    pub fn open(
        alloc: Global,
        formula: &'a Cnf,
        order: &Order,
        limits: Limits,
        sink: S,
    ) -> Result<Runner<'a, S>, (S, OutOfMemory)>
        requires order { length order.now ≡ formula.now.vars }
        requires limits { AreLimits limits }
        ensures opened { IfOk result (IsOpenedOver formula.now order.now limits sink) }
        ensures runner { IfOk result IsRunner }
        ensures refused { IfErr result (λ back. back.0 ≡ sink) }
    {
        formula.formula_law();
        match Parts::new(alloc, order, limits.cache) {
            Ok(parts) => Ok(Runner::new(alloc, formula, order, parts, limits, sink)),
            Err(e) => Err((sink, e)),
        }
    }

    /// The runner of these parts, which are those of this order. The sink may be a lent one.
    pub fn new(
        alloc: Global,
        formula: &'a Cnf,
        order: &Order,
        parts: Parts,
        limits: Limits,
        sink: S,
    ) -> Runner<'a, S>
        requires order { length order.now ≡ formula.now.vars }
        requires limits { AreLimits limits }
        requires diagram { parts.diagram ≡ record { order = order.now; nodes = map.empty } }
        requires no_entries { all_entries parts.caches ≡ [] }
        requires size { HaveSize parts.caches limits.cache }
        ensures opened { IsOpenedOver formula.now order.now limits sink result }
        ensures runner { IsRunner result }
    {
        start_law();
        opening_law::<S>();
        formula.formula_law();
        let _order = order.as_slice();
        let Parts { diagram, caches } = parts;
        let ledger = Ledger::new(formula, sink, limits.max_ids);
        let table = Table::new(alloc, ledger, diagram, limits.max_nodes);
        let refusals = Vec::new(alloc);
        Runner {
            formula,
            limits,
            terms: Terms::new(alloc, table, caches),
            refuted: false,
            kept: None,
            refusals,
        }
    }

    /// Flushes what was written, and answers the greatest clause number. Only `WriteFault` may come.
    pub fn close(self) -> (S, Result<u64, RunError>)
        requires in_step { IsTrue self.terms.table.book.in_step }
        requires none_out { length self.terms.out.items ≡ 0 }
        ensures last { IfOk result.1 (λ last. last ≡ self.entry.terms.table.book.state.top) }
        ensures error { IfErr result.1 (λ e. e ≡ RunError.WriteFault) }
        ensures written { (S.channel result.0).written ≡ (S.channel self.entry.terms.table.book.sink).written }
        ensures flushed { IsTrue S.tells → OnOk result.1 ((S.channel result.0).flushed ≡ length (S.channel result.0).written) }
        ensures unfailed { OnOk result.1 ((S.channel result.0).faults ≡ (S.channel self.entry.terms.table.book.sink).faults) }
        ensures fault { OnErr result.1 (Rose (S.channel self.entry.terms.table.book.sink).faults (S.channel result.0).faults) }
        ensures name { (S.channel result.0).name ≡ (S.channel self.entry.terms.table.book.sink).name }
        ensures beside { S.beside result.0 ≡ S.beside self.entry.terms.table.book.sink }
    {
        let mut ledger = self.terms.into_ledger();
        let result = flush(&mut ledger);
        (ledger.close(), result)
    }

    /// Hands the sink back as it is, at any time.
    pub fn into_sink(self) -> S
        ensures { result ≡ self.entry.terms.table.book.sink }
    {
        self.terms.into_ledger().close()
    }

    /// Whether the empty clause was added.
    pub fn is_refuted(&self) -> bool
        ensures { result ≡ self.now.refuted }
    {
        self.refuted
    }

    /// The variables, the top one first.
    pub fn order(&self) -> &[u32]
        ensures { result.now ≡ self.now.terms.table.graph.order }
    {
        self.terms.table.order()
    }

    /// What was used so far, before a plan of so many moves.
    pub fn reading(&self, all_moves: usize) -> Reading {
        self.terms.reading(all_moves)
    }

    /// For the prover alone: the steps so far prove what is live, and the sink has their lines, so that what was written is a proof,
    /// whole or cut short in its last line; and there are no more nodes than are allowed.
    pub fn proof_law(&self)
        ensures book { IsBook S.tells S.channel S.beside self.now.terms.table.book }
        ensures written { (bytes : List ℕ) → IsTextOf true self.now.terms.table.book.steps bytes
            → IsWritten self.now.terms.table.book.formula bytes self.now.terms.table.book.state }
        ensures cut { (bytes : List ℕ) (earlier : List Step) (last : Step) → IsTextOf false self.now.terms.table.book.steps bytes
            → self.now.terms.table.book.steps ≡ earlier ++ last ∷ []
            → IsCutProof self.now.terms.table.book.formula bytes (after_steps (start self.now.terms.table.book.formula) earlier)
            self.now.terms.table.book.state }
        ensures few { live_nodes self.now.terms.table.graph ≤ self.now.terms.table.max_nodes }
    {
        self.terms.table.table_law();
        self.terms.table.ledger().book_law();
    }
}

// Flushes the proof, and answers the greatest clause number.
fn flush<S: Sink + Drop>(ledger: &mut Ledger<S>) -> Result<u64, RunError>
    requires in_step { IsTrue ledger.old.in_step }
    ensures last { IfOk result (λ last. last ≡ ledger.old.state.top) }
    ensures error { IfErr result (λ e. e ≡ RunError.WriteFault) }
    ensures written { (S.channel ledger.new.sink).written ≡ (S.channel ledger.old.sink).written }
    ensures flushed { IsTrue S.tells → OnOk result ((S.channel ledger.new.sink).flushed ≡ length (S.channel ledger.new.sink).written) }
    ensures unfailed { OnOk result ((S.channel ledger.new.sink).faults ≡ (S.channel ledger.old.sink).faults) }
    ensures fault { OnErr result (Rose (S.channel ledger.old.sink).faults (S.channel ledger.new.sink).faults) }
    ensures name { (S.channel ledger.new.sink).name ≡ (S.channel ledger.old.sink).name }
    ensures beside { S.beside ledger.new.sink ≡ S.beside ledger.old.sink }
{
    ledger.book_law();
    let last = ledger.last_id();
    match ledger.finish() {
        Ok(()) => {
            ledger.book_law();
            Ok(last)
        }
        Err(_) => {
            ledger.book_law();
            Err(RunError::WriteFault)
        }
    }
}
