// The defining clauses of a new node on the proof: those from the children up to the node, then those from the node
// down, whose candidates are the first ones. (Bryant, Heule: Generating Extended Resolution Proofs with a BDD-Based
// SAT Solver, 2021, section 4.)
ghost use Rattle.std.specs.Prelude.{◌≡◌, ◌≤◌, ◌<◌, ◌+◌, ◌++◌, ℤ, List, Some, IsTrue, OnOk, OnErr, IfOk, IfErr, true, false, is_some, length};
ghost use Rattle.std.specs.Prelude.{take};
ghost use Rattle.std.specs.Option.{option_to_list};
ghost use Rattle.cnf_base.specs.declared.step.Step.{Step};
ghost use Rattle.cnf_base.specs.ProofText.{given_if};
ghost use Rattle.lrat_rules.specs.Strict.{IsDefinition};
ghost use Rattle.hint_chain.specs.Atoms.{clause_from_atoms};
ghost use Rattle.clause_ledger.specs.Book.{AreTold};
ghost use Rattle.clause_ledger.specs.declared.error.LedgerError.TheVariants.{WriteFault};
ghost use Rattle.node_table.specs.Defined.{IsDefinedInPart, IsNewVariable, IsTornStep, count_atoms, definition_steps, definitions};
ghost use Rattle.node_table.specs.Defined.{one_if, step_of_some};

use clause_ledger::{Ledger, LedgerError};
use cnf_base::{Id, Lit};
use hint_chain::{Atom, clause_from_atoms};
use host_io::Sink;
use lrat_rules::live_law;

/// Writes the clauses that define u as the node of variable x with these children. Only `WriteFault` may come.
pub fn write_definitions<S: Sink + Drop>(
    ledger: &mut Ledger<S>,
    u: Lit,
    x: Lit,
    high: &Atom,
    low: &Atom,
) -> Result<(), LedgerError>
    requires in_step { IsTrue ledger.old.in_step }
    requires new_variable { IsNewVariable ledger.old.state.live u x high.now low.now }
    requires room { ledger.old.state.top + count_atoms high.now low.now ≤ ledger.old.limit }
    requires spare { 4 ≤ ledger.old.spare }
    ensures told { OnOk result (AreTold true ledger.old ledger.new
        (definition_steps ledger.old.state (definitions u x high.now low.now (ledger.old.state.top + 1)))) }
    ensures error { IfErr result (λ e. e ≡ WriteFault) }
    // A write failed: the definitions up to one of them were told.
    ensures torn { OnErr result ((more : List Step) × AreTold false ledger.old ledger.new more
        × IsDefinedInPart ledger.old.state ledger.new.state (definitions u x high.now low.now (ledger.old.state.top + 1)) more) }
{
    // Cited: what is live under a new number, and that live numbers are none above the greatest.
    live_law();
    let _ = ledger.last_id();
    let not_u = u.negated();
    let not_x = x.negated();
    let hu = write_one(ledger, &[Atom::Of(u), Atom::Of(not_x), high.negated()], &[])?;
    let lu = write_one(ledger, &[Atom::Of(u), Atom::Of(x), low.negated()], &[])?;
    let (ids, count) = in_row(hu, lu);
    let ups = &ids[..count];
    write_one(ledger, &[Atom::Of(not_u), Atom::Of(not_x), *high], ups)?;
    write_one(ledger, &[Atom::Of(not_u), Atom::Of(x), *low], ups)?;
    Ok(())
}

// The numbers that are given, in a row: an array, and how many of its places count.
fn in_row(first: Option<Id>, second: Option<Id>) -> ([Id; 2], usize)
    ensures within { result.1 ≤ 2 }
    ensures ids { take result.1 result.0 ≡ option_to_list first ++ option_to_list second }
{
    match (first, second) {
        (Some(first), Some(second)) => ([first, second], 2),
        (Some(only), None) | (None, Some(only)) => ([only, only], 1),
        (None, None) => ([Id(0), Id(0)], 0),
    }
}

// One of the clauses, if there is one, under the next number.
fn write_one<S: Sink + Drop>(
    ledger: &mut Ledger<S>,
    atoms: &[Atom],
    candidates: &[Id],
) -> Result<Option<Id>, LedgerError>
    requires in_step { IsTrue ledger.old.in_step }
    requires few { length atoms.now ≤ 4 }
    requires definition { (clause : List ℤ) → clause_from_atoms atoms.now ≡ Some clause → IsDefinition ledger.old.state.live clause candidates.now }
    requires room { ledger.old.state.top + one_if (is_some (clause_from_atoms atoms.now)) ≤ ledger.old.limit }
    requires spare { 0 < ledger.old.spare }
    ensures id { IfOk result (λ id. id ≡ given_if (is_some (clause_from_atoms atoms.now)) (ledger.old.state.top + 1)) }
    ensures told { OnOk result (AreTold true ledger.old ledger.new
        (step_of_some ledger.old.state (clause_from_atoms atoms.now) candidates.now)) }
    ensures spare { ledger.old.spare ≤ ledger.new.spare + 1 }
    ensures error { IfErr result (λ e. e ≡ WriteFault) }
    ensures torn { OnErr result (IsTornStep ledger.old ledger.new (clause_from_atoms atoms.now) candidates.now) }
{
    let Some(clause) = clause_from_atoms(atoms) else {
        return Ok(None);
    };
    let id = ledger.define(clause.as_slice(), candidates)?;
    Ok(Some(id))
}
