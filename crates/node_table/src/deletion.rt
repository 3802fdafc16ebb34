// The clauses that define nodes which aren't marked are deleted, some hundred by one line. Their numbers are collected on
// the stack, so that it takes no memory.
ghost use Rattle.std.specs.Prelude.{◌≡◌, ◌≤◌, ◌<◌, ◌+◌, ◌++◌, ℕ, List, Some, None, IsTrue, OnOk, OnErr, IfErr, true, length};
ghost use Rattle.arrayvec.specs.ArrayVec.{array_vec_len};
ghost use Rattle.lrat_rules.specs.State.{clause_at};
ghost use Rattle.lrat_rules.specs.Derivation.{are_added};
ghost use Rattle.clause_ledger.specs.declared.error.LedgerError.TheVariants.{WriteFault};
ghost use Rattle.node_table.specs.declared.node.Branch.{Branch as BranchValue};
ghost use Rattle.node_table.specs.Diagram.{IsReduced, branch_at};
ghost use Rattle.node_table.specs.Defined.{IsDefined};
ghost use Rattle.node_table.specs.Deleted.{DefinesUnmarked, Deletes, DeletesTorn, DeletesUnmarked, TearsUnmarked};
ghost use Rattle.node_table.specs.Deleted.{unmarked_defs, with_defs, with_given};
ghost use Rattle.node_table.specs.Made.{inner};
ghost use Rattle.node_table.specs.Marks.{is_marked};
ghost use Rattle.node_table.specs.Places.{AreNumberedAbove};
ghost use Rattle.node_table.specs.Tied.{KeepsClauses};

use crate::diagram::Diagram;
use crate::marks::Marks;
use crate::node::{Defs, Node, NodeKey};
use crate::numbers::defs_of;
use arrayvec::ArrayVec;
use clause_ledger::{Ledger, LedgerError};
use cnf_base::Id;
use host_io::Sink;

// The numbers of one line.
type Ids = ArrayVec<Id, 512>;

// With more than these, the four of one more node may not fit.
const FULL: usize = 508;

/// Deletes the clauses that define nodes which aren't marked. It takes no memory; only `WriteFault` may come.
pub fn delete_definitions<S: Sink + Drop>(
    ledger: &mut Ledger<S>,
    diagram: &Diagram,
    marks: &Marks,
) -> Result<(), LedgerError>
    requires in_step { IsTrue ledger.old.in_step }
    requires reduced { IsReduced diagram.now }
    requires defined { (key : ℕ) (branch : BranchValue) → branch_at diagram.now key ≡ Some branch
        → IsDefined ledger.old.state.live diagram.now branch }
    // no clause of the formula is among them
    requires numbered { AreNumberedAbove (length ledger.old.formula) diagram.now }
    ensures gone { OnOk result ((id : ℕ) → DefinesUnmarked diagram.now marks.now id → clause_at ledger.new.state.live id ≡ None) }
    // However it ends, the others stay.
    ensures stay { (id : ℕ) → (DefinesUnmarked diagram.now marks.now id → ⊥) → clause_at ledger.new.state.live id
        ≡ clause_at ledger.old.state.live id }
    ensures among { KeepsClauses ledger.new.state.live ledger.old.state.live }
    ensures top { ledger.new.state.top ≡ ledger.old.state.top }
    // The steps that were told are these deletions.
    ensures lines { OnOk result (DeletesUnmarked ledger.old ledger.new diagram.now marks.now) }
    ensures front { OnErr result (TearsUnmarked ledger.old ledger.new diagram.now marks.now) }
    ensures error { IfErr result (λ e. e ≡ WriteFault) }
{
    let mut ids = Ids::new();
    'keys: for index in 0..diagram.key_end() {
        let Some(defs) = unmarked_at(diagram, marks, index) else {
            continue;
        };
        make_room(ledger, &mut ids)?;
        push_all(&mut ids, &defs);
    }
    delete_all(ledger, ids.as_slice())?;
    Ok(())
}

// The numbers of the clauses that define the node under a key, unless it is marked.
fn unmarked_at(diagram: &Diagram, marks: &Marks, index: u32) -> Option<Defs>
    ensures { result ≡ unmarked_defs (is_marked marks.now (inner index)) (branch_at diagram.now index) }
{
    let node = Node::Inner(NodeKey { index });
    if marks.is_marked(node) {
        return None;
    }
    match diagram.branch(node) {
        None => None,
        Some(branch) => Some(defs_of(&branch)),
    }
}

// Deletes what was collected where the clauses of one more node may not fit.
fn make_room<S: Sink + Drop>(ledger: &mut Ledger<S>, ids: &mut Ids) -> Result<(), LedgerError>
    requires in_step { IsTrue ledger.old.in_step }
    requires live { IsTrue (are_added (length ledger.old.formula) ledger.old.state.live ids.old.items) }
    ensures room { OnOk result (array_vec_len ids.new ≤ 508) }
    ensures deleted { OnOk result ((deleted : List ℕ) × (deleted ++ ids.new.items ≡ ids.old.items)
        × Deletes true ledger.old ledger.new deleted) }
    ensures error { IfErr result (λ e. e ≡ WriteFault) }
    ensures torn { OnErr result (DeletesTorn ledger.old ledger.new ids.old.items) }
{
    if ids.len() <= FULL {
        return Ok(());
    }
    delete_all(ledger, ids.as_slice())?;
    ids.clear();
    Ok(())
}

// Deletes clauses by one line.
fn delete_all<S: Sink + Drop>(ledger: &mut Ledger<S>, ids: &[Id]) -> Result<(), LedgerError>
    requires in_step { IsTrue ledger.old.in_step }
    requires live { IsTrue (are_added (length ledger.old.formula) ledger.old.state.live ids.now) }
    ensures deleted { OnOk result (Deletes true ledger.old ledger.new ids.now) }
    ensures error { IfErr result (λ e. e ≡ WriteFault) }
    ensures torn { OnErr result (DeletesTorn ledger.old ledger.new ids.now) }
{
    ledger.delete(ids)?;
    Ok(())
}

fn push_all(ids: &mut Ids, defs: &Defs)
    requires { array_vec_len ids.old ≤ 508 }
    ensures { ids.new.items ≡ with_defs ids.old.items defs.now }
{
    push_given(ids, defs.hu);
    push_given(ids, defs.lu);
    push_given(ids, defs.hd);
    push_given(ids, defs.ld);
}

fn push_given(ids: &mut Ids, given: Option<Id>)
    requires { array_vec_len ids.old < 512 }
    ensures items { ids.new.items ≡ with_given ids.old.items given }
    ensures len { array_vec_len ids.new ≤ array_vec_len ids.old + 1 }
{
    if let Some(id) = given {
        ids.push(id);
    }
}
