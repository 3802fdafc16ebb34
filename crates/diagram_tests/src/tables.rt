// A table over a ledger that keeps its clauses, and the texts of refusals.
ghost use Rattle.std.specs.Prelude.{◌≡◌, ◌<◌, ◌≤◌, IfOk, length};
ghost use Rattle.cnf_base.specs.Truth.{AreClausesOf};
ghost use Rattle.node_table.specs.Diagram.{IsOrder, levels};
ghost use Rattle.node_table.specs.Table.{IsSound};

use clause_ledger::Ledger;
use cnf_base::{Cnf, CnfBuilder, Id};
use host_io::NoSink;
use node_table::{Node, Table, TableError, opening_law};
use schedule_plan::Order;
use std::alloc::Global;
use std::process::Abort;
use std::test::Fail;

fn opened(alloc: Global, formula: &Cnf, order: &[u32]) -> Result<Table<NoSink>, Fail>
    requires clauses { AreClausesOf (length order.now) formula.now.clauses }
    requires order { IsOrder order.now }
    requires few { length order.now ≤ 1000000 }
    ensures order { IfOk result (λ table. table.graph.order ≡ order.now) }
    ensures sound { IfOk result (λ table. IsSound table) }
{
    opening_law::<NoSink>();
    match Ledger::open(alloc, formula, NoSink, 99) {
        Ok(ledger) => match Table::open(alloc, ledger, order, 9) {
            Ok(table) => Ok(table),
            Err((_, e)) => Err(e)?,
        },
        Err((_, e)) => Err(e)?,
    }
}

// The node of the first level that holds where its variable does.
fn made(table: &mut Table<NoSink>) -> Result<Node, TableError>
    requires sound { IsSound table.old }
    requires some { 0 < levels table.old.graph }
{
    table.node(0, Node::True, Node::False)
}

// The clauses of a ledger that keeps them.
fn kept(alloc: Global, ledger: &Ledger<NoSink>) -> Result<String, Fail> {
    if !ledger.keeps_clauses() {
        return Err(Fail::from("no clauses are kept"));
    }
    let (first, second) = (ledger.clause(Id(1)), ledger.clause(Id(2)));
    Ok(format!(in alloc; "{first:?} {second:?}")?)
}

fn expect_node(rt: &impl Abort, alloc: Global, table: &mut Table<NoSink>) -> Result<(), Fail>
    requires sound { IsSound table.old }
    requires some { 0 < levels table.old.graph }
{
    let node = made(table)?;
    assert_eq!(rt; table.parts(node), Some((0, Node::True, Node::False)));
    let kept = kept(alloc, table.ledger())?;
    assert_eq!(rt;
        kept.as_str(),
        "Some([Lit { value: 4 }, Lit { value: -1 }]) Some([Lit { value: -4 }, Lit { value: 1 }])"
    );
    Ok(())
}

/// A node of three variables, which is the fourth one of the proof.
#[test]
fn a_node(rt: HostRuntime) -> Result<(), Fail> {
    let order = Order::natural(rt.alloc(), 3)?;
    if order.as_slice().len() != 3 {
        return Err(Fail::from("no order"));
    }
    let formula = CnfBuilder::new(rt.alloc(), 3).finish();
    let mut table = opened(rt.alloc(), &formula, order.as_slice())?;
    expect_node(&rt, rt.alloc(), &mut table)
}

#[test]
fn error_texts(rt: HostRuntime) -> Result<(), Fail> {
    let text = format!(in rt.alloc();
        "{}, {}, {}, {}",
        TableError::NodeLimit,
        TableError::IdLimit,
        TableError::OutOfMemory,
        TableError::WriteFault
    )?;
    assert_eq!(rt;
        text.as_str(),
        "the nodes are used up, the clause numbers are used up, out of memory, a write of the proof failed"
    );
    Ok(())
}
