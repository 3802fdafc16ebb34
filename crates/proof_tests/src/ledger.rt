// A ledger that keeps its clauses: calls succeed where there is memory, and what can't be had is refused.
ghost use Rattle.std.specs.Prelude.{◌≡◌, [], ◌∷◌, IfOk, OnOk, IsTrue};
ghost use Rattle.std.specs.Option.{option_copied};
ghost use Rattle.lrat_rules.specs.State.{clause_at};

use clause_ledger::{Ledger, LedgerError};
use cnf_base::{CnfBuilder, Id, Lit, OutOfMemory};
use host_io::NoSink;
use lrat_rules::conflict_law;
use std::alloc::{AllocError, Global};
use std::process::Abort;
use std::test::Fail;

// A ledger over one clause without literals.
fn opened(alloc: Global) -> Result<Ledger<NoSink>, OutOfMemory>
    ensures in_step { IfOk result (λ ledger. IsTrue ledger.in_step) }
    ensures formula { IfOk result (λ ledger. ledger.formula ≡ [] ∷ []) }
{
    let mut builder = CnfBuilder::new(alloc, 0);
    builder.end_clause()?;
    let formula = builder.finish();
    match Ledger::open(alloc, &formula, NoSink, 9) {
        Ok(ledger) => Ok(ledger),
        Err((_, e)) => Err(e),
    }
}

// The clause of a number, from a ledger that keeps clauses.
fn kept_clause<'a>(rt: &impl Abort, ledger: &'a Ledger<NoSink>, id: u64) -> Option<&'a [Lit]>
    ensures { option_copied result ≡ clause_at ledger.now.state.live id }
{
    assert!(rt; ledger.keeps_clauses());
    ledger.clause(Id(id))
}

// Adds a clause, with the empty clause 1 as its hint.
fn add(rt: &impl Abort, ledger: &mut Ledger<NoSink>, clause: &[Lit]) -> Result<(), LedgerError>
    requires { IsTrue ledger.old.in_step }
    ensures in_step { OnOk result (IsTrue ledger.new.in_step) }
    ensures formula { OnOk result (ledger.new.formula ≡ ledger.old.formula) }
{
    conflict_law();
    let is_conflict = matches!(kept_clause(rt, ledger, 1), Some([]));
    assert!(rt; is_conflict);
    ledger.add(clause, &[Id(1)])?;
    Ok(())
}

// Deletes a clause that is live and isn't the formula's.
fn delete(rt: &impl Abort, ledger: &mut Ledger<NoSink>, id: u64) -> Result<(), LedgerError>
    requires in_step { IsTrue ledger.old.in_step }
    requires formula { ledger.old.formula ≡ [] ∷ [] }
{
    let is_live = kept_clause(rt, ledger, id).is_some();
    assert!(rt; is_live && id > 1);
    ledger.delete(&[Id(id)])
}

// Adds three clauses, one of them longer than those for which room was made, and deletes the second one.
fn play(
    rt: &impl Abort,
    ledger: &mut Ledger<NoSink>,
    literals: &[Lit; 5],
) -> Result<(), LedgerError>
    requires in_step { IsTrue ledger.old.in_step }
    requires formula { ledger.old.formula ≡ [] ∷ [] }
{
    add(rt, ledger, &literals[..1])?;
    add(rt, ledger, literals)?;
    add(rt, ledger, &literals[..2])?;
    delete(rt, ledger, 3)
}

// The live clauses by their numbers.
fn push_clauses(
    rt: &impl Abort,
    out: &mut String,
    ledger: &Ledger<NoSink>,
) -> Result<(), AllocError> {
    for id in 1..=4 {
        if let Some(clause) = kept_clause(rt, ledger, id) {
            let count = clause.len();
            write!(out, " {id}:{count}")?;
        }
    }
    Ok(())
}

fn expect_kept(rt: &impl Abort, alloc: Global, ledger: &mut Ledger<NoSink>) -> Result<(), Fail>
    requires in_step { IsTrue ledger.old.in_step }
    requires formula { ledger.old.formula ≡ [] ∷ [] }
{
    let literal = Lit::new(1).ok_or("no literal")?;
    ledger.reserve(2)?;
    assert!(rt; ledger.reserve(usize::MAX).is_err());
    play(rt, ledger, &[literal; 5])?;
    let mut found = String::new(alloc);
    push_clauses(rt, &mut found, ledger)?;
    assert_eq!(rt; found.as_str(), " 1:0 2:1 4:2");
    Ok(())
}

/// A deleted clause is found no more, its neighbours are, and room that can't be had is refused.
#[test]
fn kept_clauses(rt: HostRuntime) -> Result<(), Fail> {
    let mut ledger = opened(rt.alloc())?;
    expect_kept(&rt, rt.alloc(), &mut ledger)
}
