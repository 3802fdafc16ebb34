// When an addition is good: its number is greater than all earlier ones, and its hints refute the clause's negation,
// or its first literal, the pivot, has a refutation for each candidate. (LRAT: RUP and RAT steps.)
ghost use Rattle.std.specs.Prelude.{◌≡◌, ◌<◌, not, [], None, IfOk, IfNone, OnErr, IsTrue};
ghost use Rattle.cnf_base.specs.ProofText.{is_empty};
ghost use Rattle.lrat_rules.specs.Addition.{fault, fault_after_hints};
ghost use Rattle.lrat_rules.specs.FalseLiterals.{set_of, before_of};
ghost use Rattle.lrat_checker.specs.Ends.{outcome_at};
ghost use Rattle.lrat_checker.specs.Cuts.{group_uses, uses_of};
ghost use Rattle.lrat_checker.specs.Memory.{judging_keeps};

use crate::live::IndexedClauses;
use crate::propagation::{HintsEnd, run_hints};
use crate::resolvents::resolvents_fault;
use crate::uses::Uses;
use cnf_base::{Group, Id, Lit, OutOfMemory};
use lrat_rules::{Chain, Reason};

/// Why the addition of this clause under this number isn't good; where it is, which hints its check took.
pub fn addition_fault(
    live: &mut IndexedClauses,
    top: Id,
    chain: &mut Chain,
    id: Id,
    clause: &[Lit],
    hints: &[Id],
    groups: &[Group],
    uses: &mut Uses,
) -> Result<Option<Reason>, OutOfMemory>
    ensures fault { IfOk result (λ answer. answer ≡ fault (record { live = live.old; top = top }) id clause.now hints.now groups.now) }
    ensures uses { IfOk result (λ answer. IfNone answer (uses.new ≡ uses_of live.old clause.now hints.now groups.now)) }
    ensures number { OnErr result (top < id) }
    ensures memory { OnErr result (IsTrue (judging_keeps live.old clause.now hints.now)) }
    ensures same { live.new ≡ live.old }
{
    if id.get() <= top.get() {
        return Ok(Some(Reason::IdNotGreater));
    }
    chain.restart(clause)?;
    let (end, used) = run_hints(live, chain, hints)?;
    uses.restart(used);
    fault_after_hints(live, chain, clause, groups, end, uses)
}

// After the addition's own hints.
fn fault_after_hints(
    live: &mut IndexedClauses,
    chain: &mut Chain,
    clause: &[Lit],
    groups: &[Group],
    end: HintsEnd,
    uses: &mut Uses,
) -> Result<Option<Reason>, OutOfMemory>
    requires open { before_of chain.old ≡ None }
    requires none { uses.old.groups ≡ [] }
    ensures fault { IfOk result (λ answer. answer ≡ fault_after_hints live.old clause.now groups.now (outcome_at (set_of chain.old) end)) }
    ensures uses { IfOk result (λ answer. IfNone answer (uses.new
        ≡ record { hints = uses.old.hints; groups = group_uses live.old clause.now groups.now (outcome_at (set_of chain.old) end) })) }
    ensures memory { OnErr result (IsTrue (not (is_empty clause.now))) }
    ensures same { live.new ≡ live.old }
{
    match end {
        HintsEnd::BadHint(reason) => Ok(Some(reason)),
        HintsEnd::Conflict => Ok(None),
        HintsEnd::NoConflict => match clause {
            [] => Ok(Some(Reason::NoConflict)),
            [pivot, ..] => resolvents_fault(live, chain, *pivot, groups, uses),
        },
    }
}
