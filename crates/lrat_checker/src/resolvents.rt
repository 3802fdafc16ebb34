// The resolvents of an addition: each candidate, a live clause with the pivot's negation, is blocked, or a group of
// hints refutes its resolvent with the added clause. (LRAT: resolution asymmetric tautologies.)
ghost use Rattle.std.specs.Prelude.{◌≡◌, ◌++◌, map, None, IfOk, IfNone, OnOk};
ghost use Rattle.lrat_rules.specs.Chain.{chain as chain_of};
ghost use Rattle.lrat_rules.specs.Addition.{with_candidate, outcome_fault, group_fault, groups_fault, resolvents_fault};
ghost use Rattle.lrat_rules.specs.FalseLiterals.{set_of, before_of};
ghost use Rattle.lrat_checker.specs.Cuts.{used, group_use};

use crate::candidates::holds_negated;
use crate::live::IndexedClauses;
use crate::propagation::{HintsEnd, run_hints};
use crate::uses::Uses;
use cnf_base::{Group, Id, Lit, OutOfMemory};
use lrat_rules::{Chain, Reason};

/// The first fault of the groups in turn, or else that a candidate is neither blocked nor named by a group. Where there is none,
/// it is told how many hints of each group were taken.
pub fn resolvents_fault(
    live: &mut IndexedClauses,
    chain: &mut Chain,
    pivot: Lit,
    groups: &[Group],
    uses: &mut Uses,
) -> Result<Option<Reason>, OutOfMemory>
    requires { before_of chain.old ≡ None }
    ensures fault { IfOk result (λ fault. fault ≡ resolvents_fault live.old (set_of chain.old) pivot groups.now) }
    ensures uses { IfOk result (λ fault. IfNone fault (uses.new
        ≡ record { hints = uses.old.hints; groups = uses.old.groups ++ map (group_use live.old (set_of chain.old) pivot) groups.now })) }
    ensures same { live.new ≡ live.old }
{
    if let Some(reason) = groups_fault(live, chain, pivot, groups, uses)? {
        return Ok(Some(reason));
    }
    if live.all_settled(chain, pivot, groups) {
        Ok(None)
    } else {
        Ok(Some(Reason::CandidateOpen))
    }
}

/// The groups in turn, each under the false literals that the addition's hints left.
pub fn groups_fault(
    live: &IndexedClauses,
    chain: &mut Chain,
    pivot: Lit,
    groups: &[Group],
    uses: &mut Uses,
) -> Result<Option<Reason>, OutOfMemory>
    requires { before_of chain.old ≡ None }
    ensures fault { IfOk result (λ fault. fault ≡ groups_fault live.now (set_of chain.old) pivot groups.now) }
    ensures same_set { OnOk result (set_of chain.new ≡ set_of chain.old) }
    ensures no_group { OnOk result (before_of chain.new ≡ None) }
    ensures uses { IfOk result (λ fault. IfNone fault (uses.new
        ≡ record { hints = uses.old.hints; groups = uses.old.groups ++ map (group_use live.now (set_of chain.old) pivot) groups.now })) }
{
    for group in groups {
        let (fault, count) = group_fault(live, chain, pivot, group)?;
        if let Some(reason) = fault {
            return Ok(Some(reason));
        }
        uses.push(count)?;
    }
    Ok(None)
}

// A group is of a candidate, which is blocked or refuted by its hints, and by how many of them.
fn group_fault(
    live: &IndexedClauses,
    chain: &mut Chain,
    pivot: Lit,
    group: &Group,
) -> Result<(Option<Reason>, usize), OutOfMemory>
    requires { before_of chain.old ≡ None }
    ensures fault { IfOk result (λ answer. answer.0 ≡ group_fault live.now (set_of chain.old) pivot group.now) }
    ensures used { IfOk result (λ answer. IfNone answer.0 (answer.1 ≡ group_use live.now (set_of chain.old) pivot group.now)) }
    ensures same_set { OnOk result (set_of chain.new ≡ set_of chain.old) }
    ensures no_group { OnOk result (before_of chain.new ≡ None) }
{
    let Some(clause) = live.clause(group.id) else {
        return Ok((Some(Reason::GroupStray), 0));
    };
    if !holds_negated(clause, pivot) {
        return Ok((Some(Reason::GroupStray), 0));
    }
    if chain.is_blocked(clause, pivot) {
        return Ok((None, 0));
    }
    candidate_fault(live, chain, pivot, clause, group.hints.as_slice())
}

// The hints of a group have to reach a conflict, under the candidate's literals too.
fn candidate_fault(
    live: &IndexedClauses,
    chain: &mut Chain,
    pivot: Lit,
    clause: &[Lit],
    hints: &[Id],
) -> Result<(Option<Reason>, usize), OutOfMemory>
    requires { before_of chain.old ≡ None }
    ensures fault { IfOk result (λ answer. answer.0
        ≡ outcome_fault (chain_of live.now (with_candidate (set_of chain.old) pivot clause.now) hints.now)) }
    ensures used { IfOk result (λ answer. answer.1 ≡ used live.now (with_candidate (set_of chain.old) pivot clause.now) hints.now) }
    ensures same_set { OnOk result (set_of chain.new ≡ set_of chain.old) }
    ensures no_group { OnOk result (before_of chain.new ≡ None) }
{
    chain.open_group(clause, pivot)?;
    let (end, used) = run_hints(live, chain, hints)?;
    chain.close_group();
    match end {
        HintsEnd::BadHint(reason) => Ok((Some(reason), used)),
        HintsEnd::NoConflict => Ok((Some(Reason::CandidateOpen), used)),
        HintsEnd::Conflict => Ok((None, used)),
    }
}
