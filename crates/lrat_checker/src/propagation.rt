// A run over hints: each names a live clause, which under the false literals so far is a conflict, forces a literal,
// or is bad. (LRAT: reverse unit propagation with hints.)
ghost use Rattle.std.specs.Prelude.{◌≡◌, IfOk, OnOk, OnErr, IsTrue};
ghost use Rattle.lrat_rules.specs.Chain.{chain as chain_of};
ghost use Rattle.lrat_rules.specs.FalseLiterals.{set_of, before_of};
ghost use Rattle.lrat_checker.specs.Ends.{outcome_at};
ghost use Rattle.lrat_checker.specs.Cuts.{used};
ghost use Rattle.lrat_checker.specs.Memory.{forces_literal};

use crate::live::IndexedClauses;
use cnf_base::{Id, OutOfMemory};
use lrat_rules::{Chain, Effect, Reason};

/// Where a run over hints ends.
#[derive(Clone, Copy)]
pub enum HintsEnd {
    /// All hints were taken, and none of them is a conflict.
    NoConflict,
    /// A hint is a conflict. Those after it are ignored.
    Conflict,
    /// A hint is bad, the first one.
    BadHint(Reason),
}

/// Takes the hints in turn, up to the first conflict or bad hint, and answers how many it took.
#[inline(always)]
pub fn run_hints(
    live: &IndexedClauses,
    chain: &mut Chain,
    hints: &[Id],
) -> Result<(HintsEnd, usize), OutOfMemory>
    ensures outcome { IfOk result (λ answer. chain_of live.now (set_of chain.old) hints.now ≡ outcome_at (set_of chain.new) answer.0) }
    ensures used { IfOk result (λ answer. answer.1 ≡ used live.now (set_of chain.old) hints.now) }
    ensures same_group { OnOk result (before_of chain.new ≡ before_of chain.old) }
    ensures memory { OnErr result (IsTrue (forces_literal live.now (set_of chain.old) hints.now)) }
{
    let mut used = 0;
    for hint in hints {
        used += 1;
        let Some(clause) = live.clause(*hint) else {
            return Ok((HintsEnd::BadHint(Reason::HintNotLive), used));
        };
        match chain.hint(clause)? {
            Effect::Conflict => return Ok((HintsEnd::Conflict, used)),
            Effect::NotUnit => return Ok((HintsEnd::BadHint(Reason::HintNotUnit), used)),
            Effect::Unit(_) => {}
        }
    }
    Ok((HintsEnd::NoConflict, used))
}
