// The stacked terms of a plan, over their table and caches, and its trail; the places of the last terms.
ghost use Rattle.std.specs.Prelude.{◌≡◌, ◌<◌, List, ◌∷◌, MatchOption, length, reverse};
ghost use Rattle.reconstruction.specs.Stack.{empty_stack};
ghost use Rattle.bdd_terms.specs.declared.held.HeldTerm.{HeldTerm as HeldValue};

use bdd_terms::{Caches, HeldTerm, Reading, Terms};
use clause_ledger::Ledger;
use host_io::Sink;
use node_table::Table;
use reconstruction::Reconstruction;
use std::mem::forget;

/// The stacked terms and the trail of a plan, over their table.
#[derive(Drop)]
pub(crate) struct StackedTerms<S: Sink + Drop> {
    pub table: Table<S>,
    pub caches: Caches,
    // The stack, each term with its unit.
    pub out: Vec<HeldTerm>,
    // The variables that the plan quantified, each with the term that it was quantified from.
    pub trail: Reconstruction,
    // How many nodes the last reclamation left.
    pub left: u32,
}

impl<S: Sink + Drop> StackedTerms<S> {
    /// Those of a runner. No variable is quantified.
    pub fn of(terms: Terms<S>) -> Self
        ensures table { result.table ≡ terms.table }
        ensures caches { result.caches ≡ terms.caches }
        ensures out { result.out ≡ terms.out }
        ensures trail { result.trail ≡ empty_stack }
        ensures left { result.left ≡ terms.left }
    {
        let Terms {
            table,
            caches,
            out,
            left,
        } = terms;
        let alloc = *out.allocator();
        StackedTerms {
            table,
            caches,
            out,
            trail: Reconstruction::new(alloc),
            left,
        }
    }

    /// What the run used so far, of a plan of so many moves; how many of them are done it doesn't know.
    pub fn reading(&self, all_moves: usize) -> Reading {
        Reading {
            moves: 0,
            all_moves,
            nodes: self.table.live(),
            most_nodes: self.table.most(),
            copies: self.trail.cell_count(),
            lookups: self.caches.lookups(),
        }
    }

    /// The ledger, when the run is over. The memory of the caches stays taken until the process ends, unless they are let go:
    /// to let go of entries one by one takes longer than some runs.
    pub fn into_ledger(self, lets_go: bool) -> Ledger<S>
        ensures { result ≡ self.table.book }
    {
        let StackedTerms {
            table,
            caches,
            out: _,
            trail: _,
            left: _,
        } = self;
        if !lets_go {
            forget(caches);
        }
        table.into_ledger()
    }
}

/// The last term.
pub(crate) fn last_term(stack: &[HeldTerm]) -> Option<HeldTerm>
    ensures { MatchOption result (length stack.now < 1) (λ u. (rest : List HeldValue) × (reverse stack.now ≡ u ∷ rest)) }
{
    match stack.split_last() {
        Some((u, _)) => Some(*u),
        None => None,
    }
}

/// The two last terms, the last but one first.
pub(crate) fn last_two(stack: &[HeldTerm]) -> Option<(HeldTerm, HeldTerm)>
    ensures { MatchOption result (length stack.now < 2) (λ two. (rest : List HeldValue) × (reverse stack.now ≡ two.1 ∷ two.0 ∷ rest)) }
{
    let Some((v, below)) = stack.split_last() else {
        return None;
    };
    match last_term(below) {
        Some(u) => Some((u, *v)),
        None => None,
    }
}
