// A term weakened to a node that it implies. The new unit is no operand's: where the node is the operand's it follows from that one's
// unit alone, and from the empty clause where the operand is False. (Bryant, Heule: Generating Extended Resolution Proofs with a
// BDD-Based SAT Solver, 2021, section 4.3.)
ghost use Rattle.std.specs.Prelude.{◌≡◌, ◌≢◌, List, [], ◌∷◌, Err, None, Ok, IfErr, IfOk, IfSome, IsTrue};
ghost use Rattle.node_table.specs.declared.error.TableError.TheVariants.{NodeLimit, WriteFault};
ghost use Rattle.node_table.specs.Diagram.{is_node};
ghost use Rattle.node_table.specs.Table.{IsSound};
ghost use Rattle.node_table.specs.Value.{IsSubfunction, value_of};
ghost use Rattle.operations.specs.Entries.{Fits};
ghost use Rattle.imply.specs.Implication.{IsRefuted};
ghost use Rattle.bdd_terms.specs.declared.held.HeldTerm.{HeldTerm as HeldValue};
ghost use Rattle.bdd_terms.specs.Caches.{all_entries};
ghost use Rattle.bdd_terms.specs.Finds.{Finds, IsProved};
ghost use Rattle.bdd_terms.specs.Units.{GivesUnit, HasUnits};
ghost use Rattle.bdd_terms.specs.Parity.{Implies, holds_or, node_holds, some_or};
ghost use Rattle.bdd_terms.specs.Runner.{true_term};

use crate::caches::Caches;
use crate::held::HeldTerm;
use crate::unit::unit_of_implied;
use host_io::Sink;
use node_table::{Node, Table, TableError, canonical_law, growth_law, steps_law, subfunction_law};
use operations::entry_law;

/// The term of a node that a term implies, with a unit of its own; none where it doesn't.
pub fn weaker<S: Sink + Drop>(
    table: &mut Table<S>,
    caches: &mut Caches,
    u: &HeldTerm,
    w: Node,
) -> Result<Option<HeldTerm>, TableError>
    requires sound { IsSound table.old }
    requires fits { Fits table.old (all_entries caches.old) }
    requires proved { IsProved table.old.graph table.old.book.state.live u.now }
    requires stands { IsTrue (is_node table.old.graph w) }
    ensures finds { Finds (IsSubfunction (λ a. value_of table.old.graph a w)) (λ a. value_of table.old.graph a w)
        (holds_or result (node_holds table.old.graph w)) (u.now ∷ []) table.old table.new caches.old caches.new
        (some_or true_term result) }
    ensures own { IfOk (some_or true_term result) (λ held. GivesUnit table.old table.new (all_entries caches.old) (all_entries caches.new)
        [] held.unit) }
    ensures node { IfOk result (λ found. IfSome found (λ held. held.node ≡ w)) }
    ensures implied { IfOk result (λ found. IfSome found (λ held. Implies table.old.graph u.now.node w)) }
    ensures none { result ≡ Ok None → IsRefuted table.old.graph u.now.node w }
    ensures nodes { table.new.graph ≡ table.old.graph }
    ensures no_node_limit { result ≢ Err NodeLimit }
    // A refusal loses no unit.
    ensures refused { IfErr result (λ e. e ≢ WriteFault → (terms : List HeldValue) → HasUnits table.old (all_entries caches.old) terms
        → HasUnits table.new (all_entries caches.new) terms) }
{
    canonical_law();
    subfunction_law();
    growth_law();
    steps_law::<S>();
    entry_law::<S>();
    let Some(just) = caches.implies(table, u.node, w)? else {
        return Ok(None);
    };
    let unit = unit_of_implied(table, u, w, &just, true)?;
    Ok(Some(HeldTerm { node: w, unit }))
}
