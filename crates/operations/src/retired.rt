// The clause that an operation is done with: one that its cache hands back, or that was found and couldn't be kept.
ghost use Rattle.std.specs.Prelude.{◌≡◌, ℕ, Some, Contains};
ghost use Rattle.node_table.specs.Table.{IsSound, IsAddedTo};
ghost use Rattle.operations.specs.Accounts.{RetiresOne};
ghost use Rattle.operations.specs.Entries.{IsClauseOf};

use cnf_base::Id;
use host_io::Sink;
use node_table::{Justification, Table, steps_law};

/// Retires a clause, if one is given.
pub fn retire<S: Sink + Drop>(table: &mut Table<S>, clause: Option<Id>)
    requires sound { IsSound table.old }
    requires own { (id : ℕ) → clause ≡ Some id → IsAddedTo table.old id }
    requires unretired { (id : ℕ) → clause ≡ Some id → Contains table.old.retired id → ⊥ }
    ensures { RetiresOne table.old table.new clause }
{
    steps_law::<S>();
    if let Some(id) = clause {
        table.retire(id);
    }
}

/// The clause that a justification names.
pub fn clause_number(just: &Justification) -> Option<Id>
    ensures { IsClauseOf just.now result }
{
    match just {
        Justification::Trivial => None,
        Justification::Clause(id) => Some(*id),
    }
}
