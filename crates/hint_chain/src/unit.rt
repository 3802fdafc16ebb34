// The hints for the unit of a clause's diagram.
ghost use Rattle.std.specs.Prelude.{◌≡◌, IfOk, ◌++◌, OnOk};
ghost use Rattle.std.specs.Option.{option_to_list};
ghost use Rattle.hint_chain.specs.Units.{literal_id, next_id, unit_list};

use cnf_base::{Id, IdList, Lit, OutOfMemory};
use std::alloc::Global;

/// A node of a clause's diagram: its literal of the clause, and the numbers of its clauses from the children up, where
/// they exist.
#[derive(Clone, Copy)]
pub struct UnitPart {
    pub lit: Lit,
    /// The clause from the high child up.
    pub hu: Option<Id>,
    /// The clause from the low child up.
    pub lu: Option<Id>,
}

impl UnitPart {
    /// The clause from the constant True up.
    pub fn literal_id(&self) -> Option<Id>
        ensures { result ≡ literal_id self.now }
    {
        if self.lit.is_negative() {
            self.lu
        } else {
            self.hu
        }
    }

    /// The clause from the next node up.
    pub fn next_id(&self) -> Option<Id>
        ensures { result ≡ next_id self.now }
    {
        if self.lit.is_negative() {
            self.hu
        } else {
            self.lu
        }
    }
}

/// The hints for the unit of a clause's top node. `path` has the nodes from the top down, `input` is the clause.
pub fn unit_hints(alloc: Global, path: &[UnitPart], input: Id) -> Result<IdList, OutOfMemory>
    ensures { IfOk result (λ hints. hints ≡ unit_list path.now input) }
{
    let mut hints = IdList::new(alloc);
    for part in path {
        push_some(&mut hints, part.literal_id())?;
        push_some(&mut hints, part.next_id())?;
    }
    hints.push(input)?;
    Ok(hints)
}

// Appends the hint, if there is one.
fn push_some(hints: &mut IdList, hint: Option<Id>) -> Result<(), OutOfMemory>
    ensures { OnOk result (hints.new ≡ hints.old ++ option_to_list hint) }
{
    if let Some(id) = hint {
        hints.push(id)?;
    }
    Ok(())
}
