// One step of a DRAT proof, as its line spells it.
use cnf_base::LitList;

/// A step of a proof in the textual DRAT format (Wetzler, Heule, Hunt 2014).
#[derive(Drop)]
pub enum DratStep {
    /// Adds a clause.
    Add { lits: LitList },
    /// Deletes a clause with these literals in this order.
    Delete { lits: LitList },
}
