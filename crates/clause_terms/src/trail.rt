// The variables that were quantified, for the way back to an assignment. (Bryant, Heule: Generating Extended Resolution
// Proofs with a BDD-Based SAT Solver, 2021, section 5.)
ghost use Rattle.std.specs.Prelude.{◌≡◌, [], ◌∷◌, ◌++◌, OnOk, OnErr};

use cnf_base::OutOfMemory;
use node_table::Node;
use std::alloc::Global;

/// Quantified variables, the first one first, each with the node that it was quantified from.
#[derive(Drop)]
pub struct Trail {
    kept: Vec<(u32, Node)>,
}

impl std::marker::Model for Trail {
    ghost use Rattle.std.specs.Prelude.{ℕ, List};
    ghost use Rattle.node_table.specs.declared.node.Node.{Node};

    ghost Value = { List (ℕ × Node) };

    ghost view = { λ t. t.kept.items };
}

impl Trail {
    /// No variables.
    pub fn new(alloc: Global) -> Self
        ensures { result ≡ [] }
    {
        Trail {
            kept: Vec::new(alloc),
        }
    }

    /// Appends a variable and the node that it is quantified from. A refusal changes nothing.
    pub fn push(&mut self, variable: u32, node: Node) -> Result<(), OutOfMemory>
        ensures ok { OnOk result (self.new ≡ self.old ++ (variable, node) ∷ []) }
        ensures err { OnErr result (self.new ≡ self.old) }
    {
        self.kept.push((variable, node))?;
        Ok(())
    }

    /// The variables with their nodes, the first one first.
    pub fn as_slice(&self) -> &[(u32, Node)]
        ensures { result.now ≡ self.now }
    {
        self.kept.as_slice()
    }
}
