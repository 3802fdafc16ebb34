// What a node puts into a clause, and the clause that a list of such atoms gives. (Bryant, Heule: Generating Extended
// Resolution Proofs with a BDD-Based SAT Solver, 2021, section 4.)
ghost use Rattle.std.specs.Prelude.{◌≡◌, ◌≤◌, length};
ghost use Rattle.hint_chain.specs.Atoms.{neg_atom, clause_from_atoms};

use crate::inline::ShortClause;
use cnf_base::Lit;

/// What a node puts into a clause.
#[derive(Clone, Copy)]
pub enum Atom {
    /// The constant True.
    Always,
    /// The constant False.
    Never,
    /// An inner node, by the literal of its extension variable, or any other literal.
    Of(Lit),
}

impl Atom {
    /// The atom of the other truth value.
    pub fn negated(&self) -> Atom
        ensures { result ≡ neg_atom self.now }
    {
        match self {
            Atom::Always => Atom::Never,
            Atom::Never => Atom::Always,
            Atom::Of(literal) => Atom::Of(literal.negated()),
        }
    }
}

/// The literals of a clause over at most four atoms; None where the clause is true, since an atom always holds.
pub fn clause_from_atoms(atoms: &[Atom]) -> Option<ShortClause>
    requires { length atoms.now ≤ 4 }
    ensures { result ≡ clause_from_atoms atoms.now }
{
    let mut clause = ShortClause::new();
    for atom in atoms {
        match atom {
            Atom::Always => return None,
            Atom::Never => continue,
            Atom::Of(literal) => clause.push(*literal),
        }
    }
    Some(clause)
}
