// What a text that is accepted is, as clauses of a function without work.
ghost use Rattle.std.specs.Prelude.{◌≡◌, ◌≤◌, ℕ, List};
ghost use Rattle.cnf_base.specs.Formula.{Formula};
ghost use Rattle.cnf_base.specs.Truth.{AreClausesOf};
ghost use Rattle.dimacs_reader.specs.Cnf.{cnf, formula, max_vars};
ghost use Rattle.dimacs_reader.specs.declared.mode.Mode.{Mode};

/// A formula has no more variables than the limit says, and its literals are of these.
pub fn cnf_law()
    ensures vars { (mode : Mode) (bytes : List ℕ) (problem : Formula) → cnf mode bytes ≡ formula problem → problem.vars ≤ max_vars }
    ensures literals { (mode : Mode) (bytes : List ℕ) (problem : Formula) → cnf mode bytes ≡ formula problem
        → AreClausesOf problem.vars problem.clauses }
{}
