// The literals of an addition.
ghost use Rattle.std.specs.Prelude.{◌≡◌, ◌≤◌, ◌∷◌, length};

use cnf_base::Lit;
use hint_chain::ShortClause;

/// A clause with one literal before it.
pub fn behind(literal: Lit, clause: &[Lit]) -> ShortClause
    requires { length clause.now ≤ 3 }
    ensures { result ≡ literal ∷ clause.now }
{
    let mut long = ShortClause::new();
    long.push(literal);
    for own in clause {
        long.push(*own);
    }
    long
}
