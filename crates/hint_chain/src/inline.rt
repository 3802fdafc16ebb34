// Few literals, kept inline: a clause of a node, and the literals that are false in a short chain of hints. They take
// no memory. The places behind the last literal hold a blank one, so that two equal lists are alike.
ghost use Rattle.std.specs.Prelude.{◌≡◌, ◌≤◌, ◌<◌, [], ◌∷◌, ◌++◌, length};

use cnf_base::Lit;
use std::marker::Model;

/// At most N literals, inline.
#[derive(Clone, Copy)]
pub struct InlineLiterals<const N: usize> {
    literals: [Lit; N],
    count: usize,
}

impl<const N: usize> Model for InlineLiterals<N> {
    ghost use Rattle.std.specs.Prelude.{ℤ, List, take, length};
    ghost use Rattle.hint_chain.specs.Inline.{IsPadded, padded, padded-counted, length-counted};

    ghost Value = { List ℤ };

    ghost view = { λ l. take l.count l.literals };

    ghost invariant = { λ l. IsPadded N l.literals l.count };

    ghost inverse = { λ literals. record { literals = padded N literals; count = length literals } };

    ghost inverse_ok = { λ l h i. record {
      literals = padded-counted N l.literals l.count h i;
      count = length-counted N l.literals l.count h i;
    } };
}

impl<const N: usize> InlineLiterals<N> {
    /// No literals.
    pub fn new() -> Self
        ensures { result ≡ [] }
    {
        let blank = Lit::new(1).unwrap();
        InlineLiterals {
            literals: [blank; N],
            count: 0,
        }
    }

    /// These literals.
    pub fn from_slice(literals: &[Lit]) -> Self
        requires { length literals.now ≤ N }
        ensures { result ≡ literals.now }
    {
        let mut list = Self::new();
        for literal in literals {
            list.push(*literal);
        }
        list
    }

    /// Appends a literal.
    pub fn push(&mut self, literal: Lit)
        requires { length self.old < N }
        ensures { self.new ≡ self.old ++ literal ∷ [] }
    {
        self.literals[self.count] = literal;
        self.count += 1;
    }

    pub fn as_slice(&self) -> &[Lit]
        ensures literals { result.now ≡ self.now }
        ensures short { length result.now ≤ N }
    {
        &self.literals[..self.count]
    }
}

/// A clause of at most four literals.
pub type ShortClause = InlineLiterals<4>;
