// Literals, as DIMACS writes them: the variable's number, negative for its negation.
ghost use Rattle.std.specs.Prelude.{◌≡◌, ◌⊎◌, ◌↔◌, ◌≤◌, ◌<◌, ℤ, pos, negsuc, neg_ℤ, nat_abs, IsNone, IfSome, IsTrue};
ghost use Rattle.std.specs.Int.{is_negative};

use std::marker::Model;

/// A literal: a nonzero whole number of magnitude at most 2147483647.
#[derive(Clone, Copy, Debug, PartialEq, Eq, PartialOrd, Ord)]
pub struct Lit {
    value: i32,
}

impl Model for Lit {
    ghost use Rattle.std.specs.Prelude.{ℤ, ◌<◌, ◌≤◌, nat_abs};

    ghost Value = { ℤ };

    ghost view = { λ l. l.value };

    ghost invariant = { λ l. (0 < nat_abs l.value) × (nat_abs l.value ≤ 2147483647) };

    ghost inverse = { λ z. record { value = z } };
}

impl Lit {
    /// None exactly for 0 and the least `i32`.
    pub fn new(value: i32) -> Option<Lit>
        ensures refused { IsNone result ↔ ((value ≡ pos 0) ⊎ (value ≡ negsuc 2147483647)) }
        ensures value { IfSome result (λ literal. literal ≡ value) }
    {
        if value == 0 || value == i32::MIN {
            None
        } else {
            Some(Lit { value })
        }
    }

    pub fn get(self) -> i32
        ensures { result ≡ self }
    {
        self.value
    }

    /// The literal of the other sign.
    pub fn negated(self) -> Lit
        ensures { result ≡ neg_ℤ self }
    {
        Lit { value: -self.value }
    }

    /// The variable, from 1.
    pub fn var(self) -> u32
        ensures value { result ≡ nat_abs self }
        ensures range { (0 < result) × (result ≤ 2147483647) }
    {
        self.value.unsigned_abs()
    }

    pub fn is_negative(self) -> bool
        ensures { result ≡ is_negative self }
    {
        self.value < 0
    }
}
