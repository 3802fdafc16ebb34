// A justification as caches keep it.
ghost use Rattle.std.specs.Prelude.{◌≡◌, ◌<◌, ℕ};
ghost use Rattle.node_table.specs.declared.node.Justification.TheVariants.{Clause};
ghost use Rattle.operations.specs.Entries.{IsClauseOf};

use cnf_base::Id;
use node_table::Justification;
use std::marker::Model;

/// A justification in a word: the number of its clause, and 0 where it has none.
#[derive(Clone, Copy)]
pub struct StoredJustification {
    number: u64,
}

const _: () = prove!(size_of::<StoredJustification>() == 8);

impl Model for StoredJustification {
    ghost use Rattle.node_table.specs.declared.node.Justification.{Justification as JustificationValue};
    ghost use Rattle.operations.specs.Numbers.{just_code, just_numbered, number_back, number_in};

    ghost Value = { JustificationValue };

    ghost coded = { just_code };

    ghost view = { λ s. just_numbered s.number };

    ghost inverse = { λ just. record { number = number_in just } };

    ghost inverse_ok = { λ s h i. record { number = number_back s.number i } };
}

impl StoredJustification {
    #[inline(always)]
    pub fn from_just(just: &Justification) -> StoredJustification
        requires { (id : ℕ) → just.now ≡ Clause id → 0 < id }
        ensures { result ≡ just.now }
    {
        match *just {
            Justification::Trivial => StoredJustification { number: 0 },
            Justification::Clause(id) => StoredJustification { number: id.get() },
        }
    }

    #[inline(always)]
    pub fn just(self) -> Justification
        ensures { result ≡ self }
    {
        match self.clause() {
            None => Justification::Trivial,
            Some(id) => Justification::Clause(id),
        }
    }

    /// The clause, if there is one.
    #[inline(always)]
    pub fn clause(self) -> Option<Id>
        ensures { IsClauseOf self result }
    {
        if self.number == 0 {
            None
        } else {
            Some(Id(self.number))
        }
    }
}
