// Lists that own their items, seen in contracts as lists.
ghost use Rattle.std.specs.Prelude.{◌≡◌, [], ◌∷◌, ◌++◌, OnOk, OnErr};

use crate::literal::Lit;
use crate::memory::OutOfMemory;
use std::alloc::Global;
use std::marker::Model;

/// The number of a clause.
#[derive(Clone, Copy, Debug, Default, PartialEq, Eq)]
pub struct Id(pub u64);

impl Model for Id {
    ghost use Rattle.std.specs.Prelude.{ℕ};

    ghost Value = { ℕ };

    ghost view = { λ id. id.0 };

    ghost inverse = { λ n. record { 0 = n } };
}

impl Id {
    pub fn get(self) -> u64
        ensures { result ≡ self }
    {
        self.0
    }
}

/// A list that owns its items.
#[derive(Debug, Drop)]
pub struct Items<T> {
    items: Vec<T>,
}

impl<T> Model for Items<T> {
    ghost use Rattle.std.specs.Prelude.{List};

    ghost Value = { List T };

    ghost view = { λ list. list.items.items };
}

impl<T> Items<T> {
    /// The empty list.
    pub fn new(alloc: Global) -> Self
        ensures { result ≡ [] }
    {
        Items {
            items: Vec::new(alloc),
        }
    }

    /// Appends an item. A refusal changes nothing.
    pub fn push(&mut self, item: T) -> Result<(), OutOfMemory>
    where
        T: Drop,
        ensures ok { OnOk result (self.new ≡ self.old ++ item ∷ []) }
        ensures err { OnErr result (self.new ≡ self.old) }
    {
        self.items.push(item)?;
        Ok(())
    }

    /// Empties the list. Its memory is kept for the items that come next.
    pub fn clear(&mut self)
    where
        T: Drop,
        ensures { self.new ≡ [] }
    {
        self.items.clear();
    }

    pub fn as_slice(&self) -> &[T]
        ensures { result.now ≡ self.now }
    {
        self.items.as_slice()
    }
}

/// A list of literals.
pub type LitList = Items<Lit>;

/// A list of clause numbers.
pub type IdList = Items<Id>;

/// A list of hint groups.
pub type GroupList = Items<Group>;

/// The hints of one candidate of a resolvent step: its number, and the hints that follow it.
#[derive(Drop)]
pub struct Group {
    pub id: Id,
    pub hints: IdList,
}
