// Laws of operands, of entries, of the caches that hold them, of the clauses that they name and of those that are added, as
// clauses of functions without work.
ghost use Rattle.operations.specs.Accounts.{Accounting};
ghost use Rattle.operations.specs.Additions.{HighClauses, Literals};
ghost use Rattle.operations.specs.Budget.{Budget};
ghost use Rattle.operations.specs.Caches.{Keeping};
ghost use Rattle.operations.specs.Entries.{Fitting};
ghost use Rattle.operations.specs.Operands.{Splitting};
ghost use Rattle.operations.specs.Price.{Pricing};
ghost use Rattle.operations.specs.Purged.{Purging, PurgingTurns};
ghost use Rattle.operations.specs.Turns.{CacheTurns, TableTurns};

use hint_chain::clause_law;
use host_io::Sink;
use node_table::{Node, cofactor_law, growth_law, kept_law, reach_law, steps_law};
use op_cache::{entries_law, front_law, keep_law, turn_law};
use std::hash::Hash;

/// What a split says of its operands and their cofactors.
pub fn operand_law()
    ensures { Splitting }
{
    cofactor_law();
    growth_law();
}

/// What growth and deletions leave of the entries of caches.
pub fn entry_law<S: Sink + Drop>()
    ensures { Fitting S }
{
    clause_law();
    growth_law();
    steps_law::<S>();
}

/// What purging caches, and sweeping nodes behind it, leaves of entries.
pub fn purge_law<S: Sink + Drop>()
    ensures { Purging S }
{
    entry_law::<S>();
    kept_law();
    clause_law();
}

/// Purging entry by entry, the last one first.
pub fn purge_turn_law<S: Sink + Drop>()
    ensures { PurgingTurns S }
{}

/// A bounded cache that is purged by turns of its last entry,
pub fn cache_turn_law<K: Eq + Hash + Copy, V: Copy>()
    ensures { CacheTurns K V K.eq }
{
    turn_law::<K, V>();
}

/// and the table, where the clauses of the entries that go are retired.
pub fn table_turn_law<S: Sink + Drop, K: Eq + Hash + Copy, V: Copy>()
    ensures { TableTurns S K V K.eq }
{
    entry_law::<S>();
    purge_law::<S>();
    purge_turn_law::<S>();
    steps_law::<S>();
    turn_law::<K, V>();
}

/// What the calls of a bounded cache make of its entries.
pub fn cache_law<K: Eq + Hash + Copy, V: Copy>()
    ensures { Keeping K V K.eq }
{
    entries_law::<K, V>();
    front_law::<K, V>();
    keep_law::<K, V>();
}

/// How a call comes to account for the entries of its cache and for its clauses.
pub fn accounts_law<S: Sink + Drop>()
    ensures { Accounting S }
{
    entry_law::<S>();
    steps_law::<S>();
}

/// How many clauses a call adds where its cache is as large as the pairs that it may come to.
pub fn price_law<S: Sink + Drop, V: Copy>()
    ensures { Pricing S V }
{
    front_law::<(Node, Node), V>();
    growth_law();
    operand_law();
    reach_law();
}

/// How many clauses a call adds over its levels, from what its sides do.
pub fn budget_law<S: Sink + Drop>()
    ensures { Budget S }
{
    operand_law();
    growth_law();
    steps_law::<S>();
}

/// What the two additions of a step leave, of which the first one is retired.
pub fn high_clause_law<S: Sink + Drop>()
    ensures { HighClauses S }
{
    steps_law::<S>();
}

/// Of which nodes the literals of a clause are.
pub fn literal_law()
    ensures { Literals }
{}
