// How far a run is and what it used so far. Contracts say nothing of it.

/// How many look-ups of a cache found a result, and how many found none.
#[derive(Clone, Copy)]
pub struct Lookups {
    pub found: u64,
    pub missed: u64,
}

/// The look-ups of each operation's cache.
#[derive(Clone, Copy)]
pub struct CacheLookups {
    pub conjunctions: Lookups,
    pub implications: Lookups,
    pub quantifications: Lookups,
    pub disjunctions: Lookups,
}

/// How far a run is, and what it used so far.
#[derive(Clone, Copy)]
pub struct Reading {
    /// The moves that are done, and all.
    pub moves: usize,
    pub all_moves: usize,
    /// The nodes that were live behind the last of them, and the most that were live at once.
    pub nodes: u32,
    pub most_nodes: u32,
    /// The nodes that were copied out of the table, with the terms of the trail.
    pub copies: usize,
    pub lookups: CacheLookups,
}
