// How much a run of a plan may use.

/// How much a run may use.
#[derive(Clone, Copy)]
pub struct Limits {
    /// Entries of the cache of conjunctions, 1 to 100,000,000.
    pub cache: u32,
    /// Inner nodes live at once, at most 100,000,000.
    pub max_nodes: u32,
    /// The greatest clause number, at most 1,000,000,000,000,000.
    pub max_ids: u64,
}
