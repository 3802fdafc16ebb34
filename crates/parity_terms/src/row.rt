// A row of an elimination.
ghost use Rattle.std.specs.Prelude.{◌<◌, MatchOption, length, slice_index_or};
ghost use Rattle.parity_terms.specs.Order.{HaveSameFirst};
ghost use Rattle.parity_terms.specs.Rows.{NoneHasFirst};

use crate::order::have_same_first;
use bdd_terms::Term;

/// An equation with its term: the sum of its variables, in the order, is the bit, modulo 2.
#[derive(Drop)]
pub(crate) struct Row {
    pub(crate) term: Term,
    pub(crate) variables: Vec<u32>,
    pub(crate) bit: bool,
}

/// The place of the first row that begins with the same variable as this one.
pub(crate) fn row_for(rows: &[Row], current: &Row) -> Option<usize>
    ensures { MatchOption result (NoneHasFirst rows.now current.now) (λ place. (place < length rows.now)
        × HaveSameFirst (slice_index_or rows.now place current.now).variables.items current.now.variables.items) }
{
    'rows: for place in 0..rows.len() {
        if have_same_first(
            rows[place].variables.as_slice(),
            current.variables.as_slice(),
        ) {
            return Some(place);
        }
    }
    None
}
