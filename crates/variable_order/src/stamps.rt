// Stamps: whether a place was met in this turn, without setting them all back before the next.

/// Stamps a place, and tells whether it had another stamp. A place that there isn't counts as stamped.
#[inline]
pub(crate) fn stamp(stamps: &mut [u32], place: u32, turn: u32) -> bool {
    let place = place as usize;
    if place >= stamps.len() || stamps[place] == turn {
        return false;
    }
    stamps[place] = turn;
    true
}
