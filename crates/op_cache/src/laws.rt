// Laws of the entries, over everything: functions without work, each of which ensures a record of `specs/Laws.antt`. The
// crates above cite them by a call.
ghost use Rattle.op_cache.specs.Laws.{UsedInFront, OnlyKept, HandsBack, TakesTurns};

use std::hash::Hash;

/// Keys that were used stand in front. While they are no more than the capacity, none of them is pushed out.
pub fn front_law<K: Eq + Hash + Copy, V: Copy>()
    ensures { UsedInFront K V K.eq }
{}

/// Each entry is of a pair that was kept, and calls lose none but what they hand back.
pub fn entries_law<K: Eq + Hash + Copy, V: Copy>()
    ensures { OnlyKept K V K.eq }
{}

/// What `keep` makes and hands back: the old value, nothing, or the last entry.
pub fn keep_law<K: Eq + Hash + Copy, V: Copy>()
    ensures { HandsBack K V K.eq }
{}

/// A full turn of the entries keeps those that stay, in their order.
pub fn turn_law<K: Eq + Hash + Copy, V: Copy>()
    ensures { TakesTurns K V K.eq }
{}
