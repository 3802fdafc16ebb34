// Ranks of variables. A rank stands in the round that it was given in, so that none has to be taken back.
ghost use Rattle.std.specs.Prelude.{◌≡◌, ◌<◌, ◌≤◌, ◌+◌, ◌^◌, ℕ, true, false, Contains, IsTrue, length, slice_index_or};
ghost use Rattle.reconstruction.specs.declared.entries.Entry.{Entry as EntryValue};
ghost use Rattle.reconstruction.specs.Entries.{variables_of};
ghost use Rattle.reconstruction.specs.SetsBack.{is_among};
ghost use Rattle.reconstruction.specs.Ranks.{AreRising, AreRanksBefore, rank_of, unranked};

use crate::entries::Entry;

/// A variable's rank, and the round in which it was given.
#[derive(Clone, Copy)]
pub struct Rank {
    pub round: u32,
    pub rank: u32,
}

const _: () = prove!(size_of::<Rank>() == 8);

/// The rank of a variable in a round, 0 where it has none.
pub fn rank_of(ranks: &[Rank], round: u32, variable: u32) -> u32
    requires { 0 < variable }
    ensures { result ≡ rank_of ranks.now round variable }
{
    let given = at(ranks, variable as usize - 1);
    if given.round == round { given.rank } else { 0 }
}

fn at(ranks: &[Rank], place: usize) -> Rank
    ensures { result ≡ slice_index_or ranks.now place unranked }
{
    match ranks.get(place) {
        Some(given) => *given,
        None => Rank { round: 0, rank: 0 },
    }
}

/// Ranks the variables of entries, that of the last entry 1. Whether no variable stands there twice.
pub fn rank_all(entries: &[Entry], round: u32, ranks: &mut Vec<Rank>) -> bool
    requires few { length entries.now < 2 ^ 32 }
    requires variables { (entry : EntryValue) → Contains entries.now entry
        → (0 < entry.variable) × (entry.variable ≤ length ranks.old.items) }
    requires before { AreRanksBefore round ranks.old.items }
    ensures before { AreRanksBefore (round + 1) ranks.new.items }
    ensures others { (v : ℕ) → 0 < v → is_among (variables_of entries.now) v ≡ false → rank_of ranks.new.items round v ≡ 0 }
    ensures ranked { (v : ℕ) → 0 < v → is_among (variables_of entries.now) v ≡ true → 0 < rank_of ranks.new.items round v }
    ensures rising { IsTrue result → AreRising (rank_of ranks.new.items round) (variables_of entries.now) }
{
    let mut differ = true;
    'entries: for place in 0..entries.len() {
        let variable = entries[place].variable;
        let fresh = rank_of(ranks, round, variable) == 0;
        differ = differ && fresh;
        ranks[variable as usize - 1] = Rank {
            round,
            rank: (entries.len() - place) as u32,
        };
    }
    differ
}
