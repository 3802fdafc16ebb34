// The lines that tell how far a run is.
use crate::comment::Comment;
use bdd_terms::{Lookups, Reading};
use cube_queries::Reading as CubeReading;
use plan_search::{Attempt, Kind, Method, Pair};

/// So many moves are done, and this is the greatest number so far.
pub fn move_note(reading: &Reading, number: u64) -> Comment {
    Comment::new()
        .text("move ")
        .number(reading.moves)
        .text(" of ")
        .number(reading.all_moves)
        .text(", nodes ")
        .number(reading.nodes)
        .text(", number ")
        .number(number)
}

/// What a run used, at its end.
pub fn end_note(reading: &Reading, number: u64) -> Comment {
    let lookups = &reading.lookups;
    Comment::new()
        .text("most nodes ")
        .number(reading.most_nodes)
        .text(", copies ")
        .number(reading.copies)
        .text(", number ")
        .number(number)
        .text(", found in caches: and ")
        .number(percent(&lookups.conjunctions))
        .text(" %, implies ")
        .number(percent(&lookups.implications))
        .text(" %, exists ")
        .number(percent(&lookups.quantifications))
        .text(" %, or ")
        .number(percent(&lookups.disjunctions))
        .text(" %")
}

/// So many lines of a text were read.
pub fn line_note(lines: u64) -> Comment {
    Comment::new().text("line ").number(lines)
}

/// So many cubes are answered, and this is the greatest number so far.
pub fn cube_note(reading: &CubeReading, number: u64) -> Comment {
    Comment::new()
        .text("cube ")
        .number(reading.answered)
        .text(" of ")
        .number(reading.cubes)
        .text(", number ")
        .number(number)
}

/// A proof has a byte that no text has.
pub fn binary_note() -> Comment {
    Comment::new().text("the proof looks binary: only textual proofs are read")
}

/// A trial of a search.
pub fn trial_note(attempt: &Attempt) -> Comment {
    pair_note("trial ", attempt.pair)
        .text(", numbers to ")
        .number(attempt.max_ids)
        .text(", move ")
        .number(attempt.moves)
        .text(" of ")
        .number(attempt.all_moves)
}

/// What a search found.
pub fn found_note(pair: Pair) -> Comment {
    pair_note("found ", pair)
}

fn pair_note(word: &str, pair: Pair) -> Comment {
    Comment::new()
        .text(word)
        .text("buckets ")
        .text(kind_name(pair.buckets))
        .text(", order ")
        .text(kind_name(pair.diagrams))
}

// The part of the look-ups that found a result.
fn percent(lookups: &Lookups) -> u64 {
    let found = lookups.found as u128;
    let all = found + lookups.missed as u128;
    if all == 0 {
        return 0;
    }
    (found * 100 / all) as u64
}

fn kind_name(kind: Kind) -> &'static str {
    match kind {
        Kind::Natural => "natural",
        Kind::By(Method::Degree) => "degree",
        Kind::By(Method::Cardinality) => "cardinality",
        Kind::By(Method::Levels) => "levels",
        Kind::By(Method::Profile) => "profile",
    }
}
