// The live clauses of a ledger that keeps them, by their numbers. Literals stand one behind another in one row, so that
// a clause costs no allocation. Nothing is given back before the end.
ghost use Rattle.std.specs.Prelude.{◌≡◌, ◌+◌, ◌*◌, ◌≤◌, ◌++◌, OnOk, OnErr, IfOk, IfSome, IsTrue, None, is_some, length, slice_index_or};
ghost use Rattle.std.specs.Prelude.{vec_len, vec_capacity};
ghost use Rattle.std.specs.Option.{option_copied};
ghost use Rattle.std.specs.FinMap as map;
ghost use Rattle.lrat_rules.specs.State.{State, start, without_clauses};
ghost use Rattle.clause_ledger.specs.Book.{with_next};
ghost use Rattle.clause_ledger.specs.Kept.{AreKept, kept_at, room_of};
ghost use Rattle.clause_ledger.specs.Spans.{Fits, clause_of};

use cnf_base::{Cnf, Id, Lit, OutOfMemory};
use lrat_rules::{live_law, start_law};
use std::alloc::Global;
use std::marker::Model;

/// Room is made for clauses of at most so many literals.
const SHORT_LENGTH: usize = 4;

/// Where a place's clause stands: nowhere, or as so many literals from a start on.
#[derive(Clone, Copy)]
pub(crate) enum Span {
    Free,
    Within(usize, usize),
}

#[derive(Drop)]
pub(crate) struct Kept {
    literals: Vec<Lit>,
    spans: Vec<Span>,
    // for so many short clauses, behind those that are there
    room: usize,
}

impl Model for Kept {
    ghost use Rattle.std.specs.Prelude.{◌≤◌, ◌+◌, ◌*◌, map, vec_len, vec_capacity};
    ghost use Rattle.std.specs.List.{All};
    ghost use Rattle.clause_ledger.specs.Kept.{KeptClauses, kept_code};
    ghost use Rattle.clause_ledger.specs.Spans.{Fits, clause_of};

    ghost Value = { KeptClauses };

    ghost coded = { kept_code };

    ghost view = { λ k. record { places = map (clause_of k.literals.items) k.spans.items; room = k.room } };

    ghost invariant = { λ k. All (Fits k.literals.items) k.spans.items
        × (vec_len k.literals + 4 * k.room ≤ vec_capacity k.literals)
        × (vec_len k.spans + k.room ≤ vec_capacity k.spans) };
}

impl Kept {
    /// The clauses of a formula.
    pub(crate) fn of(alloc: Global, formula: &Cnf) -> Result<Kept, OutOfMemory>
        ensures { IfOk result (AreKept (start formula.now.clauses)) }
    {
        start_law();
        let mut kept = Kept {
            literals: Vec::new(alloc),
            spans: Vec::new(alloc),
            room: 0,
        };
        for i in 0..formula.len() {
            kept.push(formula.clause(i + 1))?;
        }
        Ok(kept)
    }

    /// Keeps a clause under the next number. A refusal changes nothing.
    pub(crate) fn push(&mut self, clause: &[Lit]) -> Result<(), OutOfMemory>
        ensures kept { (state : State) → AreKept state self.old → OnOk result (AreKept (with_next state clause.now) self.new) }
        ensures spare { OnOk result (length clause.now ≤ 4 → self.old.room ≤ self.new.room + 1) }
        ensures err { OnErr result (self.new ≡ self.old) }
        ensures full { OnErr result (length clause.now ≤ 4 → self.old.room ≡ 0) }
    {
        live_law();
        let left = make_room(&mut self.literals, &mut self.spans, self.room, clause.len())?;
        let start = self.literals.len();
        copy(&mut self.literals, clause);
        self.spans.push_reserved(Span::Within(clause.len(), start));
        self.room = left;
        Ok(())
    }

    /// Makes room for so many more clauses of at most four literals.
    pub(crate) fn reserve(&mut self, clauses: usize) -> Result<(), OutOfMemory>
        ensures places { self.new.places ≡ self.old.places }
        ensures ok { OnOk result (clauses ≤ self.new.room) }
        ensures room { self.old.room ≤ self.new.room }
    {
        if clauses <= self.room {
            return Ok(());
        }
        let Some(literals) = clauses.checked_mul(SHORT_LENGTH) else {
            return Err(OutOfMemory);
        };
        self.literals.reserve(literals)?;
        self.spans.reserve(clauses)?;
        self.room = clauses;
        Ok(())
    }

    /// Deletes the clauses of these numbers, where they are live.
    pub(crate) fn remove_all(&mut self, ids: &[Id])
        ensures kept { (state : State) → AreKept state self.old
            → AreKept (record { live = without_clauses state.live ids.now; top = state.top }) self.new }
        ensures room { self.new.room ≡ self.old.room }
    {
        for id in ids {
            self.remove(*id);
        }
    }

    // Deletes the clause of a number, where it is live.
    fn remove(&mut self, id: Id)
        ensures kept { (state : State) → AreKept state self.old
            → AreKept (record { live = map.remove state.live id; top = state.top }) self.new }
        ensures room { self.new.room ≡ self.old.room }
    {
        let number = id.get();
        if number > 0 && number <= self.spans.len() as u64 {
            self.spans[(number - 1) as usize] = Span::Free;
        }
    }

    /// The clause of a number, where it is live.
    pub(crate) fn clause(&self, id: Id) -> Option<&[Lit]>
        ensures { option_copied result ≡ kept_at self.now.places id }
    {
        let number = id.get();
        if number == 0 {
            return None;
        }
        self.at((number - 1) as usize)
    }

    // The clause at a place, where there is one.
    fn at(&self, place: usize) -> Option<&[Lit]>
        ensures { option_copied result ≡ slice_index_or self.now.places place None }
    {
        match self.spans.get(place) {
            None => None,
            Some(span) => clause_of(self.literals.as_slice(), *span),
        }
    }
}

// The clause of a span.
fn clause_of(literals: &[Lit], span: Span) -> Option<&[Lit]>
    requires { Fits literals.now span }
    ensures { option_copied result ≡ clause_of literals.now span }
{
    match span {
        Span::Free => None,
        Span::Within(len, start) => Some(&literals[start..start + len]),
    }
}

// Makes room for one clause of this length. Answers for how many short ones there is room behind it. A short one for which
// there was room needs no memory.
fn make_room(
    literals: &mut Vec<Lit>,
    spans: &mut Vec<Span>,
    room: usize,
    len: usize,
) -> Result<usize, OutOfMemory>
    requires literals { vec_len literals.old + 4 * room ≤ vec_capacity literals.old }
    requires spans { vec_len spans.old + room ≤ vec_capacity spans.old }
    ensures literals { literals.new.items ≡ literals.old.items }
    ensures spans { spans.new.items ≡ spans.old.items }
    ensures room_of_literals { IfOk result (λ left. vec_len literals.new + len + 4 * left ≤ vec_capacity literals.new) }
    ensures room_of_spans { IfOk result (λ left. vec_len spans.new + 1 + left ≤ vec_capacity spans.new) }
    ensures left { IfOk result (λ left. len ≤ 4 → room ≤ left + 1) }
    ensures literals_as_before { OnErr result (vec_len literals.new + 4 * room ≤ vec_capacity literals.new) }
    ensures spans_as_before { OnErr result (vec_len spans.new + room ≤ vec_capacity spans.new) }
    ensures full { OnErr result (len ≤ 4 → room ≡ 0) }
{
    if len <= SHORT_LENGTH && room > 0 {
        return Ok(room - 1);
    }
    literals.reserve(len)?;
    spans.reserve(1)?;
    Ok(0)
}

// Copies literals into the room that is there.
fn copy(literals: &mut Vec<Lit>, clause: &[Lit])
    requires room { vec_len literals.old + length clause.now ≤ vec_capacity literals.old }
    ensures items { literals.new.items ≡ literals.old.items ++ clause.now }
    ensures len { vec_len literals.new ≡ vec_len literals.old + length clause.now }
    ensures capacity { vec_capacity literals.new ≡ vec_capacity literals.old }
{
    for literal in clause {
        literals.push_reserved(*literal);
    }
}

/// Keeps a clause under the next number, where clauses are kept. A refusal changes nothing.
pub(crate) fn push_kept(kept: &mut Option<Kept>, clause: &[Lit]) -> Result<(), OutOfMemory>
    ensures kept { (state : State) → IfSome kept.old (AreKept state)
        → OnOk result (IfSome kept.new (AreKept (with_next state clause.now))) }
    ensures keeps { is_some kept.new ≡ is_some kept.old }
    ensures spare { OnOk result (length clause.now ≤ 4 → room_of kept.old ≤ room_of kept.new + 1) }
    ensures err { OnErr result (kept.new ≡ kept.old) }
    ensures full { OnErr result (length clause.now ≤ 4 → room_of kept.old ≡ 0) }
    ensures keeping { OnErr result (IsTrue (is_some kept.old)) }
{
    match kept {
        None => Ok(()),
        Some(kept) => kept.push(clause),
    }
}

/// Deletes the clauses of these numbers, where clauses are kept and these are live.
pub(crate) fn remove_kept(kept: &mut Option<Kept>, ids: &[Id])
    ensures kept { (state : State) → IfSome kept.old (AreKept state)
        → IfSome kept.new (AreKept (record { live = without_clauses state.live ids.now; top = state.top })) }
    ensures keeps { is_some kept.new ≡ is_some kept.old }
    ensures spare { room_of kept.new ≡ room_of kept.old }
{
    match kept {
        None => {}
        Some(kept) => kept.remove_all(ids),
    }
}

/// Makes room for so many more clauses of at most four literals, where clauses are kept.
pub(crate) fn reserve_kept(kept: &mut Option<Kept>, clauses: usize) -> Result<(), OutOfMemory>
    ensures kept { (state : State) → IfSome kept.old (AreKept state) → IfSome kept.new (AreKept state) }
    ensures keeps { is_some kept.new ≡ is_some kept.old }
    ensures ok { OnOk result (clauses ≤ room_of kept.new) }
    ensures spare { room_of kept.old ≤ room_of kept.new }
    ensures keeping { OnErr result (IsTrue (is_some kept.old)) }
{
    match kept {
        None => Ok(()),
        Some(kept) => kept.reserve(clauses),
    }
}
