// Two watched literals of each clause that isn't short, and the lists of the numbers that watch a literal: a clause needs to be looked at
// only where one of its two becomes false. Taking literals back changes no watch. A list may have numbers that watch it no more: they go
// when they are met. A clause may stand in late lists in their place, which are visited once the others have come to no conflict. (Moskewicz, Madigan, Zhao, Zhang, Malik: Chaff, DAC 2001.)
ghost use Rattle.std.specs.Prelude.{◌≡◌, ◌<◌, ◌∷◌, ◌++◌, [], ℕ, ℤ, List, length, Some, None, false, true, IsTrue};
ghost use Rattle.std.specs.Prelude.{IfOk, OnOk, IfSome, IsSome, is_some};
ghost use Rattle.std.specs.List.{list_all};
ghost use Rattle.std.specs.Option.{option_copied};
ghost use Rattle.std.specs.Ordering.{int_eq};
ghost use Rattle.lrat_rules.specs.declared.outcome.Effect.TheVariants.{NotUnit};
ghost use Rattle.lrat_rules.specs.Chain.{literals_of, effect};
ghost use Rattle.drat_rules.specs.Quiet.{has_quiet};
ghost use Rattle.drat_checker.specs.declared.pair.Pair.{Pair as TwoLiterals};
ghost use Rattle.drat_checker.specs.Places.{Places, standing};
ghost use Rattle.drat_checker.specs.Propagation.{Derives};
ghost use Rattle.drat_checker.specs.Reasons.{IsFalsified, KeepsReasons};
ghost use Rattle.drat_checker.specs.Database.{is_short};
ghost use Rattle.drat_checker.specs.Watches.{ArePairs, AreVisited, AreWatched, IsPair, IsWatched, KeepsBoth, MovesWatches, Watchers};
ghost use Rattle.drat_checker.specs.Watches.{beside, is_in, is_last, pair_at, watchers, watchers_with, watches};
ghost use Rattle.drat_checker.specs.Visits.{IsBeside, OtherOf, VisitIs};
ghost use Rattle.drat_checker.specs.Numbers.{has_number};
ghost use Rattle.drat_checker.specs.LiteralLists.{KeepsEach, KeepsOthers};

use crate::database::Database;
use crate::false_list::FalseList;
use crate::literal_lists::LiteralLists;
use crate::numbers::Numbers;
use crate::pair::Pair;
use cnf_base::{Lit, OutOfMemory};
use drat_rules::{propagation_law, quiet_law};
use lrat_rules::Effect;
use std::alloc::Global;

/// What is watched, by number, and who watches, by literal.
#[derive(Drop)]
pub struct Watches {
    alloc: Global,
    pairs: Vec<Option<Pair>>,
    lists: LiteralLists,
    late: LiteralLists,
}

impl Watches {
    /// No number has its pair.
    pub fn new(alloc: Global) -> Watches
        ensures { AreWatched result [] }
    {
        Watches {
            alloc,
            pairs: Vec::new(alloc),
            lists: LiteralLists::new(alloc),
            late: LiteralLists::new(alloc),
        }
    }

    /// How many numbers have their place.
    pub fn count(&self) -> Result<u32, OutOfMemory>
        ensures { IfOk result (λ count. count ≡ length self.now.pairs.items) }
    {
        let len = self.pairs.len();
        if len > u32::MAX as usize {
            return Err(OutOfMemory);
        }
        Ok(len as u32)
    }

    /// The clause of the next number, or the place that it left, behind those of the numbers that have their pairs. Literals that aren't
    /// false are watched first.
    pub fn enter(
        &mut self,
        trail: &FalseList,
        number: u32,
        place: Option<&[Lit]>,
    ) -> Result<(), OutOfMemory>
        requires { number ≡ length self.old.pairs.items }
        ensures watched { OnOk result ((places : Places) → AreWatched self.old places
            → AreWatched self.new (places ++ option_copied place.entry ∷ [])) }
        ensures others { OnOk result ((n : ℕ) → n < number → pair_at self.new.pairs.items n ≡ pair_at self.old.pairs.items n) }
        ensures unfalse { OnOk result ((clause : List ℤ) → option_copied place.entry ≡ Some clause
            → effect (literals_of trail.now.literals) clause ≡ NotUnit → (x : ℤ) → IsTrue (watches self.new.pairs.items number x)
            → literals_of trail.now.literals x ≡ false) }
    {
        let pair = pair_of(trail, place);
        enter_pair(&mut self.lists, self.alloc, number, &pair)?;
        self.pairs.push(pair)?;
        Ok(())
    }

    /// The clauses of all numbers are entered anew.
    pub fn rebuild(&mut self, db: &Database, trail: &FalseList) -> Result<(), OutOfMemory>
        ensures { OnOk result (AreWatched self.new db.now) }
    {
        let count = db.count()?;
        self.pairs.clear();
        self.lists = LiteralLists::new(self.alloc);
        self.late = LiteralLists::new(self.alloc);
        for number in 0..count {
            self.enter(trail, number, db.clause(number))?;
        }
        Ok(())
    }

    /// The clause of a number is visited late from now on. Behind a refusal nothing is said of what is watched.
    pub fn postpone(&mut self, number: u32) -> Result<(), OutOfMemory>
        ensures watched { OnOk result ((places : Places) → AreWatched self.old places → AreWatched self.new places) }
        ensures pairs { self.new.pairs ≡ self.old.pairs }
    {
        match pair_in(self.pairs.as_slice(), number) {
            None => Ok(()),
            Some(pair) => {
                move_number(
                    self.alloc,
                    &mut self.lists,
                    &mut self.late,
                    pair.first,
                    number,
                )?;
                move_number(
                    self.alloc,
                    &mut self.lists,
                    &mut self.late,
                    pair.second,
                    number,
                )
            }
        }
    }

    /// The clauses that watch a literal that is false are visited, but for the late ones. The answer is the number of one of them that is
    /// false.
    pub fn visit(
        &mut self,
        db: &Database,
        trail: &mut FalseList,
        literal: Lit,
    ) -> Result<Option<u32>, OutOfMemory>
        requires watched { AreWatched self.old db.now }
        requires falsified { IsTrue (literals_of trail.old.literals literal) }
        ensures watched { OnOk result (AreWatched self.new db.now) }
        ensures moves { OnOk result (MovesWatches self.old.pairs.items self.new.pairs.items trail.old.literals) }
        ensures derives { OnOk result (Derives (standing db.now) trail.old.literals trail.new.literals) }
        ensures reasons { OnOk result (KeepsReasons db.now [] trail.old trail.new) }
        ensures conflict { IfOk result (λ conflict. IsSome conflict → has_quiet (standing db.now) trail.old.literals ≡ false) }
        ensures falsified { IfOk result (λ conflict. IfSome conflict (IsFalsified db.now trail.new.literals)) }
        ensures visited { IfOk result (λ conflict. conflict ≡ None
            → AreVisited db.now self.new.pairs.items literal trail.new.literals (watchers self.old.lists literal) []) }
        ensures late { OnOk result (self.new.late ≡ self.old.late) }
    {
        visit_in(
            db,
            self.alloc,
            &mut self.pairs,
            &mut self.lists,
            trail,
            literal,
        )
    }

    /// The same of the late ones.
    pub fn visit_late(
        &mut self,
        db: &Database,
        trail: &mut FalseList,
        literal: Lit,
    ) -> Result<Option<u32>, OutOfMemory>
        requires watched { AreWatched self.old db.now }
        requires falsified { IsTrue (literals_of trail.old.literals literal) }
        ensures watched { OnOk result (AreWatched self.new db.now) }
        ensures moves { OnOk result (MovesWatches self.old.pairs.items self.new.pairs.items trail.old.literals) }
        ensures derives { OnOk result (Derives (standing db.now) trail.old.literals trail.new.literals) }
        ensures reasons { OnOk result (KeepsReasons db.now [] trail.old trail.new) }
        ensures conflict { IfOk result (λ conflict. IsSome conflict → has_quiet (standing db.now) trail.old.literals ≡ false) }
        ensures falsified { IfOk result (λ conflict. IfSome conflict (IsFalsified db.now trail.new.literals)) }
        ensures visited { IfOk result (λ conflict. conflict ≡ None
            → AreVisited db.now self.new.pairs.items literal trail.new.literals (watchers self.old.late literal) []) }
        ensures late { OnOk result (KeepsOthers literal self.old.late self.new.late) }
    {
        if self.late.is_empty_at(literal) {
            return Ok(None);
        }
        visit_in(
            db,
            self.alloc,
            &mut self.pairs,
            &mut self.late,
            trail,
            literal,
        )
    }
}

// The clauses in one kind of lists that watch a literal that is false are visited: the literal's list is taken out, and given back.
fn visit_in(
    db: &Database,
    alloc: Global,
    pairs: &mut Vec<Option<Pair>>,
    lists: &mut LiteralLists,
    trail: &mut FalseList,
    literal: Lit,
) -> Result<Option<u32>, OutOfMemory>
    requires many { length pairs.old.items ≡ length db.now }
    requires pairs { ArePairs pairs.old.items db.now }
    requires falsified { IsTrue (literals_of trail.old.literals literal) }
    ensures many { length pairs.new.items ≡ length db.now }
    ensures watched { OnOk result ((others : Watchers) → IsWatched pairs.old.items (beside (watchers lists.old) others) db.now
        → IsWatched pairs.new.items (beside (watchers lists.new) others) db.now) }
    ensures moves { OnOk result (MovesWatches pairs.old.items pairs.new.items trail.old.literals) }
    ensures derives { OnOk result (Derives (standing db.now) trail.old.literals trail.new.literals) }
    ensures reasons { OnOk result (KeepsReasons db.now [] trail.old trail.new) }
    ensures conflict { IfOk result (λ conflict. IsSome conflict → has_quiet (standing db.now) trail.old.literals ≡ false) }
    ensures falsified { IfOk result (λ conflict. IfSome conflict (IsFalsified db.now trail.new.literals)) }
    ensures visited { IfOk result (λ conflict. conflict ≡ None
        → AreVisited db.now pairs.new.items literal trail.new.literals (watchers lists.old literal) []) }
    ensures kept { OnOk result (KeepsOthers literal lists.old lists.new) }
{
    let mut out = lists.take(alloc, literal);
    let conflict = walk(db, alloc, pairs, lists, &mut out, trail, literal)?;
    lists.give(alloc, literal, out)?;
    Ok(conflict)
}

// Moves a number from the list of a literal to that of others, where it stands there.
fn move_number(
    alloc: Global,
    lists: &mut LiteralLists,
    others: &mut LiteralLists,
    literal: Lit,
    number: u32,
) -> Result<(), OutOfMemory>
    ensures { OnOk result (KeepsBoth (beside (watchers lists.old) (watchers others.old)) (beside (watchers lists.new)
        (watchers others.new))) }
{
    let mut out = lists.take(alloc, literal);
    let moves = out.forget(number);
    lists.give(alloc, literal, out)?;
    enter_if(moves, others, alloc, literal, number)
}

// The number enters the list of a literal, where it is to.
fn enter_if(
    enters: bool,
    lists: &mut LiteralLists,
    alloc: Global,
    literal: Lit,
    number: u32,
) -> Result<(), OutOfMemory>
    ensures kept { KeepsEach lists.old lists.new }
    ensures entered { OnOk result (IsTrue enters → IsTrue (has_number number (watchers lists.new literal))) }
{
    if enters {
        return lists.enter(alloc, literal, number);
    }
    Ok(())
}

// What the clause of a number watches.
fn pair_in(pairs: &[Option<Pair>], number: u32) -> Option<Pair> {
    match pairs.get(number as usize) {
        None => None,
        Some(pair) => *pair,
    }
}

// What the clause of a place watches, where there is one that isn't short.
fn pair_of(trail: &FalseList, place: Option<&[Lit]>) -> Option<Pair>
    ensures own { (clause : List ℤ) (pair : TwoLiterals) → option_copied place.entry ≡ Some clause → result ≡ Some pair
        → IsPair pair clause }
    ensures there { (clause : List ℤ) → option_copied place.entry ≡ Some clause → is_short clause ≡ false → is_some result ≡ true }
    ensures unfalse { (clause : List ℤ) (pair : TwoLiterals) → option_copied place.entry ≡ Some clause → result ≡ Some pair
        → effect (literals_of trail.now.literals) clause ≡ NotUnit
        → (literals_of trail.now.literals pair.first ≡ false) × (literals_of trail.now.literals pair.second ≡ false) }
{
    match place {
        None => None,
        Some(clause) => choose(trail, clause),
    }
}

// The number enters the lists of the two literals, where there are any.
fn enter_pair(
    lists: &mut LiteralLists,
    alloc: Global,
    number: u32,
    pair: &Option<Pair>,
) -> Result<(), OutOfMemory>
    ensures kept { KeepsEach lists.old lists.new }
    ensures entered { OnOk result ((x : ℤ) → IsTrue (is_in pair.now x) → IsTrue (has_number number (watchers lists.new x))) }
{
    match pair {
        None => Ok(()),
        Some(pair) => {
            lists.enter(alloc, pair.first, number)?;
            lists.enter(alloc, pair.second, number)
        }
    }
}

// Two different literals of a clause, that aren't false where it has two such; nothing where it is short.
fn choose(trail: &FalseList, clause: &[Lit]) -> Option<Pair>
    ensures own { IfSome result (λ pair. IsPair pair clause.now) }
    ensures short { result ≡ None → is_short clause.now ≡ true }
    ensures unfalse { IfSome result (λ pair. effect (literals_of trail.now.literals) clause.now ≡ NotUnit
        → (literals_of trail.now.literals pair.first ≡ false) × (literals_of trail.now.literals pair.second ≡ false)) }
{
    match trail.effect_of(clause) {
        Effect::NotUnit => two_outside(trail, clause),
        Effect::Conflict => two_of(clause),
        Effect::Unit(_) => two_of(clause),
    }
}

// Two different literals that aren't false, of a clause that has them.
fn two_outside(trail: &FalseList, clause: &[Lit]) -> Option<Pair>
    requires { effect (literals_of trail.now.literals) clause.now ≡ NotUnit }
    ensures some { IsSome result }
    ensures own { IfSome result (λ pair. IsPair pair clause.now) }
    ensures unfalse { IfSome result (λ pair. (literals_of trail.now.literals pair.first ≡ false)
        × (literals_of trail.now.literals pair.second ≡ false)) }
{
    match first_outside(trail, clause) {
        None => None,
        Some(second) => match find(trail, clause, second) {
            None => None,
            Some(first) => Some(Pair { first, second }),
        },
    }
}

// The first literal that isn't false.
fn first_outside(trail: &FalseList, clause: &[Lit]) -> Option<Lit>
    ensures found { IfSome result (λ first. literals_of clause.now first ≡ true) }
    ensures unfalse { IfSome result (λ first. literals_of trail.now.literals first ≡ false) }
    ensures none { result ≡ None → IsTrue (list_all (literals_of trail.now.literals) clause.now) }
{
    for literal in clause {
        if trail.contains(*literal) {
            continue;
        }
        return Some(*literal);
    }
    None
}

// Two different literals of a clause; nothing where it has none.
fn two_of(clause: &[Lit]) -> Option<Pair>
    ensures own { IfSome result (λ pair. IsPair pair clause.now) }
    ensures short { result ≡ None → is_short clause.now ≡ true }
{
    match clause {
        [] => None,
        [second, ..] => match other_than(clause, *second) {
            None => None,
            Some(first) => Some(Pair {
                first,
                second: *second,
            }),
        },
    }
}

// The first literal that isn't that one.
fn other_than(literals: &[Lit], other: Lit) -> Option<Lit>
    ensures found { IfSome result (λ first. literals_of literals.now first ≡ true) }
    ensures differs { IfSome result (λ first. int_eq first other ≡ false) }
    ensures none { result ≡ None → IsTrue (list_all (int_eq other) literals.now) }
{
    for literal in literals {
        if *literal == other {
            continue;
        }
        return Some(*literal);
    }
    None
}

// How a number in the list of a literal that is false is found.
#[derive(Clone, Copy)]
pub enum Visit {
    // It stays: the clause's other watched literal is true.
    Stays,
    // It goes: no clause stands there, or it watches the literal no more.
    Gone,
    // The clause has a literal that isn't false, to be watched in the place of this one, beside the other one.
    Moved(Pair),
    // All literals but this one are false.
    Last(Lit),
}

// Visits the numbers of a literal's list, which was taken out, from its end. The answer is the number of a clause that is false.
fn walk(
    db: &Database,
    alloc: Global,
    pairs: &mut Vec<Option<Pair>>,
    lists: &mut LiteralLists,
    out: &mut Numbers,
    trail: &mut FalseList,
    literal: Lit,
) -> Result<Option<u32>, OutOfMemory>
    requires many { length pairs.old.items ≡ length db.now }
    requires pairs { ArePairs pairs.old.items db.now }
    requires falsified { IsTrue (literals_of trail.old.literals literal) }
    ensures many { length pairs.new.items ≡ length db.now }
    ensures watched { OnOk result ((others : Watchers)
        → IsWatched pairs.old.items (beside (watchers_with lists.old literal out.old) others) db.now
        → IsWatched pairs.new.items (beside (watchers_with lists.new literal out.new) others) db.now) }
    ensures kept { KeepsEach lists.old lists.new }
    ensures moves { OnOk result (MovesWatches pairs.old.items pairs.new.items trail.old.literals) }
    ensures derives { OnOk result (Derives (standing db.now) trail.old.literals trail.new.literals) }
    ensures reasons { OnOk result (KeepsReasons db.now [] trail.old trail.new) }
    ensures conflict { IfOk result (λ conflict. IsSome conflict → has_quiet (standing db.now) trail.old.literals ≡ false) }
    ensures falsified { IfOk result (λ conflict. IfSome conflict (IsFalsified db.now trail.new.literals)) }
    ensures visited { IfOk result (λ conflict. conflict ≡ None
        → AreVisited db.now pairs.new.items literal trail.new.literals out.old []) }
{
    quiet_law();
    propagation_law();
    let mut left = out.len();
    'numbers: while left > 0 {
        left -= 1;
        let number = out.number(left);
        match look(db, pairs.as_slice(), trail, literal, number) {
            Visit::Stays => continue,
            Visit::Gone => {
                out.drop_at(left);
                continue;
            }
            Visit::Moved(pair) => {
                lists.enter(alloc, pair.first, number)?;
                pairs[number as usize] = Some(pair);
                out.drop_at(left);
                continue;
            }
            Visit::Last(other) => {
                let clash = trail.falsify(other.negated(), Some(number))?;
                if clash {
                    return Ok(Some(number));
                }
                continue;
            }
        }
    }
    Ok(None)
}

// What becomes of a number in the list of a literal that is false.
fn look(
    db: &Database,
    pairs: &[Option<Pair>],
    trail: &FalseList,
    literal: Lit,
    number: u32,
) -> Visit
    requires pairs { ArePairs pairs.now db.now }
    requires falsified { IsTrue (literals_of trail.now.literals literal) }
    ensures { VisitIs result db.now pairs.now trail.now.literals literal number }
{
    match other_of(pairs, number, literal) {
        None => Visit::Gone,
        Some(other) => {
            if trail.contains(other.negated()) {
                return Visit::Stays;
            }
            look_at(db, pairs, trail, literal, number, other)
        }
    }
}

// The same by the clause, where the other literal isn't true.
fn look_at(
    db: &Database,
    pairs: &[Option<Pair>],
    trail: &FalseList,
    literal: Lit,
    number: u32,
    other: Lit,
) -> Visit
    requires pairs { ArePairs pairs.now db.now }
    requires beside { IsBeside (pair_at pairs.now number) literal other }
    ensures { VisitIs result db.now pairs.now trail.now.literals literal number }
{
    match db.clause(number) {
        None => Visit::Gone,
        Some(clause) => match find(trail, clause, other) {
            None => Visit::Last(other),
            Some(first) => Visit::Moved(Pair {
                first,
                second: other,
            }),
        },
    }
}

// The other literal that a clause watches, where it watches this one.
fn other_of(pairs: &[Option<Pair>], number: u32, literal: Lit) -> Option<Lit>
    ensures { OtherOf (pair_at pairs.now number) literal result }
{
    match pairs.get(number as usize) {
        None => None,
        Some(pair) => other_in(pair, literal),
    }
}

fn other_in(pair: &Option<Pair>, literal: Lit) -> Option<Lit>
    ensures { OtherOf pair.now literal result }
{
    match pair {
        None => None,
        Some(pair) => {
            if pair.first == literal {
                return Some(pair.second);
            }
            if pair.second == literal {
                return Some(pair.first);
            }
            None
        }
    }
}

// The first literal of the clause that isn't false, and isn't that one.
fn find(trail: &FalseList, clause: &[Lit], other: Lit) -> Option<Lit>
    ensures found { IfSome result (λ next. literals_of clause.now next ≡ true) }
    ensures unfalse { IfSome result (λ next. literals_of trail.now.literals next ≡ false) }
    ensures differs { IfSome result (λ next. int_eq next other ≡ false) }
    ensures none { result ≡ None → IsTrue (is_last trail.now.literals other clause.now) }
{
    for literal in clause {
        if *literal == other {
            continue;
        }
        if trail.contains(*literal) {
            continue;
        }
        return Some(*literal);
    }
    None
}
