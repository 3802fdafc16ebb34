// The hints of an addition over one step of an operation, without the literals of the clauses that may serve. A node's defining
// clause is false there but for its child's literal, so that its number and the child's atom say all; and where no part before is a
// conflict, the last one is.
ghost use Rattle.std.specs.Prelude.{◌≡◌, ◌<◌, ◌≤◌, ◌+◌, ◌++◌, ◌∷◌, ℤ, neg_ℤ, List, Option, Some, IsTrue, IsFalse, length};
ghost use Rattle.std.specs.Option.{option_map};
ghost use Rattle.lrat_rules.specs.Chain.{literals_of, with_literal};
ghost use Rattle.hint_chain.specs.declared.part.Part.{Part};
ghost use Rattle.hint_chain.specs.Greedy.{greedy};
ghost use Rattle.hint_chain.specs.Step.{AreOfChild, GoesOn, SideParts, Spells, falses_with, hints_with, parts_in};

use crate::atom::Atom;
use crate::hints::Hints;
use crate::inline::InlineLiterals;
use cnf_base::{Id, Lit};
use lrat_rules::is_among;
use std::alloc::Global;

/// A node's defining clause between the node and a child: its number, and what the child puts into it.
#[derive(Clone, Copy)]
pub struct ChildPart {
    pub id: Id,
    pub child: Atom,
}

/// The parts of one side of a step: from the result's child up to the result, if there is one, from the operands to their children, and
/// the number of what was found for the children.
#[derive(Clone, Copy)]
pub struct StepParts {
    pub result: Option<ChildPart>,
    pub first: Option<ChildPart>,
    pub second: Option<ChildPart>,
    pub children: Option<Id>,
}

/// The greedy choice among the parts of a side of which one is a conflict.
pub fn step_hints(alloc: Global, clause: &[Lit], parts: &StepParts) -> Hints
    requires short { length clause.now ≤ 4 }
    ensures { (sides : SideParts) → Spells (literals_of clause.now) parts.now sides
        → greedy (literals_of clause.now) (parts_in sides) ≡ Some result }
{
    let mut hints = Hints::new(alloc);
    let mut falses = InlineLiterals::<9>::from_slice(clause);
    choose_all(&mut hints, &mut falses, parts);
    hints
}

/// The same behind a first part, which is the clause with the negation of x before it.
pub fn step_hints_behind(
    alloc: Global,
    first: Id,
    x: Lit,
    clause: &[Lit],
    parts: &StepParts,
) -> Hints
    requires short { length clause.now ≤ 4 }
    requires new { IsFalse (literals_of clause.now x) }
    requires open { IsFalse (literals_of clause.now (neg_ℤ x)) }
    ensures { (sides : SideParts) → Spells (with_literal x (literals_of clause.now)) parts.now sides
        → greedy (literals_of clause.now) (Some (record { id = first; clause = neg_ℤ x ∷ clause.now }) ∷ parts_in sides) ≡ Some result }
{
    let mut hints = Hints::new(alloc);
    hints.push(first);
    let mut falses = InlineLiterals::<9>::from_slice(clause);
    falses.push(x);
    choose_all(&mut hints, &mut falses, parts);
    hints
}

// Appends the greedy choice among the parts to the hints so far.
fn choose_all(hints: &mut Hints, falses: &mut InlineLiterals<9>, parts: &StepParts)
    requires few_hints { length hints.old ≤ 1 }
    requires few_falses { length falses.old ≤ 5 }
    ensures { (sides : SideParts) → Spells (literals_of falses.old) parts.now sides
        → option_map (λ more. hints.old ++ more) (greedy (literals_of falses.old) (parts_in sides)) ≡ Some hints.new }
{
    if choose_child(hints, falses, &parts.result) {
        return;
    }
    if choose_child(hints, falses, &parts.first) {
        return;
    }
    if choose_child(hints, falses, &parts.second) {
        return;
    }
    match parts.children {
        None => {}
        Some(id) => hints.push(id),
    }
}

// Takes the part of a child, if there is one. Answers whether it is a conflict.
#[inline(always)]
fn choose_child(hints: &mut Hints, falses: &mut InlineLiterals<9>, part: &Option<ChildPart>) -> bool
    requires few_hints { length hints.old < 8 }
    requires few_falses { length falses.old < 9 }
    ensures goes_on { (own : Option Part) (rest : List (Option Part)) → AreOfChild (literals_of falses.old) part.now own
        → GoesOn result hints.old hints.new (literals_of falses.old) (literals_of falses.new) own rest }
    ensures grows { (y : ℤ) → IsTrue (literals_of falses.old y) → IsTrue (literals_of falses.new y) }
    ensures hints { length hints.new ≤ length hints.old + 1 }
    ensures falses { length falses.new ≤ length falses.old + 1 }
{
    match part {
        None => false,
        Some(own) => take_child(hints, falses, own),
    }
}

// Takes a part. Where the child has no literal, it is a conflict.
#[inline(always)]
fn take_child(hints: &mut Hints, falses: &mut InlineLiterals<9>, own: &ChildPart) -> bool
    requires few_hints { length hints.old < 8 }
    requires few_falses { length falses.old < 9 }
    ensures goes_on { (part : Option Part) (rest : List (Option Part)) → AreOfChild (literals_of falses.old) (Some own.now) part
        → GoesOn result hints.old hints.new (literals_of falses.old) (literals_of falses.new) part rest }
    ensures grows { (y : ℤ) → IsTrue (literals_of falses.old y) → IsTrue (literals_of falses.new y) }
    ensures hints { length hints.new ≤ length hints.old + 1 }
    ensures falses { length falses.new ≤ length falses.old + 1 }
{
    match own.child {
        Atom::Always => {
            hints.push(own.id);
            true
        }
        Atom::Never => {
            hints.push(own.id);
            true
        }
        Atom::Of(literal) => choose_literal(hints, falses, own.id, literal),
    }
}

// Takes the clause of this number, which is false but for a literal. It is a conflict where that is false too, and left out where the
// literal is true.
#[inline(always)]
fn choose_literal(hints: &mut Hints, falses: &mut InlineLiterals<9>, id: Id, literal: Lit) -> bool
    requires few_hints { length hints.old < 8 }
    requires few_falses { length falses.old < 9 }
    ensures conflict { result ≡ literals_of falses.old literal }
    ensures hints { hints.new ≡ hints_with (literals_of falses.old literal) (literals_of falses.old (neg_ℤ literal)) hints.old id }
    ensures falses { literals_of falses.new
        ≡ falses_with (literals_of falses.old literal) (literals_of falses.old (neg_ℤ literal)) literal (literals_of falses.old) }
    ensures few { length falses.new ≤ length falses.old + 1 }
{
    if is_among(falses.as_slice(), literal) {
        hints.push(id);
        return true;
    }
    let negated = literal.negated();
    if is_among(falses.as_slice(), negated) {
        return false;
    }
    hints.push(id);
    falses.push(negated);
    false
}
