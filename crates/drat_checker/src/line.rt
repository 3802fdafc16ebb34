// What an addition's line in an LRAT proof has behind its clause: hints that refute the clause, or a group of hints for each candidate.
ghost use Rattle.std.specs.Prelude.{◌≡◌, ◌++◌, ◌∷◌, [], ℕ, ℤ, List, Some, true, false, OnOk, IfOk, IsTrue};
ghost use Rattle.std.specs.List.{list_all};
ghost use Rattle.cnf_base.specs.declared.step.Step.TheVariants.{Add};
ghost use Rattle.cnf_base.specs.Truth.{is_literal_of};
ghost use Rattle.cnf_base.specs.ProofText.{max_literal};
ghost use Rattle.lrat_rules.specs.Addition.{holds_negated, is_blocked_by};
ghost use Rattle.lrat_rules.specs.Chain.{literals_of};
ghost use Rattle.drat_rules.specs.Addition.{others_of};
ghost use Rattle.drat_checker.specs.Places.{Places, place_at};
ghost use Rattle.drat_checker.specs.Reasons.{AreByUnits, AreReasons, Refutes};
ghost use Rattle.drat_checker.specs.Hints.{HasSame, is_tautology};
ghost use Rattle.drat_checker.specs.Lines.{Explain, FitOneMore};

use crate::addition::Refutation;
use crate::blocked::clashes;
use crate::database::Database;
use crate::false_list::FalseList;
use crate::hints::{conflict_of, explain, id_of, push_turned};
use crate::marks::{Marks, is_tautology, mark_both, mark_clause};
use crate::order::Order;
use cnf_base::{Group, GroupList, Id, IdList, Lit, LitList, OutOfMemory, Step};
use std::alloc::Global;
use std::mem;

/// The hints and groups of a line, and the memory in which they are found. Nothing is found where they aren't wanted.
#[derive(Drop)]
pub struct LineHints {
    alloc: Global,
    is_wanted: bool,
    pub hints: IdList,
    pub groups: GroupList,
    given: Marks,
    needed: Marks,
    found: IdList,
    order: Order,
}

impl LineHints {
    /// Neither hints nor groups.
    pub fn new(alloc: Global, is_wanted: bool) -> LineHints
        ensures wanted { result.is_wanted ≡ is_wanted }
        ensures hints { result.hints ≡ [] }
        ensures groups { result.groups ≡ [] }
    {
        LineHints {
            alloc,
            is_wanted,
            hints: IdList::new(alloc),
            groups: GroupList::new(alloc),
            given: Marks::new(alloc),
            needed: Marks::new(alloc),
            found: IdList::new(alloc),
            order: Order::new(alloc),
        }
    }

    /// Whether hints and groups are found.
    pub fn is_wanted(&self) -> bool
        ensures { result ≡ self.now.is_wanted }
    {
        self.is_wanted
    }

    /// The same for the next line.
    pub fn clear(&mut self)
        ensures wanted { self.new.is_wanted ≡ self.old.is_wanted }
        ensures hints { self.new.hints ≡ [] }
        ensures groups { self.new.groups ≡ [] }
    {
        self.hints.clear();
        self.groups.clear();
    }

    /// The step that adds a clause, with these hints and groups. They are taken out.
    pub fn take_step(&mut self, id: Id, clause: &[Lit]) -> Result<Step, OutOfMemory>
        ensures wanted { self.new.is_wanted ≡ self.old.is_wanted }
        ensures step { IfOk result (λ step. step ≡ Add id clause.now self.old.hints self.old.groups) }
        ensures range { OnOk result (IsTrue (list_all (is_literal_of max_literal) clause.now)) }
    {
        let lits = copied(self.alloc, clause)?;
        let pos = mem::replace(&mut self.hints, IdList::new(self.alloc));
        let groups = mem::replace(&mut self.groups, GroupList::new(self.alloc));
        Ok(Step::Add {
            id,
            lits,
            pos,
            groups,
        })
    }

    /// Whether a literal of the clause stands beside its negation.
    pub fn tautology(&mut self, clause: &[Lit]) -> Result<bool, OutOfMemory>
        ensures wanted { self.new.is_wanted ≡ self.old.is_wanted }
        ensures hints { self.new.hints ≡ self.old.hints }
        ensures groups { self.new.groups ≡ self.old.groups }
        ensures answer { IfOk result (λ found. found ≡ is_tautology clause.now) }
    {
        is_tautology(&mut self.needed, clause)
    }

    /// The hints that refute the clause, by how propagation from it came to a conflict.
    pub fn note_refutation(
        &mut self,
        db: &Database,
        trail: &FalseList,
        clause: &[Lit],
        refutation: Refutation,
    ) -> Result<(), OutOfMemory>
        ensures wanted { self.new.is_wanted ≡ self.old.is_wanted }
        ensures explain { OnOk result (IsTrue self.old.is_wanted → Explain db.now trail.now clause.now refutation self.new.hints) }
        ensures groups { self.new.groups ≡ self.old.groups }
    {
        if !self.is_wanted {
            return Ok(());
        }
        mark_clause(&mut self.given, clause)?;
        explain_into(
            db,
            trail,
            &self.given,
            &mut self.needed,
            &mut self.found,
            &mut self.order,
            refutation,
            &mut self.hints,
        )
    }

    /// The group of a candidate, by how propagation from both came to a conflict. A tautology is no clause of the LRAT proof, and a
    /// candidate that is blocked needs no hints.
    pub fn add_candidate(
        &mut self,
        db: &Database,
        trail: &FalseList,
        clause: &[Lit],
        pivot: Lit,
        number: u32,
        other: &[Lit],
        refutation: Refutation,
    ) -> Result<(), OutOfMemory>
        requires stands { place_at db.now number ≡ Some other.now }
        requires holds { IsTrue (holds_negated pivot other.now) }
        ensures wanted { self.new.is_wanted ≡ self.old.is_wanted }
        ensures hints { self.new.hints ≡ self.old.hints }
        ensures fits { OnOk result (IsTrue self.old.is_wanted → is_tautology clause.now ≡ false
            → AreReasons db.now (clause.now ++ others_of pivot other.now) trail.now → AreByUnits db.now db.now trail.now
            → Refutes db.now trail.now (clause.now ++ others_of pivot other.now) refutation
            → FitOneMore db.now clause.now pivot number self.old.groups self.new.groups) }
    {
        if !self.is_wanted {
            return Ok(());
        }
        let is_blocked = clashes(pivot, clause, other);
        if is_blocked {
            return self.add_bare(number, other);
        }
        let tautology = is_tautology(&mut self.needed, other)?;
        if tautology {
            return Ok(());
        }
        let hints = self.group_hints(db, trail, clause, pivot, other, refutation)?;
        let id = id_of(number);
        self.groups.push(Group { id, hints })?;
        Ok(())
    }

    // The group of a blocked candidate.
    fn add_bare(&mut self, number: u32, other: &[Lit]) -> Result<(), OutOfMemory>
        ensures wanted { self.new.is_wanted ≡ self.old.is_wanted }
        ensures hints { self.new.hints ≡ self.old.hints }
        ensures fits { OnOk result ((places : Places) (clause : List ℤ) (pivot : ℤ) → place_at places number ≡ Some other.now
            → holds_negated pivot other.now ≡ true → is_blocked_by (literals_of clause) pivot other.now ≡ true
            → FitOneMore places clause pivot number self.old.groups self.new.groups) }
    {
        let tautology = is_tautology(&mut self.needed, other)?;
        if tautology {
            return Ok(());
        }
        let id = id_of(number);
        let hints = IdList::new(self.alloc);
        self.groups.push(Group { id, hints })?;
        Ok(())
    }

    // The hints of a group: they refute the clause together with the candidate's other literals.
    fn group_hints(
        &mut self,
        db: &Database,
        trail: &FalseList,
        clause: &[Lit],
        pivot: Lit,
        other: &[Lit],
        refutation: Refutation,
    ) -> Result<IdList, OutOfMemory>
        ensures wanted { self.new.is_wanted ≡ self.old.is_wanted }
        ensures hints { self.new.hints ≡ self.old.hints }
        ensures groups { self.new.groups ≡ self.old.groups }
        ensures explain { IfOk result (λ hints. Explain db.now trail.now (clause.now ++ others_of pivot other.now) refutation hints) }
    {
        let mut hints = IdList::new(self.alloc);
        mark_both(&mut self.given, clause, pivot, other)?;
        explain_into(
            db,
            trail,
            &self.given,
            &mut self.needed,
            &mut self.found,
            &mut self.order,
            refutation,
            &mut hints,
        )?;
        Ok(hints)
    }
}

// The literals, as they stand. Their type gives their range.
fn copied(alloc: Global, clause: &[Lit]) -> Result<LitList, OutOfMemory>
    ensures copy { IfOk result (λ lits. lits ≡ clause.now) }
    ensures range { OnOk result (IsTrue (list_all (is_literal_of max_literal) clause.now)) }
{
    let mut lits = LitList::new(alloc);
    for literal in clause {
        let _var = literal.var();
        lits.push(*literal)?;
    }
    Ok(lits)
}

// The hints by how propagation came to a conflict, in the place of those that are there.
fn explain_into(
    db: &Database,
    trail: &FalseList,
    given: &Marks,
    needed: &mut Marks,
    found: &mut IdList,
    order: &mut Order,
    refutation: Refutation,
    hints: &mut IdList,
) -> Result<(), OutOfMemory>
    ensures { OnOk result ((assumed : List ℤ) → HasSame given.now assumed → Explain db.now trail.now assumed refutation hints.new) }
{
    hints.clear();
    match conflict_of(trail, given, refutation) {
        None => Ok(()),
        Some(first) => {
            explain(db, trail, given, needed, found, order, first)?;
            push_turned(found.as_slice(), hints)?;
            Ok(())
        }
    }
}
