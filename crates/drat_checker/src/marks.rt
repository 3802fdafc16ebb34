// Literals that are marked, each once, with a flag for each: one is tested in one step, and clearing is work for these alone.
ghost use Rattle.std.specs.Prelude.{◌≡◌, ◌++◌, ◌||◌, [], ℤ, true, OnOk, OnErr, IfOk};
ghost use Rattle.lrat_rules.specs.Chain.{literals_of};
ghost use Rattle.lrat_rules.specs.Trail.{with_last};
ghost use Rattle.drat_rules.specs.Addition.{others_of};
ghost use Rattle.drat_checker.specs.Hints.{HasSame, is_tautology};

use crate::false_list::clear_all;
use crate::flags::Flags;
use cnf_base::{Lit, OutOfMemory};
use std::alloc::Global;
use std::marker::Model;

/// A set of literals.
#[derive(Drop)]
pub struct Marks {
    literals: Vec<Lit>,
    flags: Flags,
}

impl Model for Marks {
    ghost use Rattle.std.specs.Prelude.{List, ℤ};
    ghost use Rattle.drat_checker.specs.Hints.{AreMarks};

    ghost Value = { List ℤ };

    ghost view = { λ marks. marks.literals.items };

    ghost invariant = { λ marks. AreMarks marks.flags marks.literals.items };
}

impl Marks {
    pub fn new(alloc: Global) -> Marks
        ensures { result ≡ [] }
    {
        Marks {
            literals: Vec::new(alloc),
            flags: Flags::new(alloc),
        }
    }

    #[inline(always)]
    pub fn contains(&self, literal: Lit) -> bool
        ensures { result ≡ literals_of self.now literal }
    {
        self.flags.is_set(literal)
    }

    pub fn as_slice(&self) -> &[Lit]
        ensures { result.now ≡ self.now }
    {
        self.literals.as_slice()
    }

    /// A refusal changes nothing.
    pub fn mark(&mut self, literal: Lit) -> Result<(), OutOfMemory>
        ensures ok { OnOk result (self.new ≡ with_last literal self.old) }
        ensures err { OnErr result (self.new ≡ self.old) }
    {
        if self.flags.is_set(literal) {
            return Ok(());
        }
        self.flags.reserve(literal)?;
        self.literals.push(literal)?;
        self.flags.set(literal);
        Ok(())
    }

    /// Marks the literals of a clause.
    pub fn mark_all(&mut self, clause: &[Lit]) -> Result<(), OutOfMemory>
        ensures kept { (x : ℤ) → literals_of self.old x ≡ true → literals_of self.new x ≡ true }
        ensures marked { OnOk result ((x : ℤ) → literals_of clause.now x ≡ true → literals_of self.new x ≡ true) }
        ensures sets { OnOk result ((x : ℤ) → literals_of self.new x ≡ (literals_of self.old x || literals_of clause.now x)) }
    {
        for literal in clause {
            self.mark(*literal)?;
        }
        Ok(())
    }

    /// No literal is marked.
    pub fn clear(&mut self)
        ensures { self.new ≡ [] }
    {
        clear_all(&mut self.flags, self.literals.as_slice());
        self.literals.clear();
    }
}

/// Whether a literal of the clause stands beside its negation.
pub fn is_tautology(marks: &mut Marks, clause: &[Lit]) -> Result<bool, OutOfMemory>
    ensures { IfOk result (λ found. found ≡ is_tautology clause.now) }
{
    marks.clear();
    for literal in clause {
        let _var = literal.var();
        let beside = marks.contains(literal.negated());
        if beside {
            return Ok(true);
        }
        marks.mark(*literal)?;
    }
    Ok(false)
}

/// The literals of a clause alone are marked.
pub fn mark_clause(marks: &mut Marks, clause: &[Lit]) -> Result<(), OutOfMemory>
    ensures { OnOk result (HasSame marks.new clause.now) }
{
    marks.clear();
    marks.mark_all(clause)
}

/// The same with those of a candidate, but for the pivot's negation.
pub fn mark_both(
    marks: &mut Marks,
    clause: &[Lit],
    pivot: Lit,
    other: &[Lit],
) -> Result<(), OutOfMemory>
    ensures { OnOk result (HasSame marks.new (clause.now ++ others_of pivot other.now)) }
{
    mark_clause(marks, clause)?;
    let negated = pivot.negated();
    for literal in other {
        if *literal == negated {
            continue;
        }
        marks.mark(*literal)?;
    }
    Ok(())
}
