// The judge of a proof's steps, with the numbers of the clauses that stand, and what is known of the roots.
ghost use Rattle.std.specs.Prelude.{◌≡◌, [], ◌∷◌, ◌++◌, ◌<◌, false, map, length, None, Some, set, IfOk, IfNone, IfSome, OnErr, OnSome};
ghost use Rattle.std.specs.Prelude.{OnOk, IsTrue};
ghost use Rattle.drat_rules.specs.Clauses.{equality_of};
ghost use Rattle.drat_rules.specs.Addition.{drat_fault};
ghost use Rattle.std.specs.Option.{option_copied};
ghost use Rattle.drat_checker.specs.Places.{IsFirst, IsNone, place_at, standing};
ghost use Rattle.drat_checker.specs.Hints.{is_tautology};
ghost use Rattle.drat_checker.specs.Lines.{IsGoodLine};

use crate::addition::{addition_fault, refutation_by};
use crate::blocked::is_blocked;
use crate::database::Database;
use crate::false_list::FalseList;
use crate::line::LineHints;
use crate::roots::{Roots, lowered, postponed, raised, settle};
use crate::watches::Watches;
use cnf_base::{Cnf, Lit, OutOfMemory};
use drat_rules::{Deletions, quiet_law};
use lrat_rules::Reason;
use std::alloc::Global;
use std::marker::Model;

/// Judges additions and deletions in turn, from a formula's clauses on, which have the numbers from 0 on; an addition gets the next one.
#[derive(Drop)]
pub struct NumberedJudge {
    db: Database,
    kept: Watches,
    trail: FalseList,
    roots: Roots,
}

impl Model for NumberedJudge {
    ghost use Rattle.drat_checker.specs.Places.{Places, places_code};
    ghost use Rattle.drat_checker.specs.Roots.{AreKept};

    ghost Value = { Places };

    ghost coded = { places_code };

    ghost view = { λ judge. judge.db };

    ghost invariant = { λ judge. AreKept judge.roots judge.db judge.kept judge.trail };
}

impl NumberedJudge {
    /// The formula's clauses stand.
    pub fn open(alloc: Global, formula: &Cnf) -> Result<NumberedJudge, OutOfMemory>
        ensures { IfOk result (λ judge. judge ≡ map Some formula.now.clauses) }
    {
        let db = Database::open(alloc, formula)?;
        Ok(NumberedJudge {
            db,
            kept: Watches::new(alloc),
            trail: FalseList::new(alloc),
            roots: Roots::Lost,
        })
    }

    /// Why the addition of a clause isn't good, or nothing: then it is taken, and what its line in an LRAT proof has behind the clause is
    /// found, where it is wanted. A bad addition and a refusal change nothing.
    pub fn add(
        &mut self,
        line: &mut LineHints,
        clause: &[Lit],
    ) -> Result<Option<Reason>, OutOfMemory>
        ensures fault { IfOk result (λ fault. fault ≡ drat_fault (standing self.old) clause.now) }
        ensures good { IfOk result (λ fault. IfNone fault (self.new ≡ self.old ++ Some clause.now ∷ [])) }
        ensures bad { IfOk result (λ fault. OnSome fault (self.new ≡ self.old)) }
        ensures err { OnErr result (self.new ≡ self.old) }
        ensures wanted { line.new.is_wanted ≡ line.old.is_wanted }
        ensures line { IfOk result (λ fault. fault ≡ None → IsTrue line.old.is_wanted → is_tautology clause.now ≡ false
            → IsGoodLine self.old clause.now line.new.hints line.new.groups) }
    {
        let fault = self.fault_of(line, clause)?;
        if let Some(reason) = fault {
            return Ok(Some(reason));
        }
        self.put(clause)?;
        Ok(None)
    }

    fn fault_of(
        &mut self,
        line: &mut LineHints,
        clause: &[Lit],
    ) -> Result<Option<Reason>, OutOfMemory>
        ensures fault { IfOk result (λ fault. fault ≡ drat_fault (standing self.old) clause.now) }
        ensures same { self.new ≡ self.old }
        ensures wanted { line.new.is_wanted ≡ line.old.is_wanted }
        ensures line { IfOk result (λ fault. fault ≡ None → IsTrue line.old.is_wanted → is_tautology clause.now ≡ false
            → IsGoodLine self.old clause.now line.new.hints line.new.groups) }
    {
        quiet_law();
        line.clear();
        if is_plainly_good(&self.db, line, clause) {
            return Ok(None);
        }
        let roots = self.roots;
        self.roots = Roots::Lost;
        let clash = settle(&self.db, &mut self.kept, &mut self.trail, roots)?;
        if let Some(number) = clash {
            let refutation = refutation_by(&self.trail, clause, number);
            line.note_refutation(&self.db, &self.trail, clause, refutation)?;
            self.roots = Roots::Clash(number);
            return Ok(None);
        }
        let fault = addition_fault(&self.db, &mut self.kept, &mut self.trail, line, clause)?;
        self.roots = Roots::Settled;
        Ok(fault)
    }

    fn put(&mut self, clause: &[Lit]) -> Result<(), OutOfMemory>
        ensures ok { OnOk result (self.new ≡ self.old ++ Some clause.now ∷ []) }
        ensures err { OnErr result (self.new ≡ self.old) }
    {
        let number = self.db.push(clause)?;
        self.roots = raised(
            &self.db,
            &mut self.kept,
            &mut self.trail,
            self.roots,
            number,
            clause,
        );
        Ok(())
    }

    /// How many numbers were given.
    pub fn count(&self) -> Result<u32, OutOfMemory>
        ensures { IfOk result (λ count. count ≡ length self.now) }
    {
        self.db.count()
    }

    /// The clause of a number, where it stands.
    pub fn clause(&self, number: u32) -> Option<&[Lit]>
        ensures { option_copied result ≡ place_at self.now number }
    {
        self.db.clause(number)
    }

    /// The number of the first clause that is told to be this one, where there is one.
    pub fn find(&self, deletions: Deletions, clause: &[Lit]) -> Option<u32>
        ensures found { IfSome result (λ number. IsFirst (equality_of deletions) clause.now self.now number) }
        ensures none { result ≡ None → IsNone (equality_of deletions) clause.now self.now }
    {
        self.db.find(deletions, clause)
    }

    /// A deletion takes out no clause, but this one is told to be it by its set of literals: nothing changes but that it is propagated last
    /// from now on, since the proof isn't meant to need it.
    pub fn postpone(&mut self, clause: &[Lit])
        ensures { self.new ≡ self.old }
    {
        match self.db.find(Deletions::BySet, clause) {
            None => {}
            Some(number) => self.roots = postponed(&mut self.kept, self.roots, number),
        }
    }

    /// Takes out the clause of a number.
    pub fn clear(&mut self, number: u32)
        requires { number < length self.old }
        ensures { self.new ≡ set self.old number None }
    {
        self.roots = lowered(&self.db, &self.trail, self.roots, number);
        self.db.clear(number);
    }
}

// Whether the addition of a clause is good without propagation. Hints come from propagation, so that none are to be wanted.
fn is_plainly_good(db: &Database, line: &LineHints, clause: &[Lit]) -> bool
    ensures good { IsTrue result → drat_fault (standing db.now) clause.now ≡ None }
    ensures unwanted { IsTrue result → line.now.is_wanted ≡ false }
{
    if line.is_wanted() {
        return false;
    }
    is_blocked(db, clause)
}
