// The names of variables, as they are given along the steps of a proof.
ghost use Rattle.std.specs.Prelude.{◌≡◌, ◌<◌, ◌≤◌, ◌+◌, ℕ, false, pos, neg_ℤ, nat_abs, nat_eq, if◌then◌else◌, IfOk, IfSome, OnOk};
ghost use Rattle.fresh_names.specs.Fresh.{all_entered, all_left, entered, first_names, left, named};
ghost use Rattle.fresh_names.specs.Renaming.{name_of, names_of, uses_of};

use cnf_base::{Lit, OutOfMemory};
use std::alloc::Global;
use std::collections::HashMap;

// No variable is greater.
const MAX_VAR: u32 = 2_147_483_647;

/// The name of each variable, how often the clauses that stand hold it, and the name that comes next.
#[derive(Drop)]
pub struct Renaming {
    vars: u32,
    // A name as the literal of its variable, of either sign.
    names: HashMap<u32, Lit>,
    uses: HashMap<u32, u32>,
    next: u32,
}

impl Renaming {
    /// Each variable has its own name.
    pub fn new(alloc: Global, vars: u32) -> Renaming
        requires { vars < 2147483647 }
        ensures names { names_of result ≡ first_names vars }
        ensures vars { result.vars ≡ vars }
    {
        Renaming {
            vars,
            names: HashMap::new(alloc),
            uses: HashMap::new(alloc),
            next: vars + 1,
        }
    }

    /// A literal by the name of its variable.
    pub fn literal(&self, literal: Lit) -> Lit
        ensures { result ≡ named (name_of self.now) literal }
    {
        match self.names.get(&literal.var()) {
            None => literal,
            Some(name) => with_sign(*name, literal.is_negative()),
        }
    }

    /// The literals of a clause come, in turn. Nothing is said of the names after a refusal.
    pub fn enter_all(&mut self, clause: &[Lit]) -> Result<(), OutOfMemory>
        ensures names { OnOk result (names_of self.new ≡ all_entered self.old.vars (names_of self.old) clause.now) }
        ensures vars { self.new.vars ≡ self.old.vars }
    {
        for literal in clause {
            self.enter(literal.var())?;
        }
        Ok(())
    }

    /// The literals of a clause go. Takes no memory.
    pub fn leave_all(&mut self, clause: &[Lit])
        ensures names { names_of self.new ≡ all_left (names_of self.old) clause.now }
        ensures vars { self.new.vars ≡ self.old.vars }
    {
        for literal in clause {
            self.leave(literal.var());
        }
    }

    // How often the clauses that stand hold a variable.
    fn uses(&self, var: u32) -> u32
        ensures { result ≡ uses_of self.now var }
    {
        match self.uses.get(&var) {
            None => 0,
            Some(uses) => *uses,
        }
    }

    // A literal of this variable comes.
    fn enter(&mut self, var: u32) -> Result<(), OutOfMemory>
        ensures names { OnOk result (names_of self.new ≡ entered self.old.vars (names_of self.old) var) }
        ensures vars { self.new.vars ≡ self.old.vars }
    {
        let uses = self.uses(var);
        if self.vars < var && uses == 0 {
            self.give(var)?;
        }
        self.set_uses(var, one_more(uses)?)
    }

    // A literal of this variable goes.
    fn leave(&mut self, var: u32)
        ensures names { names_of self.new ≡ left (names_of self.old) var }
        ensures vars { self.new.vars ≡ self.old.vars }
    {
        if let Some(uses) = self.uses.get_mut(&var) {
            *uses = uses.saturating_sub(1);
        }
    }

    // The variable has the next name.
    fn give(&mut self, var: u32) -> Result<(), OutOfMemory>
        ensures here { OnOk result (name_of self.new var ≡ self.old.next) }
        ensures there { OnOk result ((v : ℕ) → nat_eq v var ≡ false → name_of self.new v ≡ name_of self.old v) }
        ensures next { OnOk result (self.new.next ≡ self.old.next + 1) }
        ensures uses { (v : ℕ) → uses_of self.new v ≡ uses_of self.old v }
        ensures vars { self.new.vars ≡ self.old.vars }
    {
        let Some(name) = literal_of(self.next) else {
            return Err(OutOfMemory);
        };
        self.names.insert(var, name)?;
        self.next += 1;
        Ok(())
    }

    // The clauses that stand hold the variable so often.
    fn set_uses(&mut self, var: u32, uses: u32) -> Result<(), OutOfMemory>
        ensures here { OnOk result (uses_of self.new var ≡ uses) }
        ensures there { OnOk result ((v : ℕ) → nat_eq v var ≡ false → uses_of self.new v ≡ uses_of self.old v) }
        ensures names { (v : ℕ) → name_of self.new v ≡ name_of self.old v }
        ensures next { self.new.next ≡ self.old.next }
        ensures vars { self.new.vars ≡ self.old.vars }
    {
        self.uses.insert(var, uses)?;
        Ok(())
    }
}

fn one_more(uses: u32) -> Result<u32, OutOfMemory>
    ensures { IfOk result (λ more. more ≡ uses + 1) }
{
    if uses == u32::MAX {
        return Err(OutOfMemory);
    }
    Ok(uses + 1)
}

// The literal of a variable, where there is one.
fn literal_of(var: u32) -> Option<Lit>
    ensures { IfSome result (λ literal. (literal ≡ pos var) × (var ≤ 2147483647)) }
{
    if MAX_VAR < var {
        return None;
    }
    Lit::new(var as i32)
}

// The literal of the same variable, negative where this is said.
fn with_sign(literal: Lit, negative: bool) -> Lit
    ensures { result ≡ if negative then neg_ℤ (pos (nat_abs literal)) else pos (nat_abs literal) }
{
    if literal.is_negative() == negative {
        literal
    } else {
        literal.negated()
    }
}
