// Orders made of what a heuristic gives: any sequence of vertices becomes an order, so that a heuristic owes no proof.
ghost use Rattle.std.specs.Prelude.{◌≡◌, ℕ, suc, ◌+◌, ◌<◌, ◌++◌, [], ◌∷◌, length, map, take, IfOk, OnOk, OnErr};
ghost use Rattle.cnf_base.specs.Order.{IsOrder};
ghost use Rattle.variable_order.specs.Completion.{Stands};

use cnf_base::OutOfMemory;
use schedule_plan::Order;
use std::alloc::Global;
use std::marker::Model;

/// The order of a sequence of vertices, numbered from 0: each variable where its vertex first stands, then those that are missing by rising
/// number.
pub(crate) fn completed(alloc: Global, vars: u32, sequence: &[u32]) -> Result<Order, OutOfMemory>
    ensures length { IfOk result (λ order. length order ≡ vars) }
    ensures kept { IsOrder (map suc sequence.now) → length sequence.now ≡ vars → IfOk result (λ order. order ≡ map suc sequence.now) }
{
    let mut kept = Kept::new(alloc, vars)?;
    kept.keep_all(sequence)?;
    kept.keep_missing()?;
    Ok(kept.finish())
}

// The variables kept so far, with a flag for each vertex whose variable is among them.
#[derive(Drop)]
struct Kept {
    vars: u32,
    variables: Vec<u32>,
    flags: Vec<bool>,
}

impl Model for Kept {
    ghost use Rattle.variable_order.specs.Completion.{Kept as KeptVariables, AreKept};

    ghost Value = { KeptVariables };

    ghost view = { λ k. record { vars = k.vars; variables = k.variables.items } };

    ghost invariant = { λ k. AreKept k.vars k.variables.items k.flags.items };
}

impl Kept {
    fn new(alloc: Global, vars: u32) -> Result<Kept, OutOfMemory>
        ensures { IfOk result (λ kept. kept ≡ record { vars = vars; variables = [] }) }
    {
        Ok(Kept {
            vars,
            variables: Vec::with_capacity(alloc, vars as usize)?,
            flags: vec![in alloc; false; vars as usize]?,
        })
    }

    // Keeps a vertex's variable, unless there is no such vertex or it was kept before.
    fn keep(&mut self, vertex: u32) -> Result<(), OutOfMemory>
        ensures vars { self.new.vars ≡ self.old.vars }
        ensures stands { OnOk result (vertex < self.old.vars → Stands (suc vertex) self.new.variables) }
        ensures before { (variable : ℕ) → Stands variable self.old.variables → Stands variable self.new.variables }
        ensures next { OnOk result (vertex < self.old.vars → (Stands (suc vertex) self.old.variables → ⊥) → self.new.variables
            ≡ self.old.variables ++ suc vertex ∷ []) }
        ensures full { length self.old.variables ≡ self.old.vars → self.new.variables ≡ self.old.variables }
    {
        if vertex >= self.vars || self.flags[vertex as usize] {
            return Ok(());
        }
        self.variables.push(vertex + 1)?;
        self.flags[vertex as usize] = true;
        Ok(())
    }

    // Keeps the variable of each of these vertices in turn.
    fn keep_all(&mut self, sequence: &[u32]) -> Result<(), OutOfMemory>
        requires { self.old.variables ≡ [] }
        ensures vars { self.new.vars ≡ self.old.vars }
        ensures order { OnOk result (IsOrder (map suc sequence.now) → length sequence.now ≡ self.old.vars → self.new.variables
            ≡ map suc sequence.now) }
    {
        for vertex in sequence {
            self.keep(*vertex)?;
        }
        Ok(())
    }

    // Keeps all variables that weren't kept yet, by rising number.
    fn keep_missing(&mut self) -> Result<(), OutOfMemory>
        ensures vars { self.new.vars ≡ self.old.vars }
        ensures all { OnOk result ((vertex : ℕ) → vertex < self.old.vars → Stands (suc vertex) self.new.variables) }
        ensures full { length self.old.variables ≡ self.old.vars → self.new.variables ≡ self.old.variables }
    {
        for vertex in 0..self.vars {
            self.keep(vertex)?;
        }
        Ok(())
    }

    // The order of the variables, which were all kept.
    fn finish(self) -> Order
        requires { (vertex : ℕ) → vertex < self.vars → Stands (suc vertex) self.variables }
        ensures order { result ≡ self.variables }
        ensures length { length result ≡ self.vars }
    {
        let Kept {
            vars: _,
            variables,
            flags: _,
        } = self;
        Order::of_variables(variables)
    }
}
