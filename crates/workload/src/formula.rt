// The formula of the board: exactly one domino covers each square that stays.
ghost use Rattle.std.specs.Prelude.{◌≡◌, ℕ, ◌+◌, ◌*◌, ◌≤◌, ◌<◌, [], ◌∷◌, ◌++◌, map, pos, length, IfOk, OnOk, IsTrue, nat_abs};
ghost use Rattle.std.specs.List.{flat_map, All};
ghost use Rattle.cnf_base.specs.Limits.{max_clauses, max_vars};
ghost use Rattle.workload.specs.Board.{square, stays, square_clauses, row_squares, board_formula, dominoes, one_of, not_both, no_two_of};
ghost use Rattle.workload.specs.Board.{most_columns};

use crate::square::{covering, stays, variable_count};
use cnf_base::{Cnf, CnfBuilder, Lit, OutOfMemory};
use std::alloc::Global;

/// The formula of the board of this size.
pub fn formula(alloc: Global, n: u32) -> Result<Cnf, OutOfMemory>
    requires least { 2 ≤ n }
    requires most { n ≤ most_columns }
    ensures { IfOk result (λ formula. formula ≡ board_formula n) }
{
    let mut builder = CnfBuilder::new(alloc, variable_count(n));
    for row in 1..n + 1 {
        push_row(&mut builder, n, row)?;
    }
    Ok(builder.finish())
}

// Adds the clauses of a row.
fn push_row(builder: &mut CnfBuilder, n: u32, row: u32) -> Result<(), OutOfMemory>
    requires most { n ≤ most_columns }
    requires begun { builder.old.begun ≡ [] }
    requires vars { builder.old.vars ≡ length (dominoes n) }
    requires few_vars { builder.old.vars ≤ max_vars }
    requires few { length builder.old.clauses + 1000 ≤ max_clauses }
    ensures ok { OnOk result (builder.new ≡ record builder.old {
      clauses = builder.old.clauses
          ++ flat_map (square_clauses n) (row_squares n row);
    }) }
    ensures few { OnOk result (length builder.new.clauses ≤ length builder.old.clauses + 700) }
{
    for column in 1..n + 1 {
        if stays(n, row, column) {
            push_square(builder, n, row, column)?;
        }
    }
    Ok(())
}

// Adds the clauses of a square.
fn push_square(builder: &mut CnfBuilder, n: u32, row: u32, column: u32) -> Result<(), OutOfMemory>
    requires most { n ≤ most_columns }
    requires there { IsTrue (stays n (square row column)) }
    requires begun { builder.old.begun ≡ [] }
    requires vars { builder.old.vars ≡ length (dominoes n) }
    requires few_vars { builder.old.vars ≤ max_vars }
    requires few { length builder.old.clauses + 20 ≤ max_clauses }
    ensures ok { OnOk result (builder.new ≡ record builder.old { clauses = builder.old.clauses ++ square_clauses n (square row column) }) }
    ensures few { OnOk result (length builder.new.clauses ≤ length builder.old.clauses + 7) }
{
    let numbers = covering(n, row, column);
    push_one_of(builder, numbers.as_slice())?;
    push_no_two_of(builder, numbers.as_slice())
}

// Adds the clause that one of these variables is true.
fn push_one_of(builder: &mut CnfBuilder, variables: &[u32]) -> Result<(), OutOfMemory>
    requires begun { builder.old.begun ≡ [] }
    requires variables { All (λ x. (0 < x) × (x ≤ builder.old.vars)) variables.now }
    requires vars { builder.old.vars ≤ max_vars }
    requires few { length builder.old.clauses < max_clauses }
    ensures { OnOk result (builder.new ≡ record builder.old { clauses = builder.old.clauses ++ one_of variables.now ∷ [] }) }
{
    for variable in variables {
        builder.push_lit(positive(*variable))?;
    }
    builder.end_clause()
}

// Adds the clauses that no two of these variables are true.
fn push_no_two_of(builder: &mut CnfBuilder, variables: &[u32]) -> Result<(), OutOfMemory>
    requires begun { builder.old.begun ≡ [] }
    requires variables { All (λ x. (0 < x) × (x ≤ builder.old.vars)) variables.now }
    requires vars { builder.old.vars ≤ max_vars }
    requires few { length builder.old.clauses + 16 ≤ max_clauses }
    requires short { length variables.now ≤ 4 }
    ensures { OnOk result (builder.new ≡ record builder.old { clauses = builder.old.clauses ++ no_two_of variables.now }) }
{
    for (place, variable) in variables.iter().enumerate() {
        push_not_both(builder, *variable, &variables[place + 1..])?;
    }
    Ok(())
}

// Adds the clauses that a variable isn't true with any of the others.
fn push_not_both(builder: &mut CnfBuilder, variable: u32, others: &[u32]) -> Result<(), OutOfMemory>
    requires begun { builder.old.begun ≡ [] }
    requires variable { (0 < variable) × (variable ≤ builder.old.vars) }
    requires others { All (λ x. (0 < x) × (x ≤ builder.old.vars)) others.now }
    requires vars { builder.old.vars ≤ max_vars }
    requires few { length builder.old.clauses + 4 ≤ max_clauses }
    requires short { length others.now ≤ 4 }
    ensures { OnOk result (builder.new ≡ record builder.old { clauses = builder.old.clauses ++ map (not_both variable) others.now }) }
{
    for other in others {
        builder.push_lit(positive(variable).negated())?;
        builder.push_lit(positive(*other).negated())?;
        builder.end_clause()?;
    }
    Ok(())
}

fn positive(variable: u32) -> Lit
    requires { (0 < variable) × (variable ≤ max_vars) }
    ensures { result ≡ pos variable }
{
    Lit::new(variable as i32).unwrap()
}
