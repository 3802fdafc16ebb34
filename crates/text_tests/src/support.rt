// What the tests share: rows and the texts in them; literals, numbers, orders and moves as text.
use cnf_base::{Cnf, Id, Lit};
use cube_text::Cubes;
use schedule_plan::{Order, Plan};
use std::alloc::{AllocError, Global};
use std::test::Fail;

/// What stands in front of a row's first semicolon and behind it.
pub fn cut(row: &str) -> Result<(&str, &str), Fail> {
    Ok(row.split_once(';').ok_or("no semicolon")?)
}

/// The text of a row, which writes `/` for a line feed.
pub fn text_of(alloc: Global, row: &str) -> Result<String, AllocError> {
    row.replace(alloc, '/', "\n")
}

/// Puts literals, each behind a space.
pub fn push_literals(out: &mut String, literals: &[Lit]) -> Result<(), AllocError> {
    for literal in literals {
        let number = literal.get();
        write!(out, " {number}")?;
    }
    Ok(())
}

/// Puts clause numbers, each behind a space.
pub fn push_ids(out: &mut String, ids: &[Id]) -> Result<(), AllocError> {
    for id in ids {
        let number = id.get();
        write!(out, " {number}")?;
    }
    Ok(())
}

/// Puts the clauses of a formula with their zeros.
pub fn push_clauses(out: &mut String, formula: &Cnf) -> Result<(), AllocError> {
    for place in 0..formula.len() {
        push_literals(out, formula.clause(place + 1))?;
        out.push_str(" 0")?;
    }
    Ok(())
}

/// Puts cubes with their zeros.
pub fn push_cubes(out: &mut String, cubes: &Cubes) -> Result<(), AllocError> {
    for place in 0..cubes.len() {
        push_literals(out, cubes.cube(place + 1))?;
        out.push_str(" 0")?;
    }
    Ok(())
}

/// Puts the variables of an order.
pub fn push_order(out: &mut String, order: &Order) -> Result<(), AllocError> {
    let variables = order.as_slice();
    write!(out, "{variables:?}")
}

/// Puts the moves in turn, each before a space.
pub fn push_moves(out: &mut String, plan: &Plan) -> Result<(), AllocError> {
    for place in 0..plan.len() {
        if let Some(step) = plan.get(place) {
            write!(out, "{step:?} ")?;
        }
    }
    Ok(())
}
