// The order and the moves of the board, column by column, by walks of their own that take no list of commands. A test decides a board
// by its texts too, and compares the proofs.
ghost use Rattle.std.specs.Prelude.{◌≡◌, ◌+◌, ◌≤◌, ◌<◌, [], ◌∷◌, ◌++◌, map, replicate, ◌-◌, IfOk, OnOk, IsTrue};
ghost use Rattle.std.specs.List.{flat_map};
ghost use Rattle.cnf_base.specs.Limits.{max_clauses};
ghost use Rattle.workload.specs.Board.{number, first_square, dominoes_of, column_dominoes, column_order, most_columns};
ghost use Rattle.workload.specs.Schedule.{following, column_clauses, ending, column_commands, moves_of, board_moves};
ghost use Rattle.workload.specs.Cursor.{StandsAt};

use crate::cursor::{Cursor, first_cursor, terms_in_column};
use crate::square::{Domino, Square, clause_count, is_domino, number, stays};
use cnf_base::OutOfMemory;
use schedule_plan::Move;
use std::alloc::Global;

/// The variables in the column order.
pub fn column_order(alloc: Global, n: u32) -> Result<Vec<u32>, OutOfMemory>
    requires most { n ≤ most_columns }
    ensures { IfOk result (λ order. order.items ≡ column_order n) }
{
    let mut order = Vec::new(alloc);
    for column in 1..n + 1 {
        push_column(&mut order, n, column)?;
    }
    Ok(order)
}

fn push_column(order: &mut Vec<u32>, n: u32, column: u32) -> Result<(), OutOfMemory>
    requires most { n ≤ most_columns }
    requires column { column ≤ most_columns }
    ensures { OnOk result (order.new.items ≡ order.old.items ++ map (number n) (column_dominoes n column)) }
{
    for row in 1..n + 1 {
        if stays(n, row, column) {
            push_domino(order, n, Domino::Down(Square { row, column }))?;
            push_domino(order, n, Domino::Across(Square { row, column }))?;
        }
    }
    Ok(())
}

// Adds a domino's number, where it is one.
fn push_domino(order: &mut Vec<u32>, n: u32, domino: Domino) -> Result<(), OutOfMemory>
    requires most { n ≤ most_columns }
    requires near { ((first_square domino).row ≤ most_columns) × ((first_square domino).column ≤ most_columns) }
    ensures { OnOk result (order.new.items ≡ order.old.items ++ map (number n) (dominoes_of n (domino ∷ []))) }
{
    if is_domino(n, domino) {
        order.push(number(n, domino))?;
    }
    Ok(())
}

/// The moves of the column schedule.
pub fn board_moves(alloc: Global, n: u32) -> Result<Vec<Move>, OutOfMemory>
    requires most { n ≤ most_columns }
    ensures { IfOk result (λ moves. moves.items ≡ board_moves n) }
{
    let mut moves = Vec::new(alloc);
    let mut cursor = first_cursor(n);
    for column in 1..n + 1 {
        push_clauses(&mut moves, n, column, &mut cursor)?;
        push_ands(&mut moves, terms_in_column(n, column))?;
        push_ending(&mut moves, n, column)?;
    }
    Ok(moves)
}

// Pushes the clauses of a column.
fn push_clauses(
    moves: &mut Vec<Move>,
    n: u32,
    column: u32,
    cursor: &mut Cursor,
) -> Result<(), OutOfMemory>
    requires most { n ≤ most_columns }
    requires column { (0 < column) × (column ≤ most_columns) }
    requires cursor { StandsAt n column cursor.old }
    ensures moves { OnOk result (moves.new.items ≡ moves.old.items ++ map Move.Push (column_clauses n column)) }
    ensures cursor { OnOk result (StandsAt n (column + 1) cursor.new) }
{
    for row in 1..n + 1 {
        if stays(n, row, column) {
            let count = clause_count(n, row, column);
            push_following(moves, cursor[row as usize], count)?;
            cursor[row as usize] += count;
        }
    }
    Ok(())
}

// Pushes so many clauses that follow a number.
fn push_following(moves: &mut Vec<Move>, start: u32, count: u32) -> Result<(), OutOfMemory>
    requires { start + count ≤ max_clauses }
    ensures { OnOk result (moves.new.items ≡ moves.old.items ++ map Move.Push (following start count)) }
{
    for clause in start..start + count {
        moves.push(Move::Push(clause + 1))?;
    }
    Ok(())
}

// Conjoins so many terms.
fn push_ands(moves: &mut Vec<Move>, terms: u32) -> Result<(), OutOfMemory>
    ensures { OnOk result (moves.new.items ≡ moves.old.items ++ replicate (terms - 1) Move.And) }
{
    for _term in 0..terms.saturating_sub(1) {
        moves.push(Move::And)?;
    }
    Ok(())
}

// Quantifies the dominoes that end in a column.
fn push_ending(moves: &mut Vec<Move>, n: u32, column: u32) -> Result<(), OutOfMemory>
    requires most { n ≤ most_columns }
    requires column { (0 < column) × (column ≤ most_columns) }
    ensures { OnOk result (moves.new.items ≡ moves.old.items ++ map Move.Exists (ending n column)) }
{
    for row in 1..n + 1 {
        let left = Square {
            row,
            column: column - 1,
        };
        push_exists(moves, n, Domino::Across(left))?;
    }
    for row in 1..n + 1 {
        push_exists(moves, n, Domino::Down(Square { row, column }))?;
    }
    Ok(())
}

// Quantifies a domino's variable, where it is one.
fn push_exists(moves: &mut Vec<Move>, n: u32, domino: Domino) -> Result<(), OutOfMemory>
    requires most { n ≤ most_columns }
    requires near { ((first_square domino).row ≤ most_columns) × ((first_square domino).column ≤ most_columns) }
    ensures { OnOk result (moves.new.items ≡ moves.old.items ++ map Move.Exists (map (number n) (dominoes_of n (domino ∷ [])))) }
{
    if is_domino(n, domino) {
        moves.push(Move::Exists(number(n, domino)))?;
    }
    Ok(())
}
