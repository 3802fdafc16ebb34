// The moves of the bucket plan, from the last to the first, by a work list of items: the moves of one conjoin all items
// of its bucket up to it.
ghost use Rattle.std.specs.Prelude.{◌≡◌, ◌<◌, ◌≤◌, ◌++◌, length, reverse, IfOk, OnOk};
ghost use Rattle.std.specs.List.{All};
ghost use Rattle.schedule_plan.specs.Bucket.{bucket};
ghost use Rattle.schedule_plan.specs.Forest.{IsLinked, IsItem, moves_of_item, moves_to, moves_to_all};

use crate::links::Links;
use crate::order::Order;
use crate::plan::Move;
use cnf_base::{Cnf, OutOfMemory};
use std::alloc::Global;

/// The moves of the bucket plan, given the items of each bucket.
pub(crate) fn bucket_moves(
    alloc: Global,
    formula: &Cnf,
    order: &Order,
    links: &Links,
) -> Result<Vec<Move>, OutOfMemory>
    requires order { length order.now ≡ formula.now.vars }
    requires links { IsLinked formula.now order.now links.now }
    ensures { IfOk result (λ moves. moves.items ≡ bucket formula.now order.now) }
{
    let mut moves = Vec::new(alloc);
    let mut work = Vec::new(alloc);
    if let Some(item) = links.last[order.as_slice().len()] {
        work.push(item)?;
    }
    'items: while let Some(item) = work.pop() {
        join_before(formula, order, links, item, &mut moves, &mut work)?;
        open_item(formula, order, links, item, &mut moves, &mut work)?;
    }
    moves.reverse();
    Ok(moves)
}

// Where there is an item before this one in its bucket, they are conjoined.
fn join_before(
    formula: &Cnf,
    order: &Order,
    links: &Links,
    item: u32,
    moves: &mut Vec<Move>,
    work: &mut Vec<u32>,
) -> Result<(), OutOfMemory>
    requires links { IsLinked formula.now order.now links.now }
    requires item { IsItem formula.now order.now item }
    requires items { All (IsItem formula.now order.now) work.old.items }
    ensures moves { OnOk result
        (moves_to_all formula.now order.now work.new.items ++ moves_of_item formula.now order.now item ++ reverse moves.new.items
        ≡ moves_to_all formula.now order.now work.old.items ++ moves_to formula.now order.now item ++ reverse moves.old.items) }
    ensures more { OnOk result (length moves.old.items ≤ length moves.new.items) }
    ensures items { OnOk result (All (IsItem formula.now order.now) work.new.items) }
{
    formula.formula_law();
    if let Some(before) = links.before[item as usize] {
        moves.push(Move::And)?;
        work.push(before)?;
    }
    Ok(())
}

// A clause is pushed; the result of a bucket is its conjoined items, without its variable.
fn open_item(
    formula: &Cnf,
    order: &Order,
    links: &Links,
    item: u32,
    moves: &mut Vec<Move>,
    work: &mut Vec<u32>,
) -> Result<(), OutOfMemory>
    requires links { IsLinked formula.now order.now links.now }
    requires item { IsItem formula.now order.now item }
    requires items { All (IsItem formula.now order.now) work.old.items }
    ensures moves { OnOk result
        (moves_to_all formula.now order.now work.new.items ++ reverse moves.new.items
        ≡ moves_to_all formula.now order.now work.old.items ++ moves_of_item formula.now order.now item ++ reverse moves.old.items) }
    ensures more { OnOk result (length moves.old.items < length moves.new.items) }
    ensures items { OnOk result (All (IsItem formula.now order.now) work.new.items) }
{
    formula.formula_law();
    let clauses = formula.len();
    let variables = order.as_slice();
    if (item as usize) < clauses {
        moves.push(Move::Push(item + 1))?;
    } else {
        let place = item as usize - clauses;
        moves.push(Move::Exists(variables[place]))?;
        if let Some(last) = links.last[place] {
            work.push(last)?;
        }
    }
    Ok(())
}
