// The numbers of the clauses, the board being walked column by column: for each row how many clauses stand before its
// next square.
ghost use Rattle.std.specs.Prelude.{◌≡◌, ◌+◌, ◌≤◌, length};
ghost use Rattle.std.specs.List.{flat_map};
ghost use Rattle.workload.specs.Board.{square_clauses, row_squares, most_columns};
ghost use Rattle.workload.specs.Schedule.{terms_in_column, clause_count};
ghost use Rattle.workload.specs.Cursor.{StandsAt};

use crate::square::{clause_count, stays};

/// By row, from 1: how many clauses stand before the row's next square.
pub type Cursor = [u32; 101];

/// The cursor before the first column.
pub fn first_cursor(n: u32) -> Cursor
    requires most { n ≤ most_columns }
    ensures { StandsAt n 1 result }
{
    let mut cursor = [0; 101];
    let mut count = 0;
    for row in 1..n + 1 {
        cursor[row as usize] = count;
        count += clauses_in_row(n, row);
    }
    cursor
}

fn clauses_in_row(n: u32, row: u32) -> u32
    requires most { n ≤ most_columns }
    ensures value { result ≡ clause_count n (row_squares n row) }
    ensures range { result ≤ 700 }
{
    let mut count = 0;
    for column in 1..n + 1 {
        if stays(n, row, column) {
            count += clause_count(n, row, column);
        }
    }
    count
}

/// How many terms a column conjoins: its clauses, and what came before.
pub fn terms_in_column(n: u32, column: u32) -> u32
    requires most { n ≤ most_columns }
    ensures value { result ≡ terms_in_column n column }
{
    let mut count = if column > 1 { 1 } else { 0 };
    for row in 1..n + 1 {
        if stays(n, row, column) {
            count += clause_count(n, row, column);
        }
    }
    count
}
