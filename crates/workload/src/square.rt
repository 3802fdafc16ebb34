// Squares and dominoes, and the numbers of the variables.
ghost use Rattle.std.specs.Prelude.{◌≡◌, ◌+◌, ◌≤◌, ◌<◌, [], ◌∷◌, ◌++◌, map, length, IsTrue};
ghost use Rattle.arrayvec.specs.ArrayVec.{array_vec_len};
ghost use Rattle.std.specs.List.{flat_map};
ghost use Rattle.cnf_base.specs.Limits.{max_vars};
ghost use Rattle.workload.specs.Board.{square, stays, is_domino, first_square, number, numbers, dominoes_of, dominoes_at, square_clauses};
ghost use Rattle.workload.specs.Board.{dominoes, most_columns};
ghost use Rattle.workload.specs.Schedule.{squares_before};

use arrayvec::ArrayVec;

/// A square of the board: its row and its column, from 1.
#[derive(Clone, Copy)]
pub struct Square {
    pub row: u32,
    pub column: u32,
}

/// A domino: across a square and the one on its right, or down a square and the one below.
#[derive(Clone, Copy)]
pub enum Domino {
    Across(Square),
    Down(Square),
}

/// Whether a square is on the board of this size, and isn't left out.
pub fn stays(n: u32, row: u32, column: u32) -> bool
    ensures { result ≡ stays n (square row column) }
{
    let is_on_board = 1 <= row && row <= n && 1 <= column && column <= n;
    let is_left_out = row == 1 && column == 1 || row == n && column == n;
    is_on_board && !is_left_out
}

/// Whether both squares of a domino stay.
pub fn is_domino(n: u32, domino: Domino) -> bool
    requires near { ((first_square domino).row ≤ most_columns) × ((first_square domino).column ≤ most_columns) }
    ensures { result ≡ is_domino n domino }
{
    match domino {
        Domino::Across(square) => {
            stays(n, square.row, square.column) && stays(n, square.row, square.column + 1)
        }
        Domino::Down(square) => {
            stays(n, square.row, square.column) && stays(n, square.row + 1, square.column)
        }
    }
}

/// The number of the variables.
pub fn variable_count(n: u32) -> u32
    requires least { 2 ≤ n }
    requires most { n ≤ most_columns }
    ensures value { result ≡ length (dominoes n) }
    ensures range { result ≤ max_vars }
{
    2 * n * (n - 1) - 4
}

/// A domino's number. Each row has n - 1 dominoes across and n down, the last one none down; two are missing at the first
/// square, one before the last row.
pub fn number(n: u32, domino: Domino) -> u32
    requires most { n ≤ most_columns }
    requires there { IsTrue (is_domino n domino) }
    ensures value { result ≡ number n domino }
    ensures range { (0 < result) × (result ≤ 20000) }
{
    match domino {
        Domino::Across(square) => dominoes_before(n, square.row, square.column) + 1,
        Domino::Down(square) => number_down(n, square),
    }
}

fn number_down(n: u32, square: Square) -> u32
    requires most { n ≤ most_columns }
    requires there { IsTrue (is_domino n (Domino.Down square)) }
    ensures value { result ≡ number n (Domino.Down square) }
    ensures range { (0 < result) × (result ≤ 20000) }
{
    let before = dominoes_before(n, square.row, square.column);
    if square.column < n {
        before + 2
    } else {
        before + 1
    }
}

// The number of dominoes at the squares before a square.
fn dominoes_before(n: u32, row: u32, column: u32) -> u32
    requires most { n ≤ most_columns }
    requires there { IsTrue (stays n (square row column)) }
    ensures value { result ≡ length (flat_map (dominoes_at n) (squares_before n (square row column))) }
    ensures range { result ≤ 19998 }
{
    let rows = (row - 1) * (2 * n - 1);
    if row < n {
        rows + 2 * (column - 1) - 2
    } else {
        rows + (column - 1) - 3
    }
}

/// The numbers of the dominoes that cover a square, by rising number.
pub fn covering(n: u32, row: u32, column: u32) -> ArrayVec<u32, 4>
    requires most { n ≤ most_columns }
    requires there { IsTrue (stays n (square row column)) }
    ensures { result.items ≡ numbers n (square row column) }
{
    let mut numbers = ArrayVec::new();
    let square = Square { row, column };
    let above = Square {
        row: row - 1,
        column,
    };
    let left = Square {
        row,
        column: column - 1,
    };
    push_number(&mut numbers, n, Domino::Down(above));
    push_number(&mut numbers, n, Domino::Across(left));
    push_number(&mut numbers, n, Domino::Across(square));
    push_number(&mut numbers, n, Domino::Down(square));
    numbers
}

// Adds a domino's number, where it is one.
fn push_number(numbers: &mut ArrayVec<u32, 4>, n: u32, domino: Domino)
    requires most { n ≤ most_columns }
    requires near { ((first_square domino).row ≤ most_columns) × ((first_square domino).column ≤ most_columns) }
    requires room { array_vec_len numbers.old < 4 }
    ensures items { numbers.new.items ≡ numbers.old.items ++ map (number n) (dominoes_of n (domino ∷ [])) }
    ensures len { array_vec_len numbers.new ≤ array_vec_len numbers.old + 1 }
{
    if is_domino(n, domino) {
        numbers.push(number(n, domino));
    }
}

/// How many clauses a square has: one, and one for each two dominoes that cover it.
pub fn clause_count(n: u32, row: u32, column: u32) -> u32
    requires most { n ≤ most_columns }
    requires there { IsTrue (stays n (square row column)) }
    ensures value { result ≡ length (square_clauses n (square row column)) }
    ensures range { result ≤ 7 }
{
    let dominoes = covering(n, row, column).len() as u32;
    1 + dominoes * dominoes.saturating_sub(1) / 2
}
