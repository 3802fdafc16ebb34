// Copies of nodes, in a list: children stand before their parents, so that a copy is known by its place.
ghost use Rattle.std.specs.Prelude.{◌≡◌, ◌<◌, ◌≤◌, ◌+◌, ◌++◌, [], ◌∷◌, length, OnOk, OnErr, IfOk, if◌then◌else◌};
ghost use Rattle.cnf_base.specs.Truth.{assignment_of};
ghost use Rattle.reconstruction.specs.Cells.{AreOrdered, cell_value, most_cells};

use cnf_base::OutOfMemory;

// Keys stay below 2^32.
const MOST_CELLS: usize = 4_294_967_294;

/// A copy of an inner node: its variable, and the keys of its children where that is true and where it is false. Key 0 is False, 1 is
/// True, and i + 2 the cell at place i.
#[derive(Clone, Copy)]
pub struct Cell {
    pub variable: u32,
    pub high: u32,
    pub low: u32,
}

const _: () = prove!(size_of::<Cell>() == 12);

/// Appends a cell, and gives its key. A refusal changes nothing.
pub fn append(cells: &mut Vec<Cell>, cell: Cell) -> Result<u32, OutOfMemory>
    requires { length cells.old.items ≤ most_cells }
    ensures ok { IfOk result (λ key. (key ≡ length cells.old.items + 2) × (cells.new.items ≡ cells.old.items ++ cell ∷ [])) }
    ensures few { length cells.new.items ≤ most_cells }
    ensures err { OnErr result (cells.new.items ≡ cells.old.items) }
{
    if cells.len() >= MOST_CELLS {
        return Err(OutOfMemory);
    }
    let key = cells.len() as u32 + 2;
    cells.push(cell)?;
    Ok(key)
}

/// What the node of a key says under an assignment, the value of variable 1 first.
pub fn value(cells: &[Cell], key: u32, values: &[bool]) -> bool
    requires ordered { AreOrdered cells.now }
    requires within { key < length cells.now + 2 }
    ensures { result ≡ cell_value cells.now (assignment_of values.now) key }
{
    let mut key = key;
    'down: while key >= 2 {
        let cell = cells[key as usize - 2];
        key = chosen(&cell, values);
    }
    key == 1
}

/// The child that a cell's variable chooses.
pub fn chosen(cell: &Cell, values: &[bool]) -> u32
    requires { 0 < cell.now.variable }
    ensures { result ≡ (if assignment_of values.now cell.now.variable then cell.now.high else cell.now.low) }
{
    match values.get(cell.variable as usize - 1) {
        Some(true) => cell.high,
        Some(false) | None => cell.low,
    }
}
