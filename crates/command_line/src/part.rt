// The texts that a board has, by their names.
ghost use Rattle.std.specs.Prelude.{◌≡◌};
ghost use Rattle.command_line.specs.Command.{part_named};

/// A text of a board.
#[derive(Clone, Copy)]
pub enum BoardText {
    /// The formula, in DIMACS CNF.
    Cnf,
    /// The column order of its variables.
    Order,
    /// The column schedule.
    Schedule,
    /// The column schedule that quantifies the variables of a column as one set.
    Sets,
}

pub fn part_named(name: &str) -> Option<BoardText>
    ensures { result ≡ part_named name.now }
{
    if name == "cnf" {
        Some(BoardText::Cnf)
    } else if name == "order" {
        Some(BoardText::Order)
    } else if name == "schedule" {
        Some(BoardText::Schedule)
    } else if name == "sets" {
        Some(BoardText::Sets)
    } else {
        None
    }
}
