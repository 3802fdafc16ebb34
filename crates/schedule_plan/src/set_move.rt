// Sets of variables that one move quantifies from the top term.
ghost use Rattle.schedule_plan.specs.SetMove.{SetMoves};

/// For the prover alone: a set of variables may be quantified in one move exactly where none of the tests of such a move finds a
/// fault, whatever the order of the variables and however often one is repeated. So a plan is admissible in one order of its sets
/// where it is in another.
pub fn set_move_law()
    ensures { SetMoves }
{}
