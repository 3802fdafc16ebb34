// How many clause numbers a plan may need, told from a trial that came to a limit.
ghost use Rattle.std.specs.Prelude.{◌≡◌, ◌≤◌};

use term_runner::Trial;

/// The numbers that the trial had, and for the moves left as many a move as in its second half, in which half of the numbers
/// were used. The greatest number where that half did no move: the trial stands still. What is too large counts as the
/// greatest number too.
pub fn estimate(above: u64, moves: usize, trial: &Trial) -> u64
    requires { trial.now.moves_at_half ≤ trial.now.moves }
{
    let left = moves.saturating_sub(trial.moves) as u128;
    let done = (trial.moves - trial.moves_at_half) as u128;
    if done == 0 {
        return u64::MAX;
    }
    let more = left.saturating_mul(u128::from(above / 2)) / done;
    u64::try_from(more.saturating_add(u128::from(above))).unwrap_or(u64::MAX)
}
