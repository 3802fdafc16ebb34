// What is done with a formula that is to be decided.
use crate::answer::Shape;
use schedule_plan::Limits;

/// The name of the proof's file, how far deciding may go, how large the board is, where the formula is one, whether parity equations are
/// added up first, and whether progress is told.
#[derive(Drop)]
pub struct Job<'a> {
    pub proof: &'a str,
    pub limits: Limits,
    pub shape: Option<Shape>,
    pub parity: bool,
    pub progress: bool,
}
