//! The check of a proof, whatever its format: a reader gives its steps in turn, a judge takes them, and the end decides. The loop says which
//! steps were taken and how it ended, and so the verdict, in terms of the format's rules. Stands on lrat_text, whose reader gives the steps.
#![tactic(auto)]

mod judging;
mod reading;
mod verdict;

pub use judging::{StepJudge, judge_steps};
pub use reading::read_step;
pub use verdict::{CheckError, Verdict};
