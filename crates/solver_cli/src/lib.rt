//! The program as a library. `run` does all that it does, over any host: it reads the command line, decides a formula and writes the proof,
//! or judges a proof, and prints the answer, and may write that proof in the other format, or trimmed; or it answers cubes over a formula,
//! by one proof; or it makes a workload's texts, or an order of a formula's variables. Its contract, `Promises` of `specs/Headline.antt`,
//! is what the program is worth; `run_with` is that over the command line as it comes, `run_system` over the system itself, and `start`
//! makes that one call for `main`. It stands on `command_line`, `term_runner`, `parity_runs`, `plan_search`, `variable_order`,
//! `lrat_checker`, `drat_checker`, `drat_proof`, `lrat_from_drat`, `proof_trim`, `cube_queries`, `cube_text`, `dimacs_reader` and
//! `answer_text`.
#![tactic(auto)]

mod answer;
mod arrangement;
mod asking;
mod basis;
mod comment;
mod complaint;
mod conversion;
mod counts;
mod cubes;
mod excerpt;
mod explaining;
mod explanation;
mod failures;
mod file_names;
mod formula;
mod job;
mod judgement;
mod kinds;
mod laws;
mod made;
mod misused;
mod notes;
mod numbers;
mod order;
mod output;
mod plan;
mod program;
mod proof;
mod replies;
mod reporting_search;
mod reporting_sink;
mod service;
mod status;
mod system;
mod telling;
mod trimming;
mod verdict;
mod watched_host;

pub use answer::Shape;
pub use command_line::{
    AskTask, Asked, BenchTask, BoardText, CheckTask, Conversion, ConvertTask, FileNames, MakeTask,
    OrderMethod, OrderTask, PlanName, PlanSource, ProofFormat, Refusal, SolveTask, TrimTask,
    gather, read_words,
};
pub use complaint::complain;
pub use laws::{drat_then_check_law, lrat_then_check_law, order_line_law, solve_then_check_law};
pub use program::{run, run_in_memory, run_with};
pub use status::{Status, Why};
pub use system::{run_system, start};
