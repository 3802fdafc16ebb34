//! The command line. `read_words` gives the command that it asks for, or why it asks for none, as `Command.antt` defines it over the
//! functions of the parser `clap`. No file is touched here; the layer above acts on the command.
#![tactic(auto)]

mod argument;
mod ask;
mod board;
mod commands;
mod conversion;
mod explain;
mod format;
mod limits;
mod method;
mod misuse;
mod mode;
mod names;
mod order;
mod parser;
mod part;
mod plan;
mod rewrite;
mod subcommand;
mod words;

pub use ask::AskTask;
pub use board::{BenchTask, MakeTask};
pub use conversion::Conversion;
pub use explain::asks_to_explain;
pub use format::ProofFormat;
pub use method::OrderMethod;
pub use misuse::{Misuse, misuse_of};
pub use names::FileNames;
pub use order::OrderTask;
pub use part::BoardText;
pub use plan::{PlanName, PlanSource};
pub use rewrite::{ConvertTask, RewriteTask, TrimTask};
pub use words::{Asked, CheckTask, Refusal, SolveTask, gather, read_words};
