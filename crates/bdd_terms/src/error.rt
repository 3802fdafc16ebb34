// Why a run ended without an outcome.
use thiserror::Error;

/// Why a run came to no outcome.
#[derive(Clone, Copy, Debug, Error)]
pub enum RunError {
    #[error("out of memory")]
    OutOfMemory,
    /// The proof could not be written or flushed.
    #[error("a write of the proof failed")]
    WriteFault,
}
