use std::alloc::AllocError;
use thiserror::Error;

// Why a row is not replayed.
#[derive(Debug, Drop, Error)]
pub enum Fault {
    #[error("malformed")]
    Malformed,
    // which question, the recorded answer and the one that was found
    #[error("{0}")]
    Differs(String),
    #[error("out of memory")]
    OutOfMemory(#[from(alloc)] AllocError),
}
