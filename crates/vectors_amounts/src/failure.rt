//! Why a case has no value for an answer.
use refusal::Refusal;
use std::alloc::AllocError;
use thiserror::Error;

#[derive(Clone, Copy, Debug, Error)]
pub(crate) enum Failure {
    /// A word is missing, or is not what the case needs there.
    #[error("malformed")]
    Malformed,
    /// The library refuses.
    #[error("refused {}", .0.number())]
    Refused(#[from] Refusal),
    /// No memory is left.
    #[error(transparent)]
    Memory(#[from(alloc)] AllocError),
}
