//! Why a line has no value for an answer.
use crate::messages::InWords;
use exchange::{BookingError, IssueError};
use message::Message;
use refusal::Refusal;
use std::alloc::AllocError;
use thiserror::Error;

// The exchange's errors lie flat here: other calls refuse and run out of memory too, and each failure has one text.
#[derive(Clone, Copy, Debug, Error)]
pub(crate) enum Failure {
    /// A word is missing, or is not what the line needs there.
    #[error("malformed")]
    Malformed,
    /// A book refuses.
    #[error("refused {}", .0.number())]
    Refused(#[from] Refusal),
    /// There is no message to book.
    #[error("nothing")]
    NothingUnderWay,
    /// The oldest message does not fit.
    #[error("misfit {}", InWords(*.0))]
    Misfit(Message),
    /// No memory is left.
    #[error(transparent)]
    Memory(#[from(alloc)] AllocError),
}

impl From<IssueError> for Failure {
    fn from(error: IssueError) -> Failure {
        match error {
            IssueError::Refused(refusal) => Failure::Refused(refusal),
            IssueError::Memory => Failure::Memory(AllocError),
        }
    }
}

impl From<BookingError> for Failure {
    fn from(error: BookingError) -> Failure {
        match error {
            BookingError::NothingUnderWay => Failure::NothingUnderWay,
            BookingError::Misfit(message) => Failure::Misfit(message),
        }
    }
}
