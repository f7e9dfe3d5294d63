//! The book of the secured end: the day in hand, the row last notified, the lots it holds and what was
//! delivered and freed. Knows nothing of message numbers, bytes or carriers.
#![tactic(auto)]

pub mod book;
pub mod booking;
pub mod calls;
pub mod opens;
pub mod state;
pub mod views;
pub mod weighs;

pub use book::SecuredBook;
pub use calls::telling;
pub use state::{Finding, SecuredState};
