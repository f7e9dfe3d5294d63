//! The book of the pledgor end: the day in hand and the pledgor's own lots, home, posted or asked back.
//! Knows nothing of message numbers, bytes or carriers.
#![tactic(auto)]

pub mod book;
pub mod booking;
pub mod calls;
pub mod opens;
pub mod state;
pub mod views;

pub use book::PledgorBook;
pub use state::PledgorState;
