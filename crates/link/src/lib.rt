//! The link of one end: the numbers of its messages, those that the other end has not acknowledged,
//! and the number that it expects. Knows the form of a frame, and nothing of carriers, of books and
//! of the other end.
#![tactic(auto)]

pub mod state;
pub mod table;
pub mod turned;
