//! The agreed terms, the rows of a day and the standard schedule, each with the ranges of its numbers.
//! Knows nothing of lots, messages or ends.
#![tactic(auto)]

pub mod agreed;
pub mod exposure;
pub mod row;
pub mod schedule;
pub mod terms;

pub use agreed::Annex;
pub use exposure::Exposure;
pub use row::Row;
pub use terms::{CLASSES, Terms};
