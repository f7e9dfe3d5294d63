//! A carrier whose faults stand in a script: each entry names a call by its count, a fault and the
//! position that it strikes. The same script and the same calls give the same frames every time.
#![tactic(auto)]

pub mod fault;
mod line;
pub mod script;
pub mod scripted;

pub use fault::{Fault, UnknownFault};
pub use script::Entry;
pub use scripted::Scripted;
