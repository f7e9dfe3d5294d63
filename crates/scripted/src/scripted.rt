//! The scripted carrier: what it holds.
use crate::line::Line;
use crate::script::Entry;

pub mod calls;
pub mod opens;
pub mod views;

/// A carrier whose faults stand in a script. It has the memory for its frames in itself: no call
/// allocates.
#[derive(Drop)]
pub struct Scripted {
    waiting: Line,
    script: Vec<Entry>,
    count: u32,
}
