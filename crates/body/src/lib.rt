//! The body of a data frame: the first byte is the kind, the rest are the fields of that kind.
//! Reads and writes one message. Knows nothing of the trailer.
#![tactic(auto)]

pub mod read;
pub mod write;

pub use read::read_message;
pub use write::{body_len, put_body};
