//! Frames: a body and a trailer that says what the frame is. Reads a frame that someone lends and
//! writes one into a lent buffer. Knows nothing of carriers, ends and books.
#![tactic(auto)]

use message::Message;

pub mod layout;
pub mod read;
pub mod sample;
pub mod write;

pub use read::{read_frame, read_packet};
pub use sample::agree_to_seven;
pub use write::{write_acknowledgement, write_data};

/// What a frame says; its body is a part of the lent frame.
#[derive(Clone, Copy, PartialEq, Eq, Debug)]
pub enum Frame<'a> {
    Data {
        number: u64,
        acknowledgement: u64,
        body: &'a [u8],
    },
    Acknowledgement {
        acknowledgement: u64,
    },
}

/// What a frame says, with its message read.
// Beside `Frame`, which borrows its body and has not read it: the answers of two calls, with laws of their own.
#[derive(Clone, Copy, PartialEq, Eq, Debug)]
pub enum Packet {
    Data {
        number: u64,
        acknowledgement: u64,
        message: Message,
    },
    Acknowledgement {
        acknowledgement: u64,
    },
}
