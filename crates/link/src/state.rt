//! What a link holds, and what a number is to it.
use message::Message;

/// How many messages may be unacknowledged.
pub const WINDOW: usize = 8;

/// The numbers of a link and its unacknowledged messages, without a promise about them.
#[derive(Clone, Copy, Debug)]
pub struct LinkState {
    /// The lowest number that is not acknowledged.
    pub base: u64,
    /// The number that the other end's next message has.
    pub expected: u64,
    /// How many messages are unacknowledged.
    pub count: usize,
    /// The unacknowledged messages in the order of their numbers, then any.
    // An array, since `ArrayVec` fills its free places with a default, and a message has none.
    pub table: [Message; WINDOW],
}

/// What the number of a collected message is to an end.
#[derive(Clone, Copy, PartialEq, Eq, Debug)]
pub enum Standing {
    /// It is the next to book.
    Expected,
    /// It is booked already.
    Repeat,
    /// One before it is not booked yet.
    Early,
}
