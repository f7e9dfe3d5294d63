//! What a turn answers.
use message::Message;
use refusal::Refusal;

/// What a collected frame was.
#[derive(Clone, Copy, PartialEq, Eq, Debug)]
pub enum Received {
    /// An acknowledgement alone.
    Acknowledgement,
    /// The expected message, which is booked.
    Booked { number: u64, message: Message },
    /// A message that was booked before; it is dropped.
    Repeat { number: u64 },
    /// A message with one before it that is not booked yet; it is dropped.
    Early { number: u64 },
}

/// What a turn did.
#[derive(Clone, Copy, PartialEq, Eq, Debug)]
pub struct Turned {
    /// What the collected frame was, none if none waited; or why it is refused, by 1 to 5, in which
    /// case it changes nothing.
    pub collected: Result<Option<Received>, Refusal>,
    /// Whether the post found a place: what a link writes is refused for nothing else.
    pub posted: bool,
}
