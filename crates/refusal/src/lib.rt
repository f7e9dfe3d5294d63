//! Every reason for which a call or a frame is refused: a closed list, each with a number, with words
//! and, for a frame fault, with what it tells about the frame. Knows nothing of what raises it.
#![tactic(auto)]

ghost use Rattle.std.specs.Prelude.{◌≡◌, Some};
ghost use Rattle.refusal.specs.Numbers.{layer_of, layer_word, line_of, message_of, number_of, position_of, words_for};

use std::error::Error;
use std::fmt;

/// Why something is refused. The first five are frame faults: what is wrong with a collected frame.
#[derive(Clone, Copy, PartialEq, Eq, Debug)]
pub enum Refusal {
    /// The frame is too short or too long.
    FrameLength,
    /// A trailer field, at this position of the frame, has an unfit value.
    Trailer { position: usize },
    /// The body of this message has an unfit kind, length or field, at this position of the frame.
    Body { message: u64, position: usize },
    /// This message acknowledges a number that was never issued.
    Acknowledgement { message: u64 },
    /// This expected message does not fit the book, or the other end never sends its kind.
    Misfit { message: u64 },
    /// The call belongs to the other end.
    OtherEnd,
    /// All places of the carrier are taken.
    CarrierFull,
    /// The lent buffer is under 64 bytes.
    SmallBuffer,
    /// Terms, places or a script are out of range.
    Opening,
    /// A lot, class or face is out of range, or the lot is in another state.
    Lot,
    /// The day to weigh is not later, or the last day has not ended.
    Day,
    /// A row, exposure or quote is unfit, absent, one too many or of another day.
    Row,
    /// The day's state does not allow the call.
    State,
    /// What was delivered is below the amount to confirm.
    BelowAmount,
    /// Weighing the row again does not give the finding.
    WeighingDiffers,
    /// Eight messages are unacknowledged.
    Unacknowledged,
    /// The last message number has been issued.
    LastNumber,
}

/// The part of the system that a frame fault belongs to.
#[derive(Clone, Copy, PartialEq, Eq, Debug)]
pub enum Layer {
    Frame,
    Message,
    Link,
    Annex,
}

impl Refusal {
    /// The number under which both treasuries know this refusal.
    pub fn number(&self) -> u8
        ensures { result ≡ number_of self.now }
    {
        match *self {
            Refusal::FrameLength => 1,
            Refusal::Trailer { .. } => 2,
            Refusal::Body { .. } => 3,
            Refusal::Acknowledgement { .. } => 4,
            Refusal::Misfit { .. } => 5,
            Refusal::OtherEnd => 6,
            Refusal::CarrierFull => 7,
            Refusal::SmallBuffer => 8,
            Refusal::Opening => 9,
            Refusal::Lot => 10,
            Refusal::Day => 11,
            Refusal::Row => 12,
            Refusal::State => 13,
            Refusal::BelowAmount => 14,
            Refusal::WeighingDiffers => 15,
            Refusal::Unacknowledged => 16,
            Refusal::LastNumber => 17,
        }
    }

    /// The layer of a frame fault; none for any other refusal.
    pub fn layer(&self) -> Option<Layer>
        ensures { result ≡ layer_of self.now }
    {
        match *self {
            Refusal::FrameLength | Refusal::Trailer { .. } => Some(Layer::Frame),
            Refusal::Body { .. } => Some(Layer::Message),
            Refusal::Acknowledgement { .. } => Some(Layer::Link),
            Refusal::Misfit { .. } => Some(Layer::Annex),
            _ => None,
        }
    }

    /// The number of the message that a frame fault speaks of, where it has one.
    pub fn message(&self) -> Option<u64>
        ensures { result ≡ message_of self.now }
    {
        match *self {
            Refusal::Body { message, .. }
            | Refusal::Acknowledgement { message }
            | Refusal::Misfit { message } => Some(message),
            _ => None,
        }
    }

    /// The position in the frame of the first unfit field, where a frame fault has one.
    pub fn position(&self) -> Option<usize>
        ensures { result ≡ position_of self.now }
    {
        match *self {
            Refusal::Trailer { position } | Refusal::Body { position, .. } => Some(position),
            _ => None,
        }
    }

    /// What the refusal says to a reader, without its numbers.
    pub fn words(&self) -> &'static str
        ensures { result.now ≡ words_for self.now }
    {
        match *self {
            Refusal::FrameLength => "the frame's length is out of range",
            Refusal::Trailer { .. } => "a trailer field is unfit",
            Refusal::Body { .. } => "the body's kind, length or a field is unfit",
            Refusal::Acknowledgement { .. } => "a number that was never issued is acknowledged",
            Refusal::Misfit { .. } => "the message does not fit the book",
            Refusal::OtherEnd => "the call belongs to the other end",
            Refusal::CarrierFull => "the carrier is full",
            Refusal::SmallBuffer => "the buffer is under 64 bytes",
            Refusal::Opening => "terms, places or script are out of range",
            Refusal::Lot => "a lot, class or face is out of range, or the lot is in another state",
            Refusal::Day => "the day is not later, or the last day has not ended",
            Refusal::Row =>
                "the row, exposure or a quote is absent, out of range or of another day",
            Refusal::State => "the state of the day does not allow it",
            Refusal::BelowAmount => "what was delivered is below the amount",
            Refusal::WeighingDiffers => "weighing the row does not give the finding",
            Refusal::Unacknowledged => "eight messages are unacknowledged",
            Refusal::LastNumber => "the last message number has been issued",
        }
    }
}

/// The number, and what it says to a reader.
impl fmt::Display for Refusal {
    ghost output = { λ refusal. Some (line_of refusal) };

    fn fmt<W: fmt::Write>(&self, f: &mut fmt::Formatter<W>) -> fmt::Result {
        write!(f, "{}: {}", self.number(), self.words())
    }
}

impl Error for Refusal {}

impl fmt::Display for Layer {
    ghost output = { λ layer. Some (layer_word layer) };

    fn fmt<W: fmt::Write>(&self, f: &mut fmt::Formatter<W>) -> fmt::Result {
        f.write_str(match self {
            Layer::Frame => "frame",
            Layer::Message => "message",
            Layer::Link => "link",
            Layer::Annex => "annex",
        })
    }
}
