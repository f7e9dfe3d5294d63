//! Writing a body: the kind, then the fields as they lie.
ghost use Rattle.std.specs.Prelude.{◌≡◌, ◌≤◌, length};
ghost use Rattle.octets.specs.Puts.{Puts};
ghost use Rattle.body.specs.Laws.{BodiesDiffer};
ghost use Rattle.message.specs.Bodies.{body_of};

use message::Message;
use octets::Octets;

/// How many bytes the body of the message takes.
#[tactic(auto, unfolding(octets::specs::Numbers::bytes_of))]
pub fn body_len(message: &Message) -> usize
    ensures { (result ≡ length (body_of message.now)) × (result ≤ 21) }
{
    match *message {
        Message::Quiet { .. } | Message::Dispute { .. } => 13,
        Message::Call { .. } | Message::Offer { .. } | Message::Resolve { .. } => 21,
        Message::Agree { .. } | Message::Satisfied { .. } | Message::Release { .. } => 5,
        Message::Delivery { .. } => 15,
        Message::Substitute { .. } => 12,
        Message::Ask { .. } => 6,
        Message::Return { .. } | Message::Decline { .. } => 2,
    }
}

/// Puts the body of the message into the front of the buffer, and returns its length. Where it
/// has no room, nothing is put. The ranges of the fields are not judged.
#[tactic(auto, using(crate::proofs::Once::bodies_differ))]
pub fn put_body(buffer: &mut [u8], message: &Message) -> Option<usize>
    ensures puts { Puts (body_of message.now) result buffer.old buffer.new }
    ensures differ { BodiesDiffer }
{
    let kind = message.kind();
    // Three arms alike: a pattern that binds an `i64` in each of its alternatives gets no proof.
    match *message {
        Message::Quiet { day, exposure } => (kind, (day, exposure)).put(buffer),
        Message::Call {
            day,
            exposure,
            amount,
        } => (kind, (day, (exposure, amount))).put(buffer),
        Message::Offer {
            day,
            exposure,
            amount,
        } => (kind, (day, (exposure, amount))).put(buffer),
        Message::Resolve {
            day,
            exposure,
            amount,
        } => (kind, (day, (exposure, amount))).put(buffer),
        Message::Agree { day } | Message::Satisfied { day } | Message::Release { day } => {
            (kind, day).put(buffer)
        }
        Message::Dispute { day, amount } => (kind, (day, amount)).put(buffer),
        Message::Delivery {
            day,
            lot,
            class,
            face,
        } => (kind, (day, (lot, (class, face)))).put(buffer),
        Message::Substitute {
            lot,
            class,
            face,
            old,
        } => (kind, (lot, (class, (face, old)))).put(buffer),
        Message::Ask { day, lot } => (kind, (day, lot)).put(buffer),
        Message::Return { lot } | Message::Decline { lot } => (kind, lot).put(buffer),
    }
}
