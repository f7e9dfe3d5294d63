//! Reading a body: its shape first, then the ranges of its fields.
ghost use Rattle.std.specs.Prelude.{◌≡◌};
ghost use Rattle.body.specs.Laws.{BodiesReadBack, BodiesReadOnce};
ghost use Rattle.body.specs.Reading.{Parsed, ReadsMessage};

use message::Message;
use octets::exactly;
use refusal::Refusal;

/// The message of a body, whatever the values of its fields.
fn parse(body: &[u8]) -> Option<Message>
    ensures { Parsed body.now result }
{
    let [kind, fields @ ..] = body else {
        return None;
    };
    // The enum of the kinds is `Message` itself, so a kind is read by its number.
    match *kind {
        0x01 => {
            let (day, exposure) = exactly(fields)?;
            Some(Message::Quiet { day, exposure })
        }
        0x02 => {
            let (day, (exposure, amount)) = exactly(fields)?;
            Some(Message::Call {
                day,
                exposure,
                amount,
            })
        }
        0x03 => {
            let (day, (exposure, amount)) = exactly(fields)?;
            Some(Message::Offer {
                day,
                exposure,
                amount,
            })
        }
        0x04 => {
            let day = exactly(fields)?;
            Some(Message::Agree { day })
        }
        0x05 => {
            let (day, amount) = exactly(fields)?;
            Some(Message::Dispute { day, amount })
        }
        0x06 => {
            let (day, (exposure, amount)) = exactly(fields)?;
            Some(Message::Resolve {
                day,
                exposure,
                amount,
            })
        }
        0x07 => {
            let (day, (lot, (class, face))) = exactly(fields)?;
            Some(Message::Delivery {
                day,
                lot,
                class,
                face,
            })
        }
        0x08 => {
            let (lot, (class, (face, old))) = exactly(fields)?;
            Some(Message::Substitute {
                lot,
                class,
                face,
                old,
            })
        }
        0x09 => {
            let (day, lot) = exactly(fields)?;
            Some(Message::Ask { day, lot })
        }
        0x0A => {
            let lot = exactly(fields)?;
            Some(Message::Return { lot })
        }
        0x0B => {
            let lot = exactly(fields)?;
            Some(Message::Decline { lot })
        }
        0x0C => {
            let day = exactly(fields)?;
            Some(Message::Satisfied { day })
        }
        0x0E => {
            let day = exactly(fields)?;
            Some(Message::Release { day })
        }
        _ => None,
    }
}

/// The message in the body of the frame with this number. Refused by 3, with that number and the
/// position of what is unfit: 0 for the kind and the length, else the first unfit field.
#[tactic(auto, using(crate::proofs::Once::bodies_read_once, crate::proofs::Once::bodies_read_back))]
pub fn read_message(number: u64, body: &[u8]) -> Result<Message, Refusal>
    ensures reads { ReadsMessage number body.now result }
    ensures once { BodiesReadOnce }
    ensures back { BodiesReadBack }
{
    let message = parse(body).ok_or(Refusal::Body {
        message: number,
        position: 0,
    })?;
    match message.unfit() {
        Some(position) => Err(Refusal::Body {
            message: number,
            position,
        }),
        None => Ok(message),
    }
}
