//! Reading a frame: its length, its trailer, its body.
ghost use Rattle.std.specs.Prelude.{◌≡◌};
ghost use Rattle.frame.specs.Laws.{FramesReadBack, FramesReadOnce, ReadsBack, ReadsOnce, WritesAgain};
ghost use Rattle.frame.specs.Packets.{Reads, ReadsFrame};

use crate::layout::{ALONE, LONGEST_FRAME, TRAILER_LENGTH, Trailer};
use crate::{Frame, Packet};
use body::read_message;
use refusal::Refusal;

/// What a frame says, its body as a part of the lent bytes. Refused by 1 for the length, by 2 for
/// a field of the trailer, by 3 for the body; 2 and 3 tell where in the frame it is unfit.
#[tactic(auto, using(crate::proofs::Once::frames_read_once, crate::proofs::Once::frames_read_back))]
pub fn read_frame<'a>(bytes: &'a [u8]) -> Result<Frame<'a>, Refusal>
    ensures reads { ReadsFrame bytes.now result }
    ensures once { FramesReadOnce }
    ensures back { FramesReadBack }
{
    let len = bytes.len();
    if !(TRAILER_LENGTH..=LONGEST_FRAME).contains(&len) {
        return Err(Refusal::FrameLength);
    }
    let (body, trailer) = bytes.split_at(len - TRAILER_LENGTH);
    let t = Trailer::read(trailer).ok_or(Refusal::FrameLength)?;
    if let Some(position) = t.unfit(len) {
        return Err(Refusal::Trailer {
            position: body.len() + position,
        });
    }
    if t.tag == ALONE {
        if !body.is_empty() {
            return Err(Refusal::Body {
                message: t.number,
                position: 0,
            });
        }
        return Ok(Frame::Acknowledgement {
            acknowledgement: t.acknowledgement,
        });
    }
    read_message(t.number, body)?;
    Ok(Frame::Data {
        number: t.number,
        acknowledgement: t.acknowledgement,
        body,
    })
}

/// What a frame says, with its message read. Refused as `read_frame` refuses.
#[tactic(auto, using(crate::proofs::Once::reads_once, crate::proofs::Once::reads_back, crate::proofs::Written::writes_again))]
pub fn read_packet(bytes: &[u8]) -> Result<Packet, Refusal>
    ensures reads { Reads bytes.now result }
    ensures once { ReadsOnce }
    ensures back { ReadsBack }
    ensures again { WritesAgain }
{
    match read_frame(bytes)? {
        Frame::Acknowledgement { acknowledgement } => Ok(Packet::Acknowledgement {
            acknowledgement,
        }),
        Frame::Data {
            number,
            acknowledgement,
            body,
        } => {
            let message = read_message(number, body)?;
            Ok(Packet::Data {
                number,
                acknowledgement,
                message,
            })
        }
    }
}
