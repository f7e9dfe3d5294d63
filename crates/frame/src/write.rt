//! Writing a frame into a lent buffer of at least 64 bytes. What would not read is refused, and
//! what is refused leaves the buffer as it was.
ghost use Rattle.std.specs.Prelude.{◌≡◌};
ghost use Rattle.frame.specs.declared.Packet.TheVariants.{Acknowledgement, Data};
ghost use Rattle.frame.specs.Laws.{FramesDiffer, WritesOnce, WrittenReadsBack};
ghost use Rattle.frame.specs.Packets.{Writes};

use crate::layout::{
    ALONE, DATA, LONGEST_FRAME, NUMBER_WIDTH, TRAILER_LENGTH, Trailer, VERSION,
    acknowledgement_fits,
};
use body::{body_len, put_body};
use message::Message;
use refusal::Refusal;

/// Writes the frame of a message into the buffer's front, and returns its length. Refused by 2 for
/// the number or the acknowledgement, by 3 for the message, by 8 for the buffer.
pub fn write_data(
    buffer: &mut [u8],
    number: u64,
    acknowledgement: u64,
    message: &Message,
) -> Result<usize, Refusal>
    ensures writes { Writes (Data number acknowledgement message.now) buffer.old buffer.new result }
    ensures once { WritesOnce }
    ensures back { WrittenReadsBack }
    ensures differ { FramesDiffer }
{
    put_data(buffer, number, acknowledgement, message)
}

// The steps stand apart from the public call: beside them the proof of its law that frames differ was
// not found at each return.
fn put_data(
    buffer: &mut [u8],
    number: u64,
    acknowledgement: u64,
    message: &Message,
) -> Result<usize, Refusal>
    ensures { Writes (Data number acknowledgement message.now) buffer.old buffer.new result }
{
    let len = body_len(message);
    let t = Trailer {
        number,
        acknowledgement,
        tag: DATA,
        version: VERSION,
        back: len + TRAILER_LENGTH,
    };
    if let Some(position) = t.unfit(len + TRAILER_LENGTH) {
        return Err(Refusal::Trailer {
            position: len + position,
        });
    }
    if let Some(position) = message.unfit() {
        return Err(Refusal::Body {
            message: number,
            position,
        });
    }
    if buffer.len() < LONGEST_FRAME {
        return Err(Refusal::SmallBuffer);
    }
    let end = put_body(buffer, message).ok_or(Refusal::SmallBuffer)?;
    let len = t.put(&mut buffer[end..]).ok_or(Refusal::SmallBuffer)?;
    Ok(end + len)
}

/// Writes an acknowledgement alone into the buffer's front, and returns its length. Refused by 2
/// for the acknowledgement, by 8 for the buffer.
pub fn write_acknowledgement(buffer: &mut [u8], acknowledgement: u64) -> Result<usize, Refusal>
    ensures writes { Writes (Acknowledgement acknowledgement) buffer.old buffer.new result }
    ensures once { WritesOnce }
    ensures back { WrittenReadsBack }
    ensures differ { FramesDiffer }
{
    put_acknowledgement(buffer, acknowledgement)
}

fn put_acknowledgement(buffer: &mut [u8], acknowledgement: u64) -> Result<usize, Refusal>
    ensures { Writes (Acknowledgement acknowledgement) buffer.old buffer.new result }
{
    if !acknowledgement_fits(acknowledgement) {
        return Err(Refusal::Trailer {
            position: NUMBER_WIDTH,
        });
    }
    if buffer.len() < LONGEST_FRAME {
        return Err(Refusal::SmallBuffer);
    }
    let t = Trailer {
        number: 0,
        acknowledgement,
        tag: ALONE,
        version: VERSION,
        back: TRAILER_LENGTH,
    };
    t.put(buffer).ok_or(Refusal::SmallBuffer)
}
