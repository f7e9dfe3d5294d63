//! Passing a frame on from one carrier to another, whatever carriers they are: proved once, from what
//! every carrier promises.
#![tactic(auto)]

ghost use Rattle.relay.specs.Relays.{Relayed, RelaysStand};

use carrier::Carrier;
use refusal::Refusal;

/// A frame that left the one carrier, and what the other answered. A refused frame stays in the front
/// of the buffer.
#[derive(Clone, Copy, PartialEq, Eq, Debug)]
pub struct Passed {
    /// How many bytes the frame has.
    pub length: usize,
    /// The answer to its post.
    pub posted: Result<(), Refusal>,
}

/// Takes the first frame of one carrier through the buffer to the other carrier's end; none where
/// nothing waits. Refused where the buffer is too small; then nothing changes.
#[tactic(auto, using(crate::proofs::Stands::relays_stand))]
pub fn relay<I: Carrier, O: Carrier>(
    incoming: &mut I,
    outgoing: &mut O,
    buffer: &mut [u8],
) -> Result<Option<Passed>, Refusal>
    ensures rule { Relayed (I.Carrier.meaning incoming.old) (O.Carrier.meaning outgoing.old) buffer.old result (I.Carrier.meaning incoming.new) (O.Carrier.meaning outgoing.new) buffer.new }
    ensures law { RelaysStand }
{
    let Some(length) = incoming.collect(buffer)? else {
        return Ok(None);
    };
    let posted = outgoing.post(&buffer[0..length]);
    Ok(Some(Passed { length, posted }))
}
