//! The promise of a carrier: what it means, and what posting and collecting do to that.
ghost use Rattle.std.specs.Prelude.{◌≡◌};
ghost use Rattle.carrier.specs.Laws.{CarriersStand};
ghost use Rattle.carrier.specs.Means.{Means, Sound};
ghost use Rattle.carrier.specs.Rules.{Collected, Posted};

use crate::frame::LONGEST_FRAME;
use refusal::Refusal;

/// What takes frames one way. It may lose, copy and move what waits, as often as it has faults left.
pub trait Carrier {
    /// The frames that wait, the places and the faults left.
    ghost meaning: { Self → Means };

    /// The meaning is well formed at all times.
    ghost sound: { (x : Self) → Sound (meaning x) };

    /// Puts a frame of 1 to 64 bytes behind those that wait; refused when all places are taken.
    fn post(&mut self, frame: &[u8]) -> Result<(), Refusal>
        ensures { Posted (meaning self.old) frame.now result (meaning self.new) };

    /// Takes the first waiting frame into the front of a buffer of 64 bytes or more, and tells its
    /// length; none where nothing waits.
    fn collect(&mut self, buffer: &mut [u8]) -> Result<Option<usize>, Refusal>
        ensures { Collected (meaning self.old) buffer.old result (meaning self.new) buffer.new };
}

/// The longest frame of every carrier, in bytes, and the laws of every carrier: no act makes a frame,
/// faults left never rises, and without a fall of it nothing is lost, copied or moved.
#[tactic(auto, using(crate::proofs::Keep::carriers_stand))]
pub fn carriers_stand() -> usize
    ensures answer { result ≡ 64 }
    ensures laws { CarriersStand }
{
    LONGEST_FRAME
}
