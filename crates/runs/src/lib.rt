//! Runs of two ends and the two carriers of bytes between them, and the law that every run obeys,
//! for any book. Definitions and proofs; no end, no turn.
#![tactic(auto)]

ghost use Rattle.std.specs.Prelude.{◌≡◌};
ghost use Rattle.runs.specs.Laws.{ARoundCanBeMade, BookingsBeginWhatWasIssued, NoTurnMeetsABrokenFrame, QueuesKeepARelation, RoundsLeaveNothingUnacknowledged, SettlesAfter, WaitingFramesAreTrue, rounds_enough};

use link::state::WINDOW;

/// What one end booked begins what the other issued, in its order, number and message, and is all
/// of it once nothing is unacknowledged.
#[tactic(auto, using(crate::proofs::Holding::begin))]
pub fn bookings_begin_what_was_issued<C, S>()
    ensures { BookingsBeginWhatWasIssued C S }
{}

/// A stated number of rounds or more leaves nothing unacknowledged.
#[tactic(auto, using(crate::proofs::Settling::settles))]
pub fn rounds_leave_nothing_unacknowledged<C, S>()
    ensures { RoundsLeaveNothingUnacknowledged C S }
{}

/// A round can be made from every reached world.
pub fn a_round_can_be_made<C, S>()
    ensures { ARoundCanBeMade C S }
{}

/// No turn of a run meets a fault of 1 to 4.
#[tactic(auto, using(crate::proofs::Holding::unbroken))]
pub fn no_turn_meets_a_broken_frame<C, S>()
    ensures { NoTurnMeetsABrokenFrame C S }
{}

/// Every waiting frame reads as one with a number that was issued, its message, and an
/// acknowledgement that its sender may give.
#[tactic(auto, using(crate::proofs::Holding::waiting))]
pub fn waiting_frames_are_true<C, S>()
    ensures { WaitingFramesAreTrue C S }
{}

/// A relation that issuing and booking in order keep over two queues holds in every reached world.
pub fn queues_keep_a_relation<C, S>()
    ensures { QueuesKeepARelation C S }
{}

/// How many rounds without another call leave nothing unacknowledged, from a world with so many
/// faults left in both carriers and so many places in the larger one.
#[tactic(auto, using(crate::proofs::Settling::settles_after))]
pub fn rounds_enough<C, S>(faults: u32, places: u16) -> u64
    ensures answer { result ≡ rounds_enough faults places }
    ensures settles { SettlesAfter C S faults places result }
{
    (u64::from(faults) + WINDOW as u64) * (2 * u64::from(places) + 1)
}
