//! The law of a link between two ends, over any run: numbered messages, faulty channels, and any
//! book above. Definitions and proofs; the functions carry one law each and compute nothing. Knows
//! nothing of bytes, of the messages and of the annex.
#![tactic(auto)]

ghost use Rattle.law.specs.Laws.{ARoundCanBeMade, ActsOnWrittenFrames, BookingsBeginWhatWasIssued, QueuesKeepARelation, RoundsLeaveNothingUnacknowledged, WaitingFramesAreTrue};

/// What one end booked begins what the other issued, and is all of it once nothing is
/// unacknowledged.
#[tactic(auto, using(crate::proofs::Runs::agrees))]
pub fn bookings_begin_what_was_issued<M, C, S>()
    ensures { BookingsBeginWhatWasIssued M C S }
{}

/// A stated number of rounds leaves nothing unacknowledged, whatever the faults do.
#[tactic(auto, using(crate::proofs::Settling::settles))]
pub fn rounds_leave_nothing_unacknowledged<M, C, S>()
    ensures { RoundsLeaveNothingUnacknowledged M C S }
{}

/// A round can be made from every reached world.
pub fn a_round_can_be_made<M, C, S>()
    ensures { ARoundCanBeMade M C S }
{}

/// Every waiting frame carries what was issued under its number, and acknowledges what its sender
/// may acknowledge.
#[tactic(auto, using(crate::proofs::Frames::frames_true))]
pub fn waiting_frames_are_true<M, C, S>()
    ensures { WaitingFramesAreTrue M C S }
{}

/// A relation that issuing and booking in order keep over two queues holds in every reached world.
pub fn queues_keep_a_relation<M, C, S>()
    ensures { QueuesKeepARelation M C S }
{}

/// Fault acts on written frames are fault acts on the frames, whatever the written form.
#[tactic(auto, using(crate::proofs::Lift::lifts))]
pub fn acts_on_written_frames<T, S>()
    ensures { ActsOnWrittenFrames T S }
{}
