//! What any carrier of frames promises, whoever writes it: the `Carrier` trait over one meaning, with
//! every fault that a carrier may make named. Holds the plainest carrier, the slip, and the frame in
//! which a carrier keeps what waits. Knows nothing of what a frame says.
#![tactic(auto)]

pub mod frame;
pub mod promise;
pub mod slip;

pub use frame::{Frame, LONGEST_FRAME};
pub use promise::{Carrier, carriers_stand};
pub use slip::Slip;
