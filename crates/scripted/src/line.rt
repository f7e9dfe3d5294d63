//! The waiting line: the frames that wait and their places, in memory of its own.
ghost use Rattle.std.specs.Prelude.{◌≤◌};
ghost use Rattle.arrayvec.specs.ArrayVec.{array_vec_len};

use arrayvec::ArrayVec;
use carrier::Frame;

pub mod moves;

/// The most places of a line.
pub(crate) const MOST_PLACES: usize = 16;

/// The frames that wait, first to leave first, and how many may.
// No deque: a script strikes any position, and a carrier allocates nothing.
#[derive(Drop)]
pub struct Line {
    pub(crate) frames: ArrayVec<Frame, MOST_PLACES>,
    pub(crate) places: usize,
    ghost some: { 1 ≤ places },
    ghost room: { array_vec_len frames ≤ places },
    ghost most: { places ≤ 16 },
}
