//! Bytes into a frame, and out of it.
ghost use Rattle.std.specs.Prelude.{◌≡◌, [], ◌∷◌};
ghost use Rattle.carrier.specs.Held.{Filled, Framed, held};

use crate::frame::Frame;
use refusal::Refusal;

/// The most bytes that a frame has, and the fewest that a buffer may have.
// As many as the format's: carriers and the format know nothing of each other.
pub const LONGEST_FRAME: usize = 64;

impl TryFrom<&[u8]> for Frame {
    type Error = Refusal;

    ghost try_from_gives = { λ source result. Framed source.now result };

    /// The frame with these bytes; refused where there are none or more than 64.
    fn try_from(source: &[u8]) -> Result<Frame, Refusal> {
        let len = source.len();
        if !(1..=LONGEST_FRAME).contains(&len) {
            return Err(Refusal::FrameLength);
        }
        let mut bytes = [0; LONGEST_FRAME];
        bytes[..len].copy_from_slice(source);
        Ok(Frame { bytes, len })
    }
}

impl Default for Frame {
    ghost is_default = { λ frame. held frame ≡ 0 ∷ [] };

    /// A blank: the frame of one zero byte.
    fn default() -> Frame {
        Frame {
            bytes: [0; LONGEST_FRAME],
            len: 1,
        }
    }
}

impl Frame {
    /// The frame's bytes.
    pub fn bytes(&self) -> &[u8]
        ensures { result.now ≡ held self.now }
    {
        &self.bytes[..self.len]
    }

    /// Fills the front of a buffer of 64 bytes or more, and tells how many bytes that are.
    pub fn fill(&self, buffer: &mut [u8]) -> Result<usize, Refusal>
        ensures { Filled (held self.now) buffer.old result buffer.new }
    {
        if buffer.len() < LONGEST_FRAME {
            return Err(Refusal::SmallBuffer);
        }
        buffer[..self.len].copy_from_slice(self.bytes());
        Ok(self.len)
    }
}
