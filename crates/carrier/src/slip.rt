//! The slip: the plainest carrier.
ghost use Rattle.std.specs.Prelude.{◌≡◌};
ghost use Rattle.carrier.specs.Means.{Means};
ghost use Rattle.carrier.specs.SlipMeans.{empty_slip, slip_means};
ghost use Rattle.carrier.specs.Sounds.{slip_sound};

use crate::frame::{Frame, LONGEST_FRAME};
use crate::promise::Carrier;
use refusal::Refusal;

/// A carrier of one place that never faults.
#[derive(Clone, Copy)]
pub struct Slip {
    waiting: Option<Frame>,
}

impl Slip {
    /// A slip on which nothing waits.
    pub fn new() -> Slip
        ensures { slip_means result ≡ empty_slip }
    {
        Slip { waiting: None }
    }
}

impl Carrier for Slip {
    ghost meaning = { slip_means };

    ghost sound = { slip_sound };

    fn post(&mut self, frame: &[u8]) -> Result<(), Refusal> {
        let frame = Frame::try_from(frame)?;
        if self.waiting.is_some() {
            return Err(Refusal::CarrierFull);
        }
        self.waiting = Some(frame);
        Ok(())
    }

    fn collect(&mut self, buffer: &mut [u8]) -> Result<Option<usize>, Refusal> {
        if buffer.len() < LONGEST_FRAME {
            return Err(Refusal::SmallBuffer);
        }
        let Some(frame) = self.waiting.take() else {
            return Ok(None);
        };
        Ok(Some(frame.fill(buffer)?))
    }
}
