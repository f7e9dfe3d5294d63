//! Posting to a scripted carrier and collecting from it.
ghost use Rattle.std.specs.Prelude.{◌≡◌};
ghost use Rattle.carrier.specs.Means.{Means};
ghost use Rattle.carrier.specs.Rules.{Collected, Posted};
ghost use Rattle.scripted.specs.ScriptedMeans.{CollectedByScript, PostedByScript, scripted_sound, scripted_means, state_of};
ghost use Rattle.scripted.specs.State.{counted};

use crate::script::LAST_COUNT;
use crate::scripted::Scripted;
use carrier::{Carrier, Frame, LONGEST_FRAME};
use refusal::Refusal;

impl Scripted {
    // Counts a call, and lets its entries act; after the last count no entry acts.
    #[tactic(auto, using(crate::proofs::Strikes::struck))]
    fn strike(&mut self)
        ensures { state_of self.new ≡ counted (state_of self.old) (state_of self.old).waiting }
    {
        if self.count < LAST_COUNT {
            self.count += 1;
            self.waiting.play(self.script.as_slice(), self.count);
        }
    }
}

impl Carrier for Scripted {
    ghost meaning = { scripted_means };

    ghost sound = { scripted_sound };

    fn post(&mut self, frame: &[u8]) -> Result<(), Refusal>
        ensures rule { Posted (scripted_means self.old) frame.now result (scripted_means self.new) }
        ensures exact { PostedByScript (state_of self.old) frame.now result (state_of self.new) }
    {
        let frame = Frame::try_from(frame)?;
        if self.waiting.frames.len() >= self.waiting.places {
            return Err(Refusal::CarrierFull);
        }
        self.waiting.frames.push(frame);
        self.strike();
        Ok(())
    }

    fn collect(&mut self, buffer: &mut [u8]) -> Result<Option<usize>, Refusal>
        ensures rule { Collected (scripted_means self.old) buffer.old result (scripted_means self.new) buffer.new }
        ensures exact { CollectedByScript (state_of self.old) buffer.old result (state_of self.new) buffer.new }
    {
        if buffer.len() < LONGEST_FRAME {
            return Err(Refusal::SmallBuffer);
        }
        self.strike();
        let Some(frame) = self.waiting.frames.pop_at(0) else {
            return Ok(None);
        };
        Ok(Some(frame.fill(buffer)?))
    }
}
