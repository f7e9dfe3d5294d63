//! What the entries of a script do to a waiting line.
ghost use Rattle.std.specs.Prelude.{◌≡◌};
ghost use Rattle.scripted.specs.Script.{acted, play as plays};

use crate::fault::Fault;
use crate::line::Line;
use crate::script::Entry;

impl Line {
    // Does what the entry says; nothing where no frame stands at its position.
    fn act(&mut self, entry: Entry)
        ensures frames { self.new.frames.items ≡ acted self.old.places entry self.old.frames.items }
        ensures places { self.new.places ≡ self.old.places }
    {
        let at = entry.position;
        if at >= self.frames.len() {
            return;
        }
        match entry.fault {
            Fault::Lose => {
                self.frames.remove(at);
            }
            Fault::Repeat => {
                if self.frames.len() < self.places {
                    let frame = self.frames[at];
                    self.frames.push(frame);
                }
            }
            Fault::Move => {
                let frame = self.frames.remove(at);
                self.frames.push(frame);
            }
        }
    }

    // Lets the entries of a call act, in the script's order.
    pub(crate) fn play(&mut self, script: &[Entry], count: u32)
        ensures frames { self.new.frames.items ≡ plays self.old.places count script.now self.old.frames.items }
        ensures places { self.new.places ≡ self.old.places }
    {
        // A test in the loop: over a filter the proof would need what a fold over a filtered list is.
        for entry in script {
            if entry.count == count {
                self.act(*entry);
            }
        }
    }
}
