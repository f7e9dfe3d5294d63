//! What a program may see of a scripted carrier.
ghost use Rattle.std.specs.Prelude.{◌≡◌, map};
ghost use Rattle.carrier.specs.Held.{held};
ghost use Rattle.scripted.specs.Script.{used};
ghost use Rattle.scripted.specs.ScriptedMeans.{scripted_means, state_of};

use crate::script::Entry;
use crate::scripted::Scripted;
use carrier::Frame;

impl Scripted {
    /// How many frames may wait.
    pub fn places(&self) -> usize
        ensures { result ≡ (scripted_means self.now).places }
    {
        self.waiting.places
    }

    /// How many entries of the script are still unused.
    pub fn faults(&self) -> usize
        ensures { result ≡ (scripted_means self.now).faults }
    {
        self.script
            .iter()
            .filter(|entry| !self.has_used(entry))
            .count()
    }

    /// The frames that wait, first to leave first.
    pub fn waiting(&self) -> &[Frame]
        ensures { map held result.now ≡ (scripted_means self.now).waiting }
    {
        self.waiting.frames.as_slice()
    }

    /// The whole script.
    pub fn script(&self) -> &[Entry]
        ensures { result.now ≡ (state_of self.now).script }
    {
        self.script.as_slice()
    }

    /// How many calls were counted.
    pub fn count(&self) -> u32
        ensures { result ≡ (state_of self.now).count }
    {
        self.count
    }

    /// Whether an entry of the script is used up.
    pub fn has_used(&self, entry: &Entry) -> bool
        ensures { result ≡ used (state_of self.now).count entry.now }
    {
        entry.count <= self.count
    }
}
