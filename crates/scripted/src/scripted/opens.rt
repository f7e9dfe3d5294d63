//! Opening a scripted carrier.
ghost use Rattle.scripted.specs.Opens.{Opened};

use crate::line::{Line, MOST_PLACES};
use crate::script::{Entry, fits};
use crate::scripted::Scripted;
use arrayvec::ArrayVec;
use refusal::Refusal;

impl Scripted {
    /// An empty carrier of 1 to 16 places, all of whose script is still to come.
    pub fn open(places: usize, script: Vec<Entry>) -> Result<Scripted, Refusal>
        ensures { Opened places script.items result }
    {
        if !(1..=MOST_PLACES).contains(&places) || !fits(script.as_slice()) {
            return Err(Refusal::Opening);
        }
        Ok(Scripted {
            waiting: Line {
                frames: ArrayVec::new(),
                places,
            },
            script,
            count: 0,
        })
    }
}
