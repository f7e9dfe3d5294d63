//! The way of a frame: over a scripted carrier, and passed on to a slip from which it is taken.
use crate::report::Report;
use carrier::{Carrier, LONGEST_FRAME, Slip};
use refusal::Refusal;
use relay::{Passed, relay};
use scenario::CarrierLines;
use scripted::{Entry, Fault, Scripted};
use std::io;

/// The most frames that are taken from a carrier to which nothing is posted any more: its places, and a
/// copy for each entry of its script.
const MOST_LEFT: usize = 80;

/// The carriers that a day's frame goes over.
#[derive(Drop)]
pub(crate) struct Path {
    line: Scripted,
    slip: Slip,
}

// What an entry does to a list of this many frames, and how many there are then.
// Worked out here: a carrier tells no outcome of an entry.
fn effect(entry: &Entry, waiting: usize, places: usize) -> (&'static str, usize) {
    if entry.position >= waiting {
        return ("nothing, no such frame", waiting);
    }
    match entry.fault {
        Fault::Lose => ("lost a frame", waiting - 1),
        Fault::Move => ("moved a frame to the end", waiting),
        Fault::Repeat if waiting < places => (
            "repeated a frame at the end",
            waiting.saturating_add(1),
        ),
        Fault::Repeat => ("nothing, no free place", waiting),
    }
}

impl Path {
    /// The carriers of a scenario; refused where places or script are out of range.
    pub(crate) fn open(lines: CarrierLines) -> Result<Path, Refusal> {
        let CarrierLines { places, script } = lines;
        Ok(Path {
            line: Scripted::open(places, script)?,
            slip: Slip::new(),
        })
    }

    // What each fault of the call that was just made did; `before` frames waited when the first acted.
    fn tell_faults(&self, report: &Report<'_>, before: usize) -> io::Result<()> {
        let mut waiting = before;
        let now = self.line.count();
        for entry in self.line.script().iter().filter(|entry| entry.count == now) {
            let Entry {
                fault,
                position,
                ..
            } = *entry;
            let (did, left) = effect(entry, waiting, self.line.places());
            report.tell(format_args!("fault {fault} {position}: {did}"))?;
            waiting = left;
        }
        Ok(())
    }

    // Posts a frame to the carrier.
    fn post(&mut self, report: &Report<'_>, frame: &[u8]) -> io::Result<()> {
        let before = self.line.waiting().len();
        match self.line.post(frame) {
            Ok(()) => {
                report.tell("posted")?;
                self.tell_faults(report, before.saturating_add(1))
            }
            Err(refusal) => report.tell(format_args!("post refused {refusal}")),
        }
    }

    // Passes a frame on to the slip, and takes it from there. Whether there was one.
    fn take(&mut self, report: &Report<'_>) -> io::Result<bool> {
        let before = self.line.waiting().len();
        let mut buffer = [0; LONGEST_FRAME];
        let passed = relay(&mut self.line, &mut self.slip, &mut buffer);
        self.tell_faults(report, before)?;
        match passed {
            Ok(Some(Passed { posted: Ok(()), .. })) => self.read(report),
            Ok(None) => {
                report.tell("collected nothing")?;
                Ok(false)
            }
            Err(refusal)
            | Ok(
                Some(
                    Passed {
                        posted: Err(refusal),
                        ..
                    },
                ),
            ) => {
                report.tell(format_args!("post refused {refusal}"))?;
                Ok(false)
            }
        }
    }

    // Takes the frame from the slip. Whether there was one.
    fn read(&mut self, report: &Report<'_>) -> io::Result<bool> {
        let mut buffer = [0; LONGEST_FRAME];
        // Nothing is dropped here but an empty slip: a buffer of LONGEST_FRAME bytes is not refused.
        let Ok(Some(length)) = self.slip.collect(&mut buffer) else {
            return Ok(false);
        };
        let digits = hex::encode_upper(report.rt.alloc(), &buffer[..length])?;
        report.tell(format_args!("collected {digits}"))?;
        Ok(true)
    }

    /// Sends a day's frame, and takes what comes.
    pub(crate) fn send(&mut self, report: &Report<'_>, frame: &[u8]) -> io::Result<()> {
        self.post(report, frame)?;
        let _found = self.take(report)?;
        let waiting = self.line.waiting().len();
        let faults = self.line.faults();
        report.tell(format_args!("waiting {waiting} faults-left {faults}"))
    }

    /// Takes what is left on the carrier.
    pub(crate) fn drain(&mut self, report: &Report<'_>) -> io::Result<()> {
        for _ in 0..MOST_LEFT {
            if !self.take(report)? {
                break;
            }
        }
        Ok(())
    }
}
