//! The calls of a case.
use anyhow::{Context, anyhow};
use carrier::{Carrier, Slip};
use relay::{Passed, relay};
use scripted::{Entry, Scripted};
use std::alloc::{AllocError, Global};

/// What stands in a buffer before anything is collected into it.
const UNTOUCHED: u8 = 238;

/// The two carriers of a case.
#[derive(Drop)]
pub(crate) struct Carriers {
    scripted: Scripted,
    slip: Slip,
}

impl Carriers {
    /// A scripted carrier of one place that never faults, and a slip.
    pub(crate) fn new(heap: Global) -> anyhow::Result<Carriers> {
        Ok(Carriers {
            scripted: Scripted::open(1, Vec::new(heap))?,
            slip: Slip::new(),
        })
    }

    /// Makes the call that a line names, and prints what came of it.
    pub(crate) fn call(&mut self, rt: &HostRuntime, words: &[&str]) -> anyhow::Result<()> {
        match words {
            ["open", places, entries @ ..] => self.open(rt, places, entries),
            ["post", frame] => self.post(rt, frame),
            ["collect", length] => {
                collect(rt, &mut self.scripted, length)?;
                self.show(rt)
            }
            ["slip", length] => {
                collect(rt, &mut self.slip, length)?;
                println!(rt; "")?;
                Ok(())
            }
            ["relay", length] => self.pass(rt, length),
            _ => Err(anyhow!("unknown call")),
        }
    }

    // Opens a fresh carrier and a fresh slip; refused, both stay.
    fn open(&mut self, rt: &HostRuntime, places: &str, entries: &[&str]) -> anyhow::Result<()> {
        // No chain: collecting its results took half as long again.
        let mut script = Vec::new(rt.alloc());
        for word in entries {
            script.push(entry(word)?)?;
        }
        match Scripted::open(places.parse::<usize>()?, script) {
            Ok(fresh) => {
                self.scripted = fresh;
                self.slip = Slip::new();
                println!(rt; "opened")?;
            }
            Err(refusal) => println!(rt; "refused {}", refusal.number())?,
        }
        Ok(())
    }

    fn post(&mut self, rt: &HostRuntime, frame: &str) -> anyhow::Result<()> {
        let frame = bytes(rt.alloc(), frame)?;
        match self.scripted.post(frame.as_slice()) {
            Ok(()) => print!(rt; "posted")?,
            Err(refusal) => print!(rt; "refused {}", refusal.number())?,
        }
        self.show(rt)
    }

    // From the scripted carrier to the slip.
    fn pass(&mut self, rt: &HostRuntime, length: &str) -> anyhow::Result<()> {
        let mut buffer = vec![in rt.alloc(); UNTOUCHED; length.parse::<usize>()?]?;
        match relay(&mut self.scripted, &mut self.slip, buffer.as_mut_slice()) {
            Err(refusal) => print!(rt; "refused {}", refusal.number())?,
            Ok(None) => print!(rt; "nothing")?,
            Ok(Some(Passed { length, posted })) => {
                match posted {
                    Ok(()) => print!(rt; "moved")?,
                    Err(refusal) => print!(rt; "kept {}", refusal.number())?,
                }
                tell_frame(rt, length, buffer.as_slice())?;
            }
        }
        self.show(rt)
    }

    // What the scripted carrier then holds: places, faults left, count, used entries and the waiting frames.
    fn show(&self, rt: &HostRuntime) -> anyhow::Result<()> {
        let carrier = &self.scripted;
        let used = carrier
            .script()
            .iter()
            .filter(|entry| carrier.has_used(entry))
            .count();
        print!(rt;
            " | {} {} {} {used} |",
            carrier.places(),
            carrier.faults(),
            carrier.count()
        )?;
        for frame in carrier.waiting() {
            print!(rt; " {}", hex::encode(rt.alloc(), frame.bytes())?)?;
        }
        println!(rt; "")?;
        Ok(())
    }
}

// Collects from a carrier, and prints what it answered and what the buffer has.
fn collect<C: Carrier>(rt: &HostRuntime, carrier: &mut C, length: &str) -> anyhow::Result<()> {
    let mut buffer = vec![in rt.alloc(); UNTOUCHED; length.parse::<usize>()?]?;
    match carrier.collect(buffer.as_mut_slice()) {
        Err(refusal) => print!(rt; "refused {}", refusal.number())?,
        Ok(None) => print!(rt; "nothing")?,
        Ok(Some(length)) => {
            print!(rt; "frame")?;
            tell_frame(rt, length, buffer.as_slice())?;
        }
    }
    Ok(())
}

// The front of the buffer as a frame, and how many bytes behind it are untouched.
fn tell_frame(rt: &HostRuntime, length: usize, buffer: &[u8]) -> anyhow::Result<()> {
    let (frame, rest) = buffer
        .split_at_checked(length)
        .context("an answer beyond the buffer")?;
    let untouched = rest.iter().filter(|b| **b == UNTOUCHED).count();
    print!(rt;
        " {length} {} +{untouched}",
        hex::encode(rt.alloc(), frame)?
    )?;
    Ok(())
}

// An entry of a script, as COUNT/FAULT/POSITION.
fn entry(word: &str) -> anyhow::Result<Entry> {
    let (count, rest) = word.split_once('/').context("an entry without a fault")?;
    let (fault, position) = rest.split_once('/').context("an entry without a position")?;
    Ok(Entry {
        count: count.parse()?,
        fault: fault.parse().ok().context("an unknown fault")?,
        position: position.parse()?,
    })
}

fn digit(c: u8) -> Option<u8> {
    match c {
        b'0'..=b'9' => Some(c - b'0'),
        b'a'..=b'f' => Some(c - b'a' + 10),
        _ => None,
    }
}

// The bytes that hexadecimal digits write, two to a byte; '-' writes none.
// No `hex::decode`: what is no digit is passed over, and so is a last digit alone.
fn bytes(heap: Global, word: &str) -> Result<Vec<u8>, AllocError> {
    let mut bytes = Vec::new(heap);
    let mut high: Option<u8> = None;
    for c in word.bytes() {
        let Some(digit) = digit(c) else {
            continue;
        };
        match high {
            None => high = Some(digit),
            Some(h) => {
                bytes.push(h << 4 | digit)?;
                high = None;
            }
        }
    }
    Ok(bytes)
}
