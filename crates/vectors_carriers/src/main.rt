//! Runs carrier cases from the input, one call a line, and prints what each call answers and what then
//! waits. `tools/carriers.py` writes the cases and, from the rules alone, what must be printed.
#![tactic(auto)]

mod cases;

use cases::Carriers;
use std::io::{BufRead, BufReader};

fn main(rt: HostRuntime) -> anyhow::Result<()> {
    let mut carriers = Carriers::new(rt.alloc())?;
    for line in BufReader::new(rt.alloc(), rt.stdin())?.lines(rt.alloc()) {
        let line = line?;
        let words: Vec<&str> = line.split_whitespace().collect(rt.alloc())?;
        carriers.call(&rt, words.as_slice())?;
    }
    Ok(())
}
