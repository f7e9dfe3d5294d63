//! Runs cases of amounts, schedule, sheets and panels from standard input, and tells what came of each.
//! The cases and what they should give come from tools/amounts_cases.py.
#![tactic(auto)]

mod cases;
mod failure;

use cases::answer;
use std::io::{BufRead, BufReader};

fn main(rt: HostRuntime) -> anyhow::Result<()> {
    for line in BufReader::new(rt.alloc(), rt.stdin())?.lines(rt.alloc()) {
        let line = line?;
        rt.println(answer(rt.alloc(), line.as_str())?)?;
    }
    Ok(())
}
