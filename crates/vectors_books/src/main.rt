//! Runs lists of calls and bookings on two books from standard input, and tells after each what was answered
//! and both books whole. The cases and what they should give come from tools/books_cases.py.
#![tactic(auto)]

mod commands;
mod failure;
mod messages;
mod told;

use commands::run_line;
use std::io::{BufRead, BufReader};

fn main(rt: HostRuntime) -> anyhow::Result<()> {
    let mut books = None;
    for line in BufReader::new(rt.alloc(), rt.stdin())?.lines(rt.alloc()) {
        let line = line?;
        let answer = run_line(rt.alloc(), &mut books, line.as_str())?;
        rt.println(answer)?;
    }
    Ok(())
}
