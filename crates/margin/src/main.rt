//! `margin`: reads a scenario and tells what is to be called or offered back on each of its days.
#![tactic(auto)]

mod agreement;
mod frames;
mod path;
mod report;
mod text;

use anyhow::{Context, anyhow};
use frames::explain;
use hex::FromHexError;
use std::alloc::AllocError;
use std::process::ExitCode;
use std::{env, fs, io};
use text::{HELP, found};

// The text of the file that is named, or else of standard input.
fn input(rt: &HostRuntime, path: Option<String>) -> anyhow::Result<String> {
    match path {
        Some(path) => Ok(fs::read_to_string(rt, path.as_str())?),
        None => Ok(io::read_to_string(rt.alloc(), rt.stdin())?),
    }
}

fn value(rt: &HostRuntime, path: Option<String>) -> anyhow::Result<()> {
    let text = input(rt, path)?;
    match scenario::read(rt.alloc(), text.as_str()) {
        Ok(scenario) => Ok(report::run(rt, scenario)?),
        Err(error) => {
            if let Some(line) = found(error, text.as_str()) {
                eprintln!(rt; "margin: found '{line}'")?;
            }
            Err(error.into())
        }
    }
}

// What the frame of these hexadecimal digits says.
fn frame(rt: &HostRuntime, digits: Option<String>) -> anyhow::Result<()> {
    let digits = digits.context("expected 'margin frame' and hexadecimal digits")?;
    match hex::decode(rt.alloc(), digits.as_str()) {
        Ok(bytes) => Ok(explain(rt, bytes.as_slice())?),
        Err(FromHexError::OutOfMemory) => Err(AllocError.into()),
        // In the words of this program.
        Err(_) => Err(anyhow!("expected an even number of hexadecimal digits")),
    }
}

fn run(rt: &HostRuntime) -> anyhow::Result<()> {
    let mut args = env::args(rt)?;
    let _program = args.next();
    let Some(word) = args.next() else {
        return value(rt, None);
    };
    match word.as_str() {
        "--help" => Ok(rt.print(HELP)?),
        "frame" => frame(rt, args.next()),
        _ => value(rt, Some(word)),
    }
}

fn main(rt: HostRuntime) -> ExitCode {
    match run(&rt) {
        Ok(()) => ExitCode::SUCCESS,
        Err(error) => {
            let _ = eprintln!(rt; "margin: {error}");
            ExitCode::FAILURE
        }
    }
}
