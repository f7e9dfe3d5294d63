//! What the program says of itself and of its input.
use scenario::Unreadable;

pub(crate) const HELP: &str = "margin: what a credit support annex asks for on a day

  margin [FILE]     value the days of a scenario, from FILE or from standard input
  margin frame HEX  tell what a frame says, or why it is refused and where
  margin --help     this text

A scenario has one line for each fact; docs/SCENARIO.md has them all.
The output has one fact a line. An unreadable scenario ends with status 1.
";

/// The line that an error speaks of.
pub(crate) fn found(error: Unreadable, text: &str) -> Option<&str> {
    match error {
        Unreadable::Line { number, .. } => text.lines().nth(number.saturating_sub(1)),
        _ => None,
    }
}
