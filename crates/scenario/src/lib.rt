//! Scenarios: the text that the program is given, read line by line. Knows what may be written, and
//! nothing of what is done with it.
#![tactic(auto)]

pub mod directive;
pub mod reading;

pub use directive::{Directive, PanelLine, Source, Step, TermsLine, UnknownSource, ValueLine};
pub use reading::{CarrierLines, Lines, Scenario, Unreadable, read};
