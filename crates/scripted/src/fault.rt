//! The faults of a script, and their words.
ghost use Rattle.std.specs.Prelude.{Some, codes};
ghost use Rattle.scripted.specs.Words.{fault_word, FaultRead};

use std::error::Error;
use std::fmt;
use std::str::FromStr;

/// What an entry does to the frame at its position.
#[derive(Clone, Copy, PartialEq, Eq, Debug)]
pub enum Fault {
    /// The frame is lost.
    Lose,
    /// A copy of the frame joins the end, if a place is free.
    Repeat,
    /// The frame moves to the end.
    Move,
}

// By hand, as the next: a derived Display states no text.
impl fmt::Display for Fault {
    ghost output = { λ fault. Some (fault_word fault) };

    fn fmt<W: fmt::Write>(&self, f: &mut fmt::Formatter<W>) -> fmt::Result {
        f.write_str(match self {
            Fault::Lose => "lose",
            Fault::Repeat => "repeat",
            Fault::Move => "move",
        })
    }
}

/// A word that names no fault.
#[derive(Clone, Copy, PartialEq, Eq, Debug)]
pub struct UnknownFault;

impl fmt::Display for UnknownFault {
    ghost output = { λ _. Some (codes "a fault is lose, repeat or move") };

    fn fmt<W: fmt::Write>(&self, f: &mut fmt::Formatter<W>) -> fmt::Result {
        f.write_str("a fault is lose, repeat or move")
    }
}

impl Error for UnknownFault {}

impl FromStr for Fault {
    type Err = UnknownFault;

    ghost from_str_gives = { FaultRead };

    fn from_str(word: &str) -> Result<Fault, UnknownFault> {
        match word {
            "lose" => Ok(Fault::Lose),
            "repeat" => Ok(Fault::Repeat),
            "move" => Ok(Fault::Move),
            _ => Err(UnknownFault),
        }
    }
}
