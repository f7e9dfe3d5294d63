//! The day in hand at an end: its state, its number and the amount last told of it. Knows nothing of lots,
//! messages or books.
#![tactic(auto)]

ghost use Rattle.std.specs.Prelude.{◌≡◌, Some};
ghost use Rattle.day.specs.Days.{day_in, is_ended, is_open, is_settled, no_day, state_word};

use std::fmt;

/// How far a day has come at an end.
#[derive(Clone, Copy, PartialEq, Eq, Debug, Default)]
pub enum DayState {
    /// No day yet.
    #[default]
    Unset,
    /// Nothing was called and nothing was offered.
    Quiet,
    Called,
    Agreed,
    Disputed,
    /// The dispute has ended with an amount of its own.
    Resolved,
    Offered,
    /// The rest of the offer is given up.
    Released,
    /// The call or the offer is met.
    Satisfied,
}

/// The day in hand.
// `Unset` and not an `Option<Day>`: a booking is one match on state and message, and any day is above number 0.
#[derive(Clone, Copy, PartialEq, Eq, Debug, Default)]
pub struct Day {
    pub state: DayState,
    /// 0 where there is no day yet.
    pub number: u32,
    /// What is called or offered, or what a dispute was resolved to.
    pub amount: u64,
}

impl Day {
    /// No day yet.
    pub fn none() -> Day
        ensures { result ≡ no_day }
    {
        Day::default()
    }

    /// The same day in another state.
    pub fn in_state(&self, state: DayState) -> Day
        ensures { result ≡ day_in self.now state }
    {
        Day { state, ..*self }
    }

    /// Whether a later day may begin.
    pub fn is_ended(&self) -> bool
        ensures { result ≡ is_ended self.now.state }
    {
        matches!(
            self.state,
            DayState::Unset | DayState::Quiet | DayState::Satisfied
        )
    }

    /// Whether deliveries of the day count for it.
    pub fn is_open(&self) -> bool
        ensures { result ≡ is_open self.now.state }
    {
        matches!(
            self.state,
            DayState::Agreed | DayState::Disputed | DayState::Resolved
        )
    }

    /// Whether the day is quiet or satisfied.
    pub fn is_settled(&self) -> bool
        ensures { result ≡ is_settled self.now.state }
    {
        matches!(self.state, DayState::Quiet | DayState::Satisfied)
    }
}

impl fmt::Display for DayState {
    ghost output = { λ state. Some (state_word state) };

    fn fmt<W: fmt::Write>(&self, f: &mut fmt::Formatter<W>) -> fmt::Result {
        f.write_str(match self {
            DayState::Unset => "unset",
            DayState::Quiet => "quiet",
            DayState::Called => "called",
            DayState::Agreed => "agreed",
            DayState::Disputed => "disputed",
            DayState::Resolved => "resolved",
            DayState::Offered => "offered",
            DayState::Released => "released",
            DayState::Satisfied => "satisfied",
        })
    }
}
