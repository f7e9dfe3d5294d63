//! What the secured end keeps, as plain values.
ghost use Rattle.std.specs.Prelude.{◌≡◌};
ghost use Rattle.day.specs.Days.{day_in};
ghost use Rattle.secured.specs.Calls.{with_day};

use amounts::{Notice, SecuredLot};
use annex::{Annex, Row};
use day::{Day, DayState};

/// What the secured end keeps.
#[derive(Clone, Copy)]
pub struct SecuredState {
    pub annex: Annex,
    /// The row last notified.
    pub row: Row,
    /// The exposure last notified or resolved.
    pub exposure: i64,
    pub day: Day,
    /// V at notifying.
    pub before: u64,
    /// The Values of the day's deliveries that count for it.
    pub delivered: u64,
    /// The Values of the lots freed under the day's offer.
    pub freed: u64,
    pub lots: [SecuredLot; 32],
}

impl SecuredState {
    // The same with its day in another state.
    pub(crate) fn with_state(&self, state: DayState) -> SecuredState
        ensures { result ≡ with_day self.now self.now.exposure (day_in self.now.day state) }
    {
        let mut after = *self;
        after.day = self.day.in_state(state);
        after
    }
}

/// What a row comes to.
#[derive(Clone, Copy)]
pub struct Weighing {
    pub exposure: i64,
    /// V by the row.
    pub value: u64,
    pub notice: Notice,
}

/// What weighing a row found: it has to be notified or set aside.
pub struct Finding {
    pub(crate) day: u32,
    pub(crate) notice: Notice,
}
