//! What the pledgor end keeps, as plain values.
ghost use Rattle.std.specs.Prelude.{◌≡◌, ◌<◌};
ghost use Rattle.pledgor.specs.Calls.{with_day, with_lot};

use amounts::{Place, PledgorLot};
use annex::Annex;
use day::{Day, DayState};

/// What the pledgor end keeps.
// A table and a count, and no `ArrayVec`: it is not `Copy` and its clone answers a `Result`, but copying a book
// cannot fail.
#[derive(Clone, Copy)]
pub struct PledgorState {
    pub annex: Annex,
    pub day: Day,
    /// How many lots the pledgor has.
    pub count: u8,
    pub lots: [PledgorLot; 32],
}

impl PledgorState {
    // The same with its day in another state.
    pub(crate) fn with_state(&self, state: DayState) -> PledgorState
        ensures { result ≡ with_day self.now state }
    {
        PledgorState {
            day: self.day.in_state(state),
            ..*self
        }
    }

    // The same with a lot at another place.
    pub(crate) fn with_place(&self, lot: u8, place: Place) -> PledgorState
        requires { lot < 32 }
        ensures { result ≡ with_lot self.now lot place }
    {
        let mut after = *self;
        after.lots[usize::from(lot)].place = place;
        after
    }
}
