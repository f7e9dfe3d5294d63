//! What the book shows.
ghost use Rattle.std.specs.Prelude.{◌≡◌};
ghost use Rattle.pledgor.specs.Lots.{lot_at, position as Position};

use crate::book::PledgorBook;
use amounts::{Lot, Place, PledgorLot};
use day::Day;

impl PledgorBook {
    /// The day in hand.
    pub fn day(&self) -> Day
        ensures { result ≡ self.now.state.day }
    {
        self.state.day
    }

    /// How many lots the pledgor has, numbered from 0.
    pub fn count(&self) -> u8
        ensures { result ≡ self.now.state.count }
    {
        self.state.count
    }

    /// The entry of a lot; home, of class 0 and face 0, past the pledgor's own.
    // No Option: a table has 32 entries at either end, and the two are compared entry by entry.
    pub fn lot(&self, lot: u8) -> PledgorLot
        ensures { result ≡ lot_at self.now.state lot }
    {
        self.state
            .lots
            .get(usize::from(lot))
            .copied()
            .unwrap_or_default()
    }

    /// The lot's class and face, where it is in the position: posted or asked.
    pub fn position(&self, lot: u8) -> Option<Lot>
        ensures { result ≡ Position self.now.state lot }
    {
        let entry = self.lot(lot);
        match entry.place {
            Place::Home => None,
            Place::Posted | Place::Asked => Some(entry.lot),
        }
    }
}
