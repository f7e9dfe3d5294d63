//! What the book shows.
ghost use Rattle.std.specs.Prelude.{◌≡◌, ◌≤◌};
ghost use Rattle.secured.specs.Lots.{lot_at, position as Position, value_now};
ghost use Rattle.secured.specs.Sound.{Covered, uncovered as Uncovered};

use crate::book::SecuredBook;
use amounts::{Lot, SecuredLot, adjusted, total};
use annex::Exposure;
use day::Day;

impl SecuredBook {
    /// The day in hand. While it is quiet or satisfied, uncovered exposure is below the threshold and the
    /// pledgor's minimum together.
    pub fn day(&self) -> Day
        ensures day { result ≡ self.now.state.day }
        ensures covered { Covered self.now.state }
    {
        self.state.day
    }

    /// The Values of the day's deliveries that count for it.
    pub fn delivered(&self) -> u64
        ensures { result ≡ self.now.state.delivered }
    {
        self.state.delivered
    }

    /// The Values of the lots freed under the day's offer.
    pub fn freed(&self) -> u64
        ensures { result ≡ self.now.state.freed }
    {
        self.state.freed
    }

    /// V by the row last notified.
    pub fn value(&self) -> u64
        ensures value { result ≡ value_now self.now.state }
        ensures bound { result ≤ 640000000000 }
    {
        total(&self.state.annex, &self.state.row, &self.state.lots).unwrap()
    }

    /// The exposure last notified or resolved, plus the pledgor's less the secured party's independent
    /// amount, less V by the row last notified. While the day is quiet or satisfied, it is below the
    /// threshold and the pledgor's minimum together.
    pub fn uncovered(&self) -> i64
        ensures amount { result ≡ Uncovered self.now.state }
        ensures covered { Covered self.now.state }
    {
        let exposure = Exposure {
            hundredths: self.state.exposure,
        };
        adjusted(&self.state.annex, exposure) - self.value() as i64
    }

    /// The entry of a lot; absent past the table.
    pub fn lot(&self, lot: u8) -> SecuredLot
        ensures { result ≡ lot_at self.now.state lot }
    {
        self.state
            .lots
            .get(usize::from(lot))
            .copied()
            .unwrap_or(SecuredLot::Absent)
    }

    /// The lot's class and face, where it is in the position: all but absent.
    pub fn position(&self, lot: u8) -> Option<Lot>
        ensures { result ≡ Position self.now.state lot }
    {
        self.lot(lot).lot()
    }
}
