//! Opening the book.
ghost use Rattle.std.specs.Prelude.{◌≡◌};
ghost use Rattle.secured.specs.Opening.{opened};

use crate::book::SecuredBook;
use crate::state::SecuredState;
use amounts::SecuredLot;
use annex::{Annex, Row};
use day::Day;

impl SecuredBook {
    /// The book on an annex: no day, and every lot absent.
    pub fn open(annex: Annex) -> SecuredBook
        ensures { result.state ≡ opened annex }
    {
        let state = SecuredState {
            annex,
            // No row yet, and so no exposure: without prices every Value is 0.
            row: Row {
                day: 0,
                exposure: None,
                prices: [None; 8],
            },
            exposure: 0,
            day: Day::none(),
            before: 0,
            delivered: 0,
            freed: 0,
            lots: [SecuredLot::Absent; 32],
        };
        SecuredBook { state }
    }
}
