//! Opening the book.
ghost use Rattle.std.specs.Prelude.{◌≡◌, ◌≤◌, length};
ghost use Rattle.std.specs.List.{list_all};
ghost use Rattle.amounts.specs.Lots.{lot_fits};
ghost use Rattle.pledgor.specs.Books.{plainly};
ghost use Rattle.pledgor.specs.Opening.{opens, table as Table};

use crate::book::PledgorBook;
use crate::state::PledgorState;
use amounts::valuing::MOST_LOTS;
use amounts::{Lot, Place, PledgorLot};
use annex::Annex;
use day::Day;
use refusal::Refusal;

// Whether every lot is in range.
fn all_fit(lots: &[Lot]) -> bool
    ensures { result ≡ list_all lot_fits lots.now }
{
    lots.iter().all(|lot| lot.fits())
}

// The lots, all home, in a table of 32.
fn table(lots: &[Lot]) -> [PledgorLot; 32]
    requires { length lots.now ≤ 32 }
    ensures { result ≡ Table lots.now }
{
    let mut entries = [PledgorLot::default(); 32];
    for (at, lot) in lots.iter().enumerate() {
        entries[at] = PledgorLot {
            place: Place::Home,
            lot: *lot,
        };
    }
    entries
}

impl PledgorBook {
    /// The book on an annex, with these lots, all home; refused where there is a 33rd lot or one is out of
    /// range.
    pub fn open(annex: Annex, lots: &[Lot]) -> Result<PledgorBook, Refusal>
        ensures { plainly result ≡ opens annex lots.now }
    {
        if lots.len() > MOST_LOTS || !all_fit(lots) {
            return Err(Refusal::Lot);
        }
        let state = PledgorState {
            annex,
            day: Day::none(),
            count: lots.len() as u8,
            lots: table(lots),
        };
        Ok(PledgorBook { state })
    }
}
