//! A table of rows, over the caller's rows.
ghost use Rattle.std.specs.Prelude.{◌≡◌};
ghost use Rattle.valuer.specs.Meaning.{exposure_of, price_of, row_in};

use crate::reading::Valuer;
use annex::Row;

/// A table of rows, of which the first of a day decides.
#[derive(Drop)]
pub struct Sheet<'a> {
    rows: &'a [Row],
}

impl<'a> Sheet<'a> {
    /// The sheet of these rows.
    pub fn new(rows: &'a [Row]) -> Self
        ensures { result.rows.now ≡ rows.now }
    {
        Sheet { rows }
    }

    // The first row of a day.
    fn row_of(&self, day: u32) -> Option<Row>
        ensures { result ≡ row_in self.now.rows.now day }
    {
        self.rows.iter().copied().find(|row| row.day == day)
    }
}

impl Valuer for Sheet<'_> {
    ghost exposures = { λ s day. exposure_of (row_in s.rows.now day) };

    ghost prices = { λ s day class. price_of (row_in s.rows.now day) class };

    fn exposure(&self, day: u32) -> Option<i64> {
        self.row_of(day)?.exposure
    }

    fn price(&self, day: u32, class: u8) -> Option<u32> {
        let row = self.row_of(day)?;
        *row.prices.get(usize::from(class))?
    }
}
