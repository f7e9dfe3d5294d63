//! What any valuer means, and reading a row of it.
ghost use Rattle.std.specs.Prelude.{◌≡◌, ℕ, ◌<◌, ℤ, None, Option, slice_index_or};

use annex::Row;
use std::array;

/// Tells, for each day, an exposure and a price for each class; either may be absent.
pub trait Valuer {
    /// The exposure of each day.
    ghost exposures: { Self → ℕ → Option ℤ };

    /// The price of each day and class.
    ghost prices: { Self → ℕ → ℕ → Option ℕ };

    fn exposure(&self, day: u32) -> Option<i64>
        ensures { result ≡ exposures self.now day };

    fn price(&self, day: u32, class: u8) -> Option<u32>
        ensures { result ≡ prices self.now day class };
}

/// The row of a day: what the valuer means for it.
pub fn read_row<V: Valuer>(valuer: &V, day: u32) -> Row
    ensures day { result.day ≡ day }
    ensures exposure { result.exposure ≡ V.Valuer.exposures valuer.now day }
    ensures prices { (c : ℕ) → c < 8 → slice_index_or result.prices c None ≡ V.Valuer.prices valuer.now day c }
{
    Row {
        day,
        exposure: valuer.exposure(day),
        prices: array::from_fn(|class| valuer.price(day, class as u8)),
    }
}
