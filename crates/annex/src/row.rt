//! What is known of a day: its exposure and its prices. A row can hold unfit numbers, so that it can be
//! refused where it is used.
ghost use Rattle.std.specs.Prelude.{◌≡◌, true, Ok, Err, MatchResult};
ghost use Rattle.std.specs.List.{list_all};
ghost use Rattle.annex.specs.Row.{checked_row, exposure_fits, price_fits, day_fits};

use crate::exposure::Exposure;
use crate::terms::{CLASSES, PAR};
use refusal::Refusal;

const LAST_DAY: u32 = 1_000_000_000;

const LARGEST_EXPOSURE: i64 = 10_000_000_000_000;

const LARGEST_PRICE: u32 = 2 * PAR;

/// One day's exposure and its price for each of the eight classes; either may be absent.
#[derive(Clone, Copy, PartialEq, Eq, Debug)]
pub struct Row {
    /// 1 to 10^9.
    pub day: u32,
    /// What the pledgor would owe if the trades were closed out: -10^13 to 10^13 hundredths.
    pub exposure: Option<i64>,
    /// In hundredths of a percent of face: at most 20,000; 10,000 is par.
    pub prices: [Option<u32>; CLASSES],
}

fn day_fits(day: u32) -> bool
    ensures { result ≡ day_fits day }
{
    (1..=LAST_DAY).contains(&day)
}

/// Whether an exposure is in its range.
pub fn exposure_fits(exposure: i64) -> bool
    ensures { result ≡ exposure_fits exposure }
{
    (-LARGEST_EXPOSURE..=LARGEST_EXPOSURE).contains(&exposure)
}

fn price_fits(price: Option<u32>) -> bool
    ensures { result ≡ price_fits price }
{
    price.is_none_or(|price| price <= LARGEST_PRICE)
}

/// Whether every price is in its range.
pub fn prices_fit(prices: &[Option<u32>; CLASSES]) -> bool
    ensures { result ≡ list_all price_fits prices.now }
{
    prices.iter().all(|price| price_fits(*price))
}

impl Row {
    /// The row's exposure; refused where it is absent, or where a number of the row is out of its range.
    pub fn check(&self) -> Result<Exposure, Refusal>
        ensures { MatchResult result (λ x. checked_row self.now ≡ Ok x.hundredths) (λ e. checked_row self.now ≡ Err e) }
    {
        let exposure = Exposure::try_from(self.exposure.ok_or(Refusal::Row)?)?;
        if day_fits(self.day) && prices_fit(&self.prices) {
            Ok(exposure)
        } else {
            Err(Refusal::Row)
        }
    }
}
