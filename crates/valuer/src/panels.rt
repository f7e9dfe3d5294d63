//! One day's mid-market quotes, over the caller's numbers.
ghost use Rattle.std.specs.Prelude.{◌≡◌, true, false, None, MatchResult};
ghost use Rattle.std.specs.List.{list_all};
ghost use Rattle.annex.specs.Row.{exposure_fits};
ghost use Rattle.refusal.specs.declared.Refusal.TheVariants.{Row};
ghost use Rattle.valuer.specs.Meaning.{mean_of, panel_exposure, quotes_fit};

use crate::reading::Valuer;
use annex::row::exposure_fits;
use refusal::Refusal;

/// The quotes of one day, at most four, side by side. It has no prices.
#[derive(Drop)]
pub struct Panel<'a> {
    day: u32,
    quotes: &'a [i64],
    ghost fit: { quotes_fit quotes.now ≡ true },
}

/// The most quotes that a panel may have.
pub const MOST_QUOTES: usize = 4;

fn all_fit(quotes: &[i64]) -> bool
    ensures { result ≡ list_all exposure_fits quotes.now }
{
    quotes.iter().all(|quote| exposure_fits(*quote))
}

// Whether there are at most four quotes, each in the range of an exposure.
fn quotes_fit(quotes: &[i64]) -> bool
    ensures { result ≡ quotes_fit quotes.now }
{
    quotes.len() <= MOST_QUOTES && all_fit(quotes)
}

// The mean, rounded down; none without quotes.
fn mean(quotes: &[i64]) -> Option<i64>
    requires { quotes_fit quotes.now ≡ true }
    ensures { result ≡ mean_of quotes.now }
{
    if quotes.is_empty() {
        return None;
    }
    // A `for`: tried as a chain, whose `sum` of signed numbers left the bound on the partial sums open.
    let mut sum = 0;
    for quote in quotes {
        sum += *quote;
    }
    Some(sum.div_euclid(quotes.len() as i64))
}

impl<'a> Panel<'a> {
    /// The panel of these quotes; refused where there is a fifth, or where one is out of range.
    pub fn open(day: u32, quotes: &'a [i64]) -> Result<Self, Refusal>
        ensures { MatchResult result (λ p. (quotes_fit quotes.now ≡ true) × (p.day ≡ day) × (p.quotes.now ≡ quotes.now)) (λ e. (e ≡ Row) × (quotes_fit quotes.now ≡ false)) }
    {
        if quotes_fit(quotes) {
            Ok(Panel { day, quotes })
        } else {
            Err(Refusal::Row)
        }
    }
}

impl Valuer for Panel<'_> {
    ghost exposures = { λ s day. panel_exposure s.day s.quotes.now day };

    ghost prices = { λ s day class. None };

    fn exposure(&self, day: u32) -> Option<i64> {
        if self.day == day {
            mean(self.quotes)
        } else {
            None
        }
    }

    fn price(&self, day: u32, class: u8) -> Option<u32> {
        None
    }
}
