//! What lots are worth on a day.
ghost use Rattle.std.specs.Prelude.{◌≡◌, ℕ, ◌*◌, ◌<◌, ◌≤◌, true, IfOk};
ghost use Rattle.std.specs.List.{list_all};
ghost use Rattle.annex.specs.Row.{price_fits};
ghost use Rattle.amounts.specs.Lots.{counted_fits, lot_fits, table_fits as TableFits};
ghost use Rattle.amounts.specs.Value.{lot_value, total_of, totalled, value_of, valued};

use crate::lots::{Holding, Lot};
use annex::row::prices_fit;
use annex::{Annex, Row};
use refusal::Refusal;

/// The most lots that a table may have.
pub const MOST_LOTS: usize = 32;

// What a face is worth at a price and a percentage.
fn worth(face: u64, price: Option<u32>, percentage: u32) -> u64
    requires face_fits { face ≤ 10000000000 }
    requires price_fits { price_fits price ≡ true }
    requires percentage_fits { percentage ≤ 10000 }
    ensures { result ≡ value_of face price percentage }
{
    match price {
        Some(p) => face * u64::from(p) * u64::from(percentage) / 100_000_000,
        None => 0,
    }
}

// What a fit lot is worth by a fit row.
#[tactic(auto, using(crate::proofs::Values::lot_value_within))]
fn lot_value(annex: &Annex, row: &Row, lot: &Lot) -> u64
    requires prices_fit { list_all price_fits row.now.prices ≡ true }
    requires lot_fits { lot_fits lot.now ≡ true }
    ensures value { result ≡ lot_value annex.now.terms row.now lot.now }
    ensures bound { result ≤ 2 * lot.now.face }
{
    let class = usize::from(lot.class);
    worth(lot.face, row.prices[class], annex.terms.percentages[class])
}

// Annex and row stand side by side: one type of both would test prices before the lot, whose refusal comes first.

/// The Value of a lot by a row: face × price × percentage, rounded down once, and zero without a price.
/// Refused where the lot is out of range, then where a price is.
pub fn value(annex: &Annex, row: &Row, lot: &Lot) -> Result<u64, Refusal>
    ensures answer { result ≡ valued annex.now.terms row.now lot.now }
    ensures bound { IfOk result (λ v. v ≤ 2 * lot.now.face) }
{
    if !lot.fits() {
        return Err(Refusal::Lot);
    }
    if !prices_fit(&row.prices) {
        return Err(Refusal::Row);
    }
    Ok(lot_value(annex, row, lot))
}

// Whether the lots that count are in range.
fn all_fit<H: Holding>(lots: &[H]) -> bool
    ensures { result ≡ list_all (λ h. counted_fits (H.Holding.counts h)) lots.now }
{
    lots.iter()
        .all(|entry| entry.counted().is_none_or(|lot| lot.fits()))
}

// Whether there are at most 32 lots, and those that count are in range.
fn table_fits<H: Holding>(lots: &[H]) -> bool
    ensures { result ≡ TableFits H.Holding.counts lots.now }
{
    lots.len() <= MOST_LOTS && all_fit(lots)
}

// The sum of the Values of all lots that count, each lot once. One `for` over the table is how both ends sum V: a
// chain's `sum` would leave the bound on the partial sums open.
fn sum<H: Holding>(annex: &Annex, row: &Row, lots: &[H]) -> u64
    requires prices_fit { list_all price_fits row.now.prices ≡ true }
    requires table_fits { TableFits H.Holding.counts lots.now ≡ true }
    ensures value { result ≡ total_of H.Holding.counts annex.now.terms row.now lots.now }
    ensures bound { result ≤ 640000000000 }
{
    let mut sum = 0;
    for entry in lots {
        if let Some(lot) = entry.counted() {
            sum += lot_value(annex, row, &lot);
        }
    }
    sum
}

/// V: the sum of the Values of all lots of a table that count, each lot once. Refused where there are more
/// than 32 lots or one that counts is out of range, then where a price is.
pub fn total<H: Holding>(annex: &Annex, row: &Row, lots: &[H]) -> Result<u64, Refusal>
    ensures answer { result ≡ totalled H.Holding.counts annex.now.terms row.now lots.now }
    ensures bound { IfOk result (λ v. v ≤ 640000000000) }
{
    if !table_fits(lots) {
        return Err(Refusal::Lot);
    }
    if !prices_fit(&row.prices) {
        return Err(Refusal::Row);
    }
    Ok(sum(annex, row, lots))
}
