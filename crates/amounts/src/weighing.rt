//! What is to be delivered or returned at an exposure and a V.
ghost use Rattle.std.specs.Prelude.{◌≡◌, IfOk, Some};
ghost use Rattle.amounts.specs.Amounts.{adjusted as Adjusted, amounts_of, Balanced, Covered, credit_support, due_amount, due_or, notice_of, weighed};
ghost use Rattle.amounts.specs.Words.{notice_words};

use annex::{Annex, Exposure};
use refusal::Refusal;
use std::fmt;

/// What the secured party has to notify of a day.
#[derive(Clone, Copy, PartialEq, Eq, Debug)]
pub enum Notice {
    Quiet,
    /// The pledgor is called for this amount.
    Call { amount: u64 },
    /// The pledgor is offered this amount back.
    Offer { amount: u64 },
}

impl fmt::Display for Notice {
    ghost output = { λ notice. Some (notice_words notice) };

    fn fmt<W: fmt::Write>(&self, f: &mut fmt::Formatter<W>) -> fmt::Result {
        match *self {
            Notice::Quiet => f.write_str("quiet"),
            Notice::Call { amount } => write!(f, "call {amount}"),
            Notice::Offer { amount } => write!(f, "offer {amount}"),
        }
    }
}

/// The amounts of a day.
#[derive(Clone, Copy, PartialEq, Eq, Debug)]
pub struct Amounts {
    /// The Credit Support Amount: what the collateral should be worth.
    pub support: u64,
    /// The Delivery Amount: what is short of it.
    pub delivery: u64,
    /// The Return Amount: what exceeds it.
    pub excess: u64,
    pub notice: Notice,
}

/// Exposure and the pledgor's independent amount, less the secured party's.
// Annex and exposure stand side by side here: each function is one of the rules' definitions.
#[tactic(auto, using(crate::proofs::Exact::adjusted_exact))]
pub fn adjusted(annex: &Annex, exposure: Exposure) -> i64
    ensures { result ≡ Adjusted annex.now.terms exposure.hundredths }
{
    let terms = &annex.terms;
    exposure.hundredths + terms.pledgor_independent as i64 - terms.secured_independent as i64
}

// What is left of that after the threshold, or zero.
fn credit_support(annex: &Annex, exposure: Exposure) -> u64
    ensures { result ≡ credit_support annex.now.terms exposure.hundredths }
{
    (adjusted(annex, exposure) - annex.terms.threshold as i64).max(0) as u64
}

// A call from the pledgor's minimum on, an offer from the secured party's on, else quiet.
fn decide(annex: &Annex, delivery: u64, excess: u64) -> Notice
    ensures { result ≡ notice_of annex.now.terms delivery excess }
{
    if delivery >= annex.terms.pledgor_minimum {
        Notice::Call { amount: delivery }
    } else if excess >= annex.terms.secured_minimum {
        Notice::Offer { amount: excess }
    } else {
        Notice::Quiet
    }
}

/// The amounts at an exposure and a V, and what is to be notified.
#[tactic(auto, using(crate::proofs::Balance::balanced, crate::proofs::Balance::covered))]
pub fn amounts_of(annex: &Annex, exposure: Exposure, v: u64) -> Amounts
    ensures amounts { result ≡ amounts_of annex.now.terms exposure.hundredths v }
    ensures balanced { Balanced v result }
    ensures covered { Covered annex.now.terms exposure.hundredths v result }
{
    let support = credit_support(annex, exposure);
    let delivery = support.saturating_sub(v);
    let excess = v.saturating_sub(support);
    Amounts {
        support,
        delivery,
        excess,
        notice: decide(annex, delivery, excess),
    }
}

/// The amounts at an exposure and a V, and what is to be notified; refused where the exposure is out of
/// range.
pub fn weigh(annex: &Annex, exposure: i64, v: u64) -> Result<Amounts, Refusal>
    ensures answer { result ≡ weighed annex.now.terms exposure v }
    ensures balanced { IfOk result (λ a. Balanced v a) }
    ensures covered { IfOk result (λ a. Covered annex.now.terms exposure v a) }
{
    let exposure = Exposure::try_from(exposure)?;
    Ok(amounts_of(annex, exposure, v))
}

/// What is called for at an exposure and a V: the Delivery Amount, or zero below the pledgor's minimum.
pub fn amount_due(annex: &Annex, exposure: Exposure, v: u64) -> u64
    ensures { result ≡ due_amount annex.now.terms exposure.hundredths v }
{
    let delivery = credit_support(annex, exposure).saturating_sub(v);
    if annex.terms.pledgor_minimum <= delivery {
        delivery
    } else {
        0
    }
}

/// What is called for at an exposure and a V: the Delivery Amount, or zero below the pledgor's minimum;
/// refused where the exposure is out of range.
pub fn due(annex: &Annex, exposure: i64, v: u64) -> Result<u64, Refusal>
    ensures { result ≡ due_or annex.now.terms exposure v }
{
    let exposure = Exposure::try_from(exposure)?;
    Ok(amount_due(annex, exposure, v))
}
