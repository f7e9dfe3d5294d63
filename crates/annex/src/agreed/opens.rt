//! Opening an annex on terms.
ghost use Rattle.std.specs.Prelude.{◌≡◌, true, false, MatchResult};
ghost use Rattle.std.specs.List.{list_all};
ghost use Rattle.annex.specs.Terms.{percentage_fits, terms_fit};
ghost use Rattle.refusal.specs.declared.Refusal.TheVariants.{Opening};

use crate::agreed::Annex;
use crate::terms::{CLASSES, PAR, Terms};
use refusal::Refusal;

const LARGEST_THRESHOLD: u64 = 10_000_000_000_000;

const LARGEST_MINIMUM: u64 = 1_000_000_000_000;

const LARGEST_INDEPENDENT: u64 = 1_000_000_000_000;

fn percentages_fit(percentages: &[u32; CLASSES]) -> bool
    ensures { result ≡ list_all percentage_fits percentages.now }
{
    percentages.iter().all(|percentage| *percentage <= PAR)
}

fn terms_fit(terms: &Terms) -> bool
    ensures { result ≡ terms_fit terms.now }
{
    terms.threshold <= LARGEST_THRESHOLD
        && (1..=LARGEST_MINIMUM).contains(&terms.pledgor_minimum)
        && (1..=LARGEST_MINIMUM).contains(&terms.secured_minimum)
        && terms.pledgor_independent <= LARGEST_INDEPENDENT
        && terms.secured_independent <= LARGEST_INDEPENDENT
        && percentages_fit(&terms.percentages)
}

impl Annex {
    /// The annex on these terms; refused where a number is out of its range.
    pub fn open(terms: Terms) -> Result<Annex, Refusal>
        ensures { MatchResult result (λ a. (a.terms ≡ terms) × (terms_fit terms ≡ true)) (λ e. (e ≡ Opening) × (terms_fit terms ≡ false)) }
    {
        if terms_fit(&terms) {
            Ok(Annex { terms })
        } else {
            Err(Refusal::Opening)
        }
    }

    /// The terms that were agreed.
    pub fn terms(&self) -> Terms
        ensures { (result ≡ self.now.terms) × (terms_fit result ≡ true) }
    {
        self.terms
    }
}
