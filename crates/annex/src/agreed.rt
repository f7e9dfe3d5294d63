//! Terms that were tested once and are in range ever after.
ghost use Rattle.std.specs.Prelude.{◌≡◌, true};
ghost use Rattle.annex.specs.Terms.{terms_fit};

use crate::terms::Terms;

mod opens;

/// Agreed terms: every number is in its range.
#[derive(Clone, Copy, PartialEq, Eq, Debug)]
pub struct Annex {
    pub terms: Terms,
    pub ghost fit: { terms_fit terms ≡ true },
}
