//! An exposure that was tested once and is in range ever after.
ghost use Rattle.std.specs.Prelude.{◌≡◌, true, false, MatchResult};
ghost use Rattle.annex.specs.Row.{exposure_fits};
ghost use Rattle.refusal.specs.declared.Refusal.TheVariants.{Row};

use crate::row::exposure_fits;
use refusal::Refusal;

/// What the pledgor would owe if the trades were closed out, in its range.
#[derive(Clone, Copy, PartialEq, Eq, Debug)]
pub struct Exposure {
    pub hundredths: i64,
    pub ghost in_range: { exposure_fits hundredths ≡ true },
}

impl TryFrom<i64> for Exposure {
    type Error = Refusal;

    ghost try_from_gives = { λ e r. MatchResult r (λ x. (x.hundredths ≡ e) × (exposure_fits e ≡ true)) (λ f. (f ≡ Row) × (exposure_fits e ≡ false)) };

    fn try_from(hundredths: i64) -> Result<Self, Refusal> {
        if exposure_fits(hundredths) {
            Ok(Exposure { hundredths })
        } else {
            Err(Refusal::Row)
        }
    }
}
