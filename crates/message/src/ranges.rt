//! The ranges of the fields, each under its own name, and the first field that is out of its own. They are the
//! format's: a message knows nothing of the annex, whose days and exposures have equal ranges.
ghost use Rattle.std.specs.Prelude.{◌≡◌};
ghost use Rattle.message.specs.Ranges.{amount_fits, class_fits, day_fits, exposure_fits, face_fits, first_unfit, lot_fits};

pub const LAST_DAY: u32 = 1_000_000_000;

pub const LARGEST_EXPOSURE: i64 = 10_000_000_000_000;

pub const LARGEST_AMOUNT: u64 = 20_000_000_000_000;

pub const LAST_LOT: u8 = 31;

pub const LAST_CLASS: u8 = 7;

pub const LARGEST_FACE: u64 = 10_000_000_000;

pub fn day_fits(day: u32) -> bool
    ensures { result ≡ day_fits day }
{
    (1..=LAST_DAY).contains(&day)
}

pub fn exposure_fits(exposure: i64) -> bool
    ensures { result ≡ exposure_fits exposure }
{
    (-LARGEST_EXPOSURE..=LARGEST_EXPOSURE).contains(&exposure)
}

/// Whether an amount, of a kind that allows it from `least` on, is in range.
pub fn amount_fits(least: u64, amount: u64) -> bool
    ensures { result ≡ amount_fits least amount }
{
    (least..=LARGEST_AMOUNT).contains(&amount)
}

pub fn lot_fits(lot: u8) -> bool
    ensures { result ≡ lot_fits lot }
{
    lot <= LAST_LOT
}

pub fn class_fits(class: u8) -> bool
    ensures { result ≡ class_fits class }
{
    class <= LAST_CLASS
}

pub fn face_fits(face: u64) -> bool
    ensures { result ≡ face_fits face }
{
    (1..=LARGEST_FACE).contains(&face)
}

/// The first position whose field does not fit.
pub fn first_unfit(fields: &[(usize, bool)]) -> Option<usize>
    ensures { result ≡ first_unfit fields.now }
{
    let (position, _) = fields.iter().find(|(_, fits)| !*fits)?;
    Some(*position)
}
