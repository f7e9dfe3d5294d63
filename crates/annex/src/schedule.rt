//! The standard schedule of valuation percentages.
ghost use Rattle.std.specs.Prelude.{◌≡◌, ℕ, ◌<◌, slice_index};
ghost use Rattle.annex.specs.Schedule.{class_percentage, percent};

use crate::terms::{CLASSES, PAR};
use refusal::Refusal;
use std::array;

fn rule(class: u8) -> u32
    requires { class < 8 }
    ensures { result ≡ percent class }
{
    let c = u32::from(class);
    PAR - 25 * c * (c + 1)
}

/// The percentage of a class in the standard schedule; refused where there is no such class.
pub fn standard_percentage(class: u8) -> Result<u32, Refusal>
    ensures { result ≡ class_percentage class }
{
    if usize::from(class) < CLASSES {
        Ok(rule(class))
    } else {
        Err(Refusal::Lot)
    }
}

/// The standard schedule, class by class.
pub fn standard_schedule() -> [u32; CLASSES]
    ensures { (c : ℕ) → c < 8 → slice_index result c ≡ percent c }
{
    array::from_fn(|class| rule(class as u8))
}
