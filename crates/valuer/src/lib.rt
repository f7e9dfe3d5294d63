//! Where a day's exposure and prices come from. Knows nothing of what they are used for.
#![tactic(auto)]

pub mod figures;
pub mod panels;
pub mod reading;
pub mod sheets;

pub use figures::figures_hold;
pub use panels::Panel;
pub use reading::{Valuer, read_row};
pub use sheets::Sheet;
