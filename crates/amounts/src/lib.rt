//! What lots are worth, and what is to be delivered or returned on a day. Knows nothing of days' states,
//! messages or ends.
#![tactic(auto)]

pub mod lots;
pub mod valuing;
pub mod weighing;

pub use lots::{Holding, Lot, Place, PledgorLot, SecuredLot, UnknownPlace};
pub use valuing::{total, value};
pub use weighing::{Amounts, Notice, adjusted, amount_due, amounts_of, due, weigh};
