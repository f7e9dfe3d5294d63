//! What the two ends tell each other: the kinds of message, which end sends each, and the ranges of
//! their fields. Knows nothing of frames, ends and books.
#![tactic(auto)]

ghost use Rattle.std.specs.Prelude.{◌≡◌, Some};
ghost use Rattle.message.specs.Kinds.{from_secured, kind_of};
ghost use Rattle.message.specs.Ranges.{unfit_money, unfit_of};
ghost use Rattle.message.specs.Words.{words_of};

use crate::ranges::{
    amount_fits, class_fits, day_fits, exposure_fits, face_fits, first_unfit, lot_fits,
};
use std::fmt;

pub mod ranges;

/// A message. Amounts, faces and exposures are whole hundredths of the base currency.
#[derive(Clone, Copy, PartialEq, Eq, Debug)]
pub enum Message {
    /// Nothing is called and nothing is offered.
    Quiet {
        day: u32,
        exposure: i64,
    },
    /// Collateral of this amount is called.
    Call {
        day: u32,
        exposure: i64,
        amount: u64,
    },
    /// Collateral of this amount is offered back.
    Offer {
        day: u32,
        exposure: i64,
        amount: u64,
    },
    /// The call is agreed to.
    Agree {
        day: u32,
    },
    /// The call is disputed; this much of it is not.
    Dispute {
        day: u32,
        amount: u64,
    },
    /// The dispute ends with this exposure and amount.
    Resolve {
        day: u32,
        exposure: i64,
        amount: u64,
    },
    /// A lot is delivered.
    Delivery {
        day: u32,
        lot: u8,
        class: u8,
        face: u64,
    },
    /// A new lot is delivered, and the old one is asked back for it.
    Substitute {
        lot: u8,
        class: u8,
        face: u64,
        old: u8,
    },
    /// A lot is asked back under an offer.
    Ask {
        day: u32,
        lot: u8,
    },
    /// An asked lot comes back.
    Return {
        lot: u8,
    },
    /// An asked lot stays.
    Decline {
        lot: u8,
    },
    /// The day's call or offer is met.
    Satisfied {
        day: u32,
    },
    /// The rest of the offer is given up.
    Release {
        day: u32,
    },
}

impl Message {
    /// The number of the kind, the first byte of a body.
    // The format's byte: an enum of the kinds would be `Message` again.
    pub fn kind(&self) -> u8
        ensures { result ≡ kind_of self.now }
    {
        match *self {
            Message::Quiet { .. } => 0x01,
            Message::Call { .. } => 0x02,
            Message::Offer { .. } => 0x03,
            Message::Agree { .. } => 0x04,
            Message::Dispute { .. } => 0x05,
            Message::Resolve { .. } => 0x06,
            Message::Delivery { .. } => 0x07,
            Message::Substitute { .. } => 0x08,
            Message::Ask { .. } => 0x09,
            Message::Return { .. } => 0x0A,
            Message::Decline { .. } => 0x0B,
            Message::Satisfied { .. } => 0x0C,
            Message::Release { .. } => 0x0E,
        }
    }

    /// Whether the secured end sends this kind; the pledgor end sends every other.
    pub fn is_from_secured(&self) -> bool
        ensures { result ≡ from_secured self.now }
    {
        matches!(
            *self,
            Message::Quiet { .. }
                | Message::Call { .. }
                | Message::Offer { .. }
                | Message::Resolve { .. }
                | Message::Return { .. }
                | Message::Decline { .. }
                | Message::Satisfied { .. }
        )
    }

    /// The position in the body of the first field that is out of its range.
    // An Option: who reads, writes or admits makes a refusal of its own of the position.
    pub fn unfit(&self) -> Option<usize>
        ensures { result ≡ unfit_of self.now }
    {
        match *self {
            Message::Quiet { day, exposure } => {
                first_unfit(&[(1, day_fits(day)), (5, exposure_fits(exposure))])
            }
            // Two arms alike: a pattern that binds an `i64` in each of its alternatives gets no proof.
            Message::Call {
                day,
                exposure,
                amount,
            } => unfit_money(day, exposure, 1, amount),
            Message::Offer {
                day,
                exposure,
                amount,
            } => unfit_money(day, exposure, 1, amount),
            Message::Resolve {
                day,
                exposure,
                amount,
            } => unfit_money(day, exposure, 0, amount),
            Message::Agree { day } | Message::Satisfied { day } | Message::Release { day } => {
                first_unfit(&[(1, day_fits(day))])
            }
            Message::Dispute { day, amount } => {
                first_unfit(&[(1, day_fits(day)), (5, amount_fits(0, amount))])
            }
            Message::Delivery {
                day,
                lot,
                class,
                face,
            } => first_unfit(&[
                (1, day_fits(day)),
                (5, lot_fits(lot)),
                (6, class_fits(class)),
                (7, face_fits(face)),
            ]),
            Message::Substitute {
                lot,
                class,
                face,
                old,
            } => first_unfit(&[
                (1, lot_fits(lot)),
                (2, class_fits(class)),
                (3, face_fits(face)),
                (11, lot_fits(old)),
            ]),
            Message::Ask { day, lot } => first_unfit(&[(1, day_fits(day)), (5, lot_fits(lot))]),
            Message::Return { lot } | Message::Decline { lot } => {
                first_unfit(&[(1, lot_fits(lot))])
            }
        }
    }
}

/// What the message says to a reader, on one line.
impl fmt::Display for Message {
    ghost output = { λ message. Some (words_of message) };

    fn fmt<W: fmt::Write>(&self, f: &mut fmt::Formatter<W>) -> fmt::Result {
        match *self {
            Message::Quiet { day, exposure } => write!(f, "quiet day {day} exposure {exposure}"),
            Message::Call {
                day,
                exposure,
                amount,
            } => write!(f, "call day {day} exposure {exposure} amount {amount}"),
            Message::Offer {
                day,
                exposure,
                amount,
            } => write!(f, "offer day {day} exposure {exposure} amount {amount}"),
            Message::Agree { day } => write!(f, "agree day {day}"),
            Message::Dispute { day, amount } => write!(f, "dispute day {day} undisputed {amount}"),
            Message::Resolve {
                day,
                exposure,
                amount,
            } => write!(f, "resolve day {day} exposure {exposure} amount {amount}"),
            Message::Delivery {
                day,
                lot,
                class,
                face,
            } => write!(f, "delivery day {day} lot {lot} class {class} face {face}"),
            Message::Substitute {
                lot,
                class,
                face,
                old,
            } => write!(
                f,
                "substitute lot {lot} class {class} face {face} for lot {old}"
            ),
            Message::Ask { day, lot } => write!(f, "ask day {day} lot {lot}"),
            Message::Return { lot } => write!(f, "return lot {lot}"),
            Message::Decline { lot } => write!(f, "decline lot {lot}"),
            Message::Satisfied { day } => write!(f, "satisfied day {day}"),
            Message::Release { day } => write!(f, "release day {day}"),
        }
    }
}

fn unfit_money(day: u32, exposure: i64, least: u64, amount: u64) -> Option<usize>
    ensures { result ≡ unfit_money day exposure least amount }
{
    first_unfit(&[
        (1, day_fits(day)),
        (5, exposure_fits(exposure)),
        (13, amount_fits(least, amount)),
    ])
}
