//! Messages as words.
use message::Message;
use std::fmt;
use words::Words;

/// A message by its kind and fields.
pub(crate) fn message(words: &mut Words<'_>) -> Option<Message> {
    let message = match words.next()? {
        "quiet" => Message::Quiet {
            day: words.number()?,
            exposure: words.number()?,
        },
        "call" => Message::Call {
            day: words.number()?,
            exposure: words.number()?,
            amount: words.number()?,
        },
        "offer" => Message::Offer {
            day: words.number()?,
            exposure: words.number()?,
            amount: words.number()?,
        },
        "agree" => Message::Agree {
            day: words.number()?,
        },
        "dispute" => Message::Dispute {
            day: words.number()?,
            amount: words.number()?,
        },
        "resolve" => Message::Resolve {
            day: words.number()?,
            exposure: words.number()?,
            amount: words.number()?,
        },
        "delivery" => Message::Delivery {
            day: words.number()?,
            lot: words.number()?,
            class: words.number()?,
            face: words.number()?,
        },
        "substitute" => Message::Substitute {
            lot: words.number()?,
            class: words.number()?,
            face: words.number()?,
            old: words.number()?,
        },
        "ask" => Message::Ask {
            day: words.number()?,
            lot: words.number()?,
        },
        "return" => Message::Return {
            lot: words.number()?,
        },
        "decline" => Message::Decline {
            lot: words.number()?,
        },
        "satisfied" => Message::Satisfied {
            day: words.number()?,
        },
        "release" => Message::Release {
            day: words.number()?,
        },
        _ => return None,
    };
    Some(message)
}

/// A message as the words that [`message`] reads: the fields alone, as the model outside the library writes
/// them, where a message that prints itself names what it tells.
#[derive(Clone, Copy)]
pub(crate) struct InWords(pub(crate) Message);

impl fmt::Display for InWords {
    fn fmt<W: fmt::Write>(&self, f: &mut fmt::Formatter<W>) -> fmt::Result {
        match self.0 {
            Message::Quiet { day, exposure } => write!(f, "quiet {day} {exposure}"),
            Message::Call {
                day,
                exposure,
                amount,
            } => write!(f, "call {day} {exposure} {amount}"),
            Message::Offer {
                day,
                exposure,
                amount,
            } => write!(f, "offer {day} {exposure} {amount}"),
            Message::Agree { day } => write!(f, "agree {day}"),
            Message::Dispute { day, amount } => write!(f, "dispute {day} {amount}"),
            Message::Resolve {
                day,
                exposure,
                amount,
            } => write!(f, "resolve {day} {exposure} {amount}"),
            Message::Delivery {
                day,
                lot,
                class,
                face,
            } => write!(f, "delivery {day} {lot} {class} {face}"),
            Message::Substitute {
                lot,
                class,
                face,
                old,
            } => write!(f, "substitute {lot} {class} {face} {old}"),
            Message::Ask { day, lot } => write!(f, "ask {day} {lot}"),
            Message::Return { lot } => write!(f, "return {lot}"),
            Message::Decline { lot } => write!(f, "decline {lot}"),
            Message::Satisfied { day } => write!(f, "satisfied {day}"),
            Message::Release { day } => write!(f, "release {day}"),
        }
    }
}
