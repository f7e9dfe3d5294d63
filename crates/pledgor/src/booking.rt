//! What a message of the secured end does to the book.
ghost use Rattle.std.specs.Prelude.{◌≡◌, IfSome, if◌then◌else◌};
ghost use Rattle.std.specs.Option.{option_map};
ghost use Rattle.pledgor.specs.Bookings.{booked, books, fits};
ghost use Rattle.pledgor.specs.Changes.{changed, InTable};

use crate::book::PledgorBook;
use crate::state::PledgorState;
use amounts::Place;
use day::{Day, DayState};
use message::Message;

// What a message that fits changes. Not the state after it: the whole book would be copied for each message.
#[derive(Clone, Copy)]
enum Change {
    // The day in hand.
    Told(Day),
    // The place of a lot.
    Moved { lot: u8, place: Place },
}

impl PledgorState {
    // Makes a change in place.
    fn make(&mut self, change: Change)
        requires { InTable change }
        ensures { self.new ≡ changed self.old change }
    {
        match change {
            Change::Told(day) => {
                self.day = day;
            }
            Change::Moved { lot, place } => {
                self.lots[usize::from(lot)].place = place;
            }
        }
    }
}

impl PledgorBook {
    // What a message of the secured end changes, if it fits: that depends on the day's state and the message
    // together.
    fn booked(&self, message: Message) -> Option<Change>
        ensures after { option_map (changed self.now.state) result ≡ booked self.now.state message }
        ensures in_table { IfSome result InTable }
    {
        let state = &self.state;
        // The pair is bound first: with guards on a pair that is built in the match, no proof was found.
        let both = (state.day.state, message);
        let day = match both {
            (DayState::Unset | DayState::Quiet | DayState::Satisfied, Message::Quiet { day, .. })
                if day > state.day.number => {
                Day {
                    state: DayState::Quiet,
                    number: day,
                    amount: 0,
                }
            }
            (
                DayState::Unset | DayState::Quiet | DayState::Satisfied,
                Message::Call { day, amount, .. },
            ) if day > state.day.number => {
                Day {
                    state: DayState::Called,
                    number: day,
                    amount,
                }
            }
            (
                DayState::Unset | DayState::Quiet | DayState::Satisfied,
                Message::Offer { day, amount, .. },
            ) if day > state.day.number => {
                Day {
                    state: DayState::Offered,
                    number: day,
                    amount,
                }
            }
            (DayState::Disputed, Message::Resolve { day, amount, .. }) if day == state.day.number =>
                {
                    Day {
                        amount,
                        ..state.day.in_state(DayState::Resolved)
                    }
                }
            (DayState::Agreed | DayState::Resolved | DayState::Released, Message::Satisfied { day })
                if day == state.day.number => { state.day.in_state(DayState::Satisfied) }
            (_, Message::Return { lot }) if self.is_at(lot, Place::Asked) => {
                return Some(Change::Moved {
                    lot,
                    place: Place::Home,
                });
            }
            (_, Message::Decline { lot }) if self.is_at(lot, Place::Asked) => {
                return Some(Change::Moved {
                    lot,
                    place: Place::Posted,
                });
            }
            _ => return None,
        };
        Some(Change::Told(day))
    }

    /// Books a message of the secured end and tells whether it fits; one that does not changes nothing.
    // A bool, as of a set's `insert`: whether the call changed anything.
    pub fn book(&mut self, message: Message) -> bool
        ensures answer { result ≡ fits self.old.state message }
        ensures after { self.new.state ≡ (if fits self.old.state message then books self.old.state message else self.old.state) }
    {
        match self.booked(message) {
            Some(change) => {
                self.state.make(change);
                true
            }
            None => false,
        }
    }
}
