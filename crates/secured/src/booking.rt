//! What a message of the pledgor does to the book.
ghost use Rattle.std.specs.Prelude.{◌≡◌, ◌≤◌, true, IfSome, if◌then◌else◌};
ghost use Rattle.std.specs.Option.{option_map};
ghost use Rattle.amounts.specs.Lots.{lot_fits};
ghost use Rattle.message.specs.declared.Message.TheVariants.{Delivery, Substitute, Ask};
ghost use Rattle.secured.specs.Bookings.{booked, books, fits};
ghost use Rattle.secured.specs.Changes.{changed, InTable};
ghost use Rattle.secured.specs.Lots.{worth as Worth};

use crate::book::SecuredBook;
use crate::state::SecuredState;
use amounts::{Lot, SecuredLot, value};
use day::DayState;
use message::Message;

// What a message that fits changes. Not the state after it: the whole book would be copied for each message.
#[derive(Clone, Copy)]
enum Change {
    // The state of the day in hand.
    Answered(DayState),
    // A lot that is held from now on, and the delivered sum.
    Delivered {
        lot: u8,
        new: Lot,
        delivered: u64,
    },
    // A lot that is held from now on, and the entry of its old one.
    Substituted {
        lot: u8,
        new: Lot,
        old: u8,
        entry: SecuredLot,
    },
    // The entry of a lot, and the freed sum.
    Asked {
        lot: u8,
        entry: SecuredLot,
        freed: u64,
    },
}

impl SecuredState {
    // Makes a change in place.
    fn make(&mut self, change: Change)
        requires { InTable change }
        ensures { self.new ≡ changed self.old change }
    {
        match change {
            Change::Answered(state) => {
                self.day.state = state;
            }
            Change::Delivered {
                lot,
                new,
                delivered,
            } => {
                self.lots[usize::from(lot)] = SecuredLot::Held(new);
                self.delivered = delivered;
            }
            Change::Substituted {
                lot,
                new,
                old,
                entry,
            } => {
                self.lots[usize::from(lot)] = SecuredLot::Held(new);
                self.lots[usize::from(old)] = entry;
            }
            Change::Asked { lot, entry, freed } => {
                self.lots[usize::from(lot)] = entry;
                self.freed = freed;
            }
        }
    }
}

impl SecuredBook {
    // The Value of a lot in range by the row last notified.
    fn worth(&self, lot: &Lot) -> u64
        requires { lot_fits lot.now ≡ true }
        ensures value { result ≡ Worth self.now.state lot.now }
        ensures bound { result ≤ 20000000000 }
    {
        value(&self.state.annex, &self.state.row, lot).unwrap()
    }

    // A delivered lot is held, and its Value counts for the day where that is open and the lot's own.
    // Not inlined, as the next two: else every message, misfits too, pays for joining what the three answer.
    #[inline(never)]
    fn booked_delivery(&self, day: u32, lot: u8, new: Lot) -> Option<Change>
        ensures after { option_map (changed self.now.state) result ≡ booked self.now.state (Delivery day lot new.class new.face) }
        ensures in_table { IfSome result InTable }
    {
        if day > self.state.day.number || !new.fits() {
            return None;
        }
        let Some(SecuredLot::Absent) = self.state.lots.get(usize::from(lot)) else {
            return None;
        };
        let mut delivered = self.state.delivered;
        if self.state.day.is_open() && day == self.state.day.number {
            delivered += self.worth(&new);
        }
        Some(Change::Delivered {
            lot,
            new,
            delivered,
        })
    }

    // A substitute is held; its old lot is owed back if a day was notified and the new Value is at least the
    // old, else its decline is owed.
    #[inline(never)]
    fn booked_substitute(&self, lot: u8, new: Lot, old: u8) -> Option<Change>
        ensures after { option_map (changed self.now.state) result ≡ booked self.now.state (Substitute lot new.class new.face old) }
        ensures in_table { IfSome result InTable }
    {
        let Some(SecuredLot::Absent) = self.state.lots.get(usize::from(lot)) else {
            return None;
        };
        let Some(SecuredLot::Held(prior)) = self.state.lots.get(usize::from(old)).copied() else {
            return None;
        };
        if !new.fits() {
            return None;
        }
        // The number is 0 where there is no day yet.
        let replaces = self.state.day.number > 0 && self.worth(&prior) <= self.worth(&new);
        let entry = if replaces {
            SecuredLot::OwedBack(prior)
        } else {
            SecuredLot::DeclineOwed(prior)
        };
        Some(Change::Substituted {
            lot,
            new,
            old,
            entry,
        })
    }

    // An asked lot is owed back in the offer of its day if the Values so freed are within the amount, else
    // its decline is owed.
    #[inline(never)]
    fn booked_ask(&self, day: u32, lot: u8) -> Option<Change>
        ensures after { option_map (changed self.now.state) result ≡ booked self.now.state (Ask day lot) }
        ensures in_table { IfSome result InTable }
    {
        if day > self.state.day.number {
            return None;
        }
        let Some(SecuredLot::Held(asked)) = self.state.lots.get(usize::from(lot)).copied() else {
            return None;
        };
        let worth = self.worth(&asked);
        if self.state.day.state == DayState::Offered
            && day == self.state.day.number
            && self.state.freed + worth <= self.state.day.amount
        {
            Some(Change::Asked {
                lot,
                entry: SecuredLot::OwedBack(asked),
                freed: self.state.freed + worth,
            })
        } else {
            Some(Change::Asked {
                lot,
                entry: SecuredLot::DeclineOwed(asked),
                freed: self.state.freed,
            })
        }
    }

    // What a message of the pledgor changes, if it fits: that depends on the day's state and the message
    // together.
    fn booked(&self, message: Message) -> Option<Change>
        ensures after { option_map (changed self.now.state) result ≡ booked self.now.state message }
        ensures in_table { IfSome result InTable }
    {
        let state = &self.state;
        // The pair is bound first: with guards on a pair that is built in the match, no proof was found.
        let both = (state.day.state, message);
        match both {
            (DayState::Called, Message::Agree { day }) if day == state.day.number => {
                Some(Change::Answered(DayState::Agreed))
            }
            (DayState::Called, Message::Dispute { day, amount })
                if day == state.day.number && amount < state.day.amount => {
                Some(Change::Answered(DayState::Disputed))
            }
            (DayState::Offered, Message::Release { day }) if day == state.day.number => {
                Some(Change::Answered(DayState::Released))
            }
            (
                _,
                Message::Delivery {
                    day,
                    lot,
                    class,
                    face,
                },
            ) => self.booked_delivery(day, lot, Lot { class, face }),
            (
                _,
                Message::Substitute {
                    lot,
                    class,
                    face,
                    old,
                },
            ) => self.booked_substitute(lot, Lot { class, face }, old),
            (_, Message::Ask { day, lot }) => self.booked_ask(day, lot),
            _ => None,
        }
    }

    /// Books a message of the pledgor and tells whether it fits; one that does not changes nothing.
    // A bool, as of a set's `insert`: whether the call changed anything.
    pub fn book(&mut self, message: Message) -> bool
        ensures answer { result ≡ fits self.old.state message }
        ensures after { self.new.state ≡ (if fits self.old.state message then books self.old.state message else self.old.state) }
    {
        match self.booked(message) {
            Some(change) => {
                self.state.make(change);
                true
            }
            None => false,
        }
    }
}
