//! What the pledgor's calls draft.
ghost use Rattle.std.specs.Prelude.{◌≡◌, ◌≤◌};
ghost use Rattle.pledgor.specs.Books.{plain};
ghost use Rattle.pledgor.specs.Calls.{PledgorCall, answer_of, drafts};
ghost use Rattle.pledgor.specs.Calls as calls;
ghost use Rattle.pledgor.specs.Lots.{own_at};

use crate::book::PledgorBook;
use crate::state::PledgorState;
use amounts::{Place, amount_due, total};
use annex::Row;
use day::DayState;
use message::Message;
use refusal::Refusal;

impl PledgorState {
    // Agrees where the pledgor's own amount is at least the called one, else disputes with it.
    fn answer_with(&self, own: u64) -> (Message, PledgorState)
        ensures { result ≡ answer_of self.now own }
    {
        let day = self.day.number;
        if self.day.amount <= own {
            (Message::Agree { day }, self.with_state(DayState::Agreed))
        } else {
            (
                Message::Dispute { day, amount: own },
                self.with_state(DayState::Disputed),
            )
        }
    }
}

impl PledgorBook {
    // Whether a lot is the pledgor's own, and at this place.
    pub(crate) fn is_at(&self, lot: u8, place: Place) -> bool
        ensures { result ≡ own_at self.now.state lot place }
    {
        lot < self.state.count && self.state.lots[usize::from(lot)].place == place
    }

    fn answered(&self, row: &Row) -> Result<(Message, PledgorState), Refusal>
        ensures { result ≡ drafts self.now.state (calls.answer row.now) }
    {
        let exposure = row.check()?;
        if row.day != self.state.day.number {
            return Err(Refusal::Row);
        }
        if self.state.day.state != DayState::Called {
            return Err(Refusal::State);
        }
        let value = total(&self.state.annex, row, &self.state.lots)?;
        Ok(
            self.state
                .answer_with(amount_due(&self.state.annex, exposure, value)),
        )
    }

    fn delivered(&self, lot: u8) -> Result<(Message, PledgorState), Refusal>
        ensures { result ≡ drafts self.now.state (calls.deliver lot) }
    {
        if !self.is_at(lot, Place::Home) {
            return Err(Refusal::Lot);
        }
        if !self.state.day.is_open() {
            return Err(Refusal::State);
        }
        let entry = self.state.lots[usize::from(lot)];
        Ok((
            Message::Delivery {
                day: self.state.day.number,
                lot,
                class: entry.lot.class,
                face: entry.lot.face,
            },
            self.state.with_place(lot, Place::Posted),
        ))
    }

    fn substituted(&self, new: u8, old: u8) -> Result<(Message, PledgorState), Refusal>
        ensures { result ≡ drafts self.now.state (calls.substitute new old) }
    {
        if !self.is_at(new, Place::Home) || !self.is_at(old, Place::Posted) {
            return Err(Refusal::Lot);
        }
        let entry = self.state.lots[usize::from(new)];
        let mut after = self.state.with_place(new, Place::Posted);
        after.lots[usize::from(old)].place = Place::Asked;
        Ok((
            Message::Substitute {
                lot: new,
                class: entry.lot.class,
                face: entry.lot.face,
                old,
            },
            after,
        ))
    }

    fn asked(&self, lot: u8) -> Result<(Message, PledgorState), Refusal>
        ensures { result ≡ drafts self.now.state (calls.ask lot) }
    {
        if !self.is_at(lot, Place::Posted) {
            return Err(Refusal::Lot);
        }
        if self.state.day.state != DayState::Offered {
            return Err(Refusal::State);
        }
        Ok((
            Message::Ask {
                day: self.state.day.number,
                lot,
            },
            self.state.with_place(lot, Place::Asked),
        ))
    }

    fn released(&self) -> Result<(Message, PledgorState), Refusal>
        ensures { result ≡ drafts self.now.state calls.release }
    {
        if self.state.day.state != DayState::Offered {
            return Err(Refusal::State);
        }
        Ok((
            Message::Release {
                day: self.state.day.number,
            },
            self.state.with_state(DayState::Released),
        ))
    }

    // The answer of one of the calls, with a book in place of the state. Each book has this step of its own, since its
    // type holds its own facts.
    fn drafted(
        &self,
        answer: Result<(Message, PledgorState), Refusal>,
    ) -> Result<(Message, PledgorBook), Refusal>
        requires { (c : PledgorCall) × (answer ≡ drafts self.now.state c) }
        ensures { plain result ≡ answer }
    {
        let (message, state) = answer?;
        Ok((message, PledgorBook { state }))
    }

    /// Answers the call by the pledgor's own row of the day: Agree where its own amount is at least the
    /// called one, else Dispute with it. Refused for an unfit row or one of another day, then unless the
    /// day is called.
    pub fn answer(&self, row: &Row) -> Result<(Message, PledgorBook), Refusal>
        ensures { plain result ≡ drafts self.now.state (calls.answer row.now) }
    {
        self.drafted(self.answered(row))
    }

    /// Delivers a lot that is home. Refused for any other lot, then where delivering is not open.
    pub fn deliver(&self, lot: u8) -> Result<(Message, PledgorBook), Refusal>
        ensures { plain result ≡ drafts self.now.state (calls.deliver lot) }
    {
        self.drafted(self.delivered(lot))
    }

    /// Delivers a lot that is home and asks for a posted one back. Refused for any other lots.
    pub fn substitute(&self, new: u8, old: u8) -> Result<(Message, PledgorBook), Refusal>
        ensures { plain result ≡ drafts self.now.state (calls.substitute new old) }
    {
        self.drafted(self.substituted(new, old))
    }

    /// Asks for a posted lot back. Refused for any other lot, then unless the day is offered.
    pub fn ask(&self, lot: u8) -> Result<(Message, PledgorBook), Refusal>
        ensures { plain result ≡ drafts self.now.state (calls.ask lot) }
    {
        self.drafted(self.asked(lot))
    }

    /// Gives up the rest of the offer. Refused unless the day is offered.
    pub fn release(&self) -> Result<(Message, PledgorBook), Refusal>
        ensures { plain result ≡ drafts self.now.state calls.release }
    {
        self.drafted(self.released())
    }
}
