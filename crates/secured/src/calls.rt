//! What the secured end's calls draft.
ghost use Rattle.std.specs.Prelude.{◌≡◌, ◌&&◌, ◌==◌};
ghost use Rattle.secured.specs.Books.{plain};
ghost use Rattle.secured.specs.Calls.{SecuredCall, beginning as Beginning, drafts, noticed as Noticed, telling as Telling};
ghost use Rattle.secured.specs.Calls as calls;
ghost use Rattle.secured.specs.Weighs.{same_notice};

use crate::book::SecuredBook;
use crate::state::{Finding, SecuredState, Weighing};
use amounts::{Notice, SecuredLot, due};
use annex::Row;
use day::{Day, DayState};
use message::Message;
use refusal::Refusal;
use valuer::Valuer;

/// The message that tells a notice.
// No From: a notice alone knows neither its day nor its exposure.
pub fn telling(day: u32, exposure: i64, notice: Notice) -> Message
    ensures { result ≡ Telling day exposure notice }
{
    match notice {
        Notice::Quiet => Message::Quiet { day, exposure },
        Notice::Call { amount } => Message::Call {
            day,
            exposure,
            amount,
        },
        Notice::Offer { amount } => Message::Offer {
            day,
            exposure,
            amount,
        },
    }
}

// The day that a notice begins.
fn beginning(number: u32, notice: Notice) -> Day
    ensures { result ≡ Beginning number notice }
{
    let (state, amount) = match notice {
        Notice::Quiet => (DayState::Quiet, 0),
        Notice::Call { amount } => (DayState::Called, amount),
        Notice::Offer { amount } => (DayState::Offered, amount),
    };
    Day {
        state,
        number,
        amount,
    }
}

impl Finding {
    // Whether it is what a row came to. No derived `==`: a finding to compare with would have to be spent too.
    fn is_of(&self, row: &Row, weighing: &Weighing) -> bool
        ensures { result ≡ (self.now.day == row.now.day && same_notice self.now.notice weighing.now.notice) }
    {
        self.day == row.day && self.notice == weighing.notice
    }
}

impl SecuredState {
    // The row is kept, a day begins, and the sums are zeroed.
    fn noticed(&self, row: &Row, weighing: &Weighing) -> SecuredState
        ensures { result ≡ Noticed self.now row.now weighing.now }
    {
        SecuredState {
            row: *row,
            exposure: weighing.exposure,
            day: beginning(row.day, weighing.notice),
            before: weighing.value,
            delivered: 0,
            freed: 0,
            ..*self
        }
    }

    fn confirmed(&self) -> Result<(Message, SecuredState), Refusal>
        ensures { result ≡ drafts self.now calls.confirm }
    {
        match self.day.state {
            DayState::Agreed | DayState::Resolved if self.delivered < self.day.amount => {
                Err(Refusal::BelowAmount)
            }
            DayState::Agreed | DayState::Resolved | DayState::Released => Ok((
                Message::Satisfied {
                    day: self.day.number,
                },
                self.with_state(DayState::Satisfied),
            )),
            _ => Err(Refusal::State),
        }
    }

    fn replied(&self, lot: u8) -> Result<(Message, SecuredState), Refusal>
        ensures { result ≡ drafts self.now (calls.reply lot) }
    {
        let (message, entry) = match self.lots.get(usize::from(lot)) {
            Some(SecuredLot::OwedBack(_)) => (Message::Return { lot }, SecuredLot::Absent),
            Some(SecuredLot::DeclineOwed(kept)) => (
                Message::Decline { lot },
                SecuredLot::Held(*kept),
            ),
            _ => return Err(Refusal::Lot),
        };
        let mut after = *self;
        after.lots[usize::from(lot)] = entry;
        Ok((message, after))
    }
}

impl SecuredBook {
    // The answer of one of the calls, with a book in place of the state. Each book has this step of its own, since its
    // type holds its own facts.
    fn drafted(
        &self,
        answer: Result<(Message, SecuredState), Refusal>,
    ) -> Result<(Message, SecuredBook), Refusal>
        requires { (c : SecuredCall) × (answer ≡ drafts self.now.state c) }
        ensures { plain result ≡ answer }
    {
        let (message, state) = answer?;
        Ok((message, SecuredBook { state }))
    }

    fn notified(&self, finding: &Finding, row: &Row) -> Result<(Message, SecuredState), Refusal>
        ensures { result ≡ drafts self.now.state (calls.notify finding.now row.now) }
    {
        // Whatever refuses the row, it does not give the finding.
        let weighing = self.weighing(row).map_err(|_| Refusal::WeighingDiffers)?;
        if !finding.is_of(row, &weighing) {
            return Err(Refusal::WeighingDiffers);
        }
        Ok((
            telling(row.day, weighing.exposure, weighing.notice),
            self.state.noticed(row, &weighing),
        ))
    }

    fn resolved(&self, told: Option<i64>) -> Result<(Message, SecuredState), Refusal>
        ensures { result ≡ drafts self.now.state (calls.resolve told) }
    {
        let exposure = told.unwrap_or(self.state.exposure);
        let amount = due(&self.state.annex, exposure, self.state.before)?;
        if self.state.day.state != DayState::Disputed {
            return Err(Refusal::State);
        }
        let day = Day {
            amount,
            ..self.state.day.in_state(DayState::Resolved)
        };
        Ok((
            Message::Resolve {
                day: day.number,
                exposure,
                amount,
            },
            SecuredState {
                exposure,
                day,
                ..self.state
            },
        ))
    }

    /// Notifies a finding, which is spent in any case: a call, an offer or quiet, with the row kept and the
    /// sums zeroed. Refused where weighing the row does not give the finding.
    pub fn notify(&self, finding: Finding, row: &Row) -> Result<(Message, SecuredBook), Refusal>
        ensures { plain result ≡ drafts self.now.state (calls.notify finding row.now) }
    {
        let answer = self.drafted(self.notified(&finding, row));
        finding.set_aside();
        answer
    }

    /// Resolves a dispute by the exposure that a valuer tells of the day, or by the one notified where it
    /// tells none. Refused for an exposure out of range, then unless the day is disputed.
    pub fn resolve<V: Valuer>(&self, valuer: &V) -> Result<(Message, SecuredBook), Refusal>
        ensures { plain result ≡ drafts self.now.state (calls.resolve (V.Valuer.exposures valuer.now self.now.state.day.number)) }
    {
        self.drafted(self.resolved(valuer.exposure(self.state.day.number)))
    }

    /// Confirms that the day's offer is released, or that its deliveries are at least what was called or
    /// resolved. Refused in any other state, then where less was delivered.
    pub fn confirm(&self) -> Result<(Message, SecuredBook), Refusal>
        ensures { plain result ≡ drafts self.now.state calls.confirm }
    {
        self.drafted(self.state.confirmed())
    }

    /// Returns a lot that is owed back, or declines one whose decline is owed. Refused for any other lot.
    pub fn reply(&self, lot: u8) -> Result<(Message, SecuredBook), Refusal>
        ensures { plain result ≡ drafts self.now.state (calls.reply lot) }
    {
        self.drafted(self.state.replied(lot))
    }
}
