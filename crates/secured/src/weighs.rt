//! Weighing a row.
ghost use Rattle.std.specs.Prelude.{◌≡◌};
ghost use Rattle.secured.specs.Weighs.{found, weighs};

use crate::book::SecuredBook;
use crate::state::{Finding, Weighing};
use amounts::{Notice, amounts_of, total};
use annex::Row;
use refusal::Refusal;

impl SecuredBook {
    // What a row comes to.
    pub(crate) fn weighing(&self, row: &Row) -> Result<Weighing, Refusal>
        ensures { result ≡ weighs self.now.state row.now }
    {
        if !self.state.day.is_ended() || row.day <= self.state.day.number {
            return Err(Refusal::Day);
        }
        let exposure = row.check()?;
        let value = total(&self.state.annex, row, &self.state.lots)?;
        Ok(Weighing {
            exposure: exposure.hundredths,
            value,
            notice: amounts_of(&self.state.annex, exposure, value).notice,
        })
    }

    /// Weighs a row: a call, an offer or quiet. Refused for a day not later or a last day not ended, then for
    /// an unfit row. The finding has to be notified or set aside.
    pub fn weigh(&self, row: &Row) -> Result<Finding, Refusal>
        ensures { result ≡ found row.now (weighs self.now.state row.now) }
    {
        let weighing = self.weighing(row)?;
        Ok(Finding {
            day: row.day,
            notice: weighing.notice,
        })
    }
}

impl Finding {
    /// The day that was weighed.
    pub fn day(&self) -> u32
        ensures { result ≡ self.now.day }
    {
        self.day
    }

    /// What there is to notify.
    pub fn notice(&self) -> Notice
        ensures { result ≡ self.now.notice }
    {
        self.notice
    }

    /// Spends a finding and changes nothing.
    pub fn set_aside(self) {
        let Finding { day: _, notice: _ } = self;
    }
}
