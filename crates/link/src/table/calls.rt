//! The calls of a link.
ghost use Rattle.std.specs.Prelude.{◌≡◌, ◌≤◌};
ghost use Rattle.link.specs.Kept.{admits, admitted, advances, advanced, clears, cleared_by, forgotten, judges, kept, next_of, opened, WritesOffer};

use crate::state::{LinkState, Standing, WINDOW};
use crate::table::Link;
use frame::layout::LAST_NUMBER;
use frame::write::{write_acknowledgement, write_data};
use message::Message;
use refusal::Refusal;
use std::cmp::Ordering;

impl Link {
    /// A link over which nothing has gone.
    pub fn open() -> Link
        ensures { kept result.state ≡ opened }
    {
        Link {
            state: LinkState {
                base: 1,
                expected: 1,
                count: 0,
                table: [Message::Agree { day: 1 }; WINDOW],
            },
        }
    }

    /// The lowest number that is not acknowledged, that of the first unacknowledged message.
    pub fn lowest(&self) -> u64
        ensures { result ≡ (kept self.now.state).base }
    {
        self.state.base
    }

    /// The number that the next message is given.
    pub fn next(&self) -> u64
        ensures { result ≡ next_of (kept self.now.state) }
    {
        self.lowest() + self.state.count as u64
    }

    /// The number that the other end's next message has.
    pub fn expected(&self) -> u64
        ensures { result ≡ (kept self.now.state).expected }
    {
        self.state.expected
    }

    /// The unacknowledged messages, numbered from the lowest on.
    pub fn unacknowledged(&self) -> &[Message]
        ensures { result.now ≡ (kept self.now.state).pending }
    {
        &self.state.table[..self.state.count]
    }

    /// Keeps a message under the next number, and tells the number. Refused by 3 for a message that
    /// cannot be sent, by 16 when eight are unacknowledged, by 17 after the last number.
    pub fn admit(&mut self, message: Message) -> Result<u64, Refusal>
        ensures answer { result ≡ admits (kept self.old.state) message }
        ensures after { kept self.new.state ≡ admitted (kept self.old.state) message }
    {
        let next = self.next();
        if let Some(position) = message.unfit() {
            return Err(Refusal::Body {
                message: next,
                position,
            });
        }
        if self.state.count >= WINDOW {
            return Err(Refusal::Unacknowledged);
        }
        if next > LAST_NUMBER {
            return Err(Refusal::LastNumber);
        }
        self.state.table[self.state.count] = message;
        self.state.count += 1;
        Ok(next)
    }

    // Refused by 4 for an acknowledgement above the next number.
    fn check(&self, number: u64, acknowledgement: u64) -> Result<(), Refusal>
        ensures { result ≡ clears (kept self.now.state) number acknowledgement }
    {
        if acknowledgement > self.next() {
            return Err(Refusal::Acknowledgement { message: number });
        }
        Ok(())
    }

    /// What a message with this number is to the link. Refused by 4 for an acknowledgement above the
    /// next number.
    pub fn judge(&self, number: u64, acknowledgement: u64) -> Result<Standing, Refusal>
        ensures { result ≡ judges (kept self.now.state) number acknowledgement }
    {
        self.check(number, acknowledgement)?;
        Ok(match number.cmp(&self.expected()) {
            Ordering::Less => Standing::Repeat,
            Ordering::Equal => Standing::Expected,
            Ordering::Greater => Standing::Early,
        })
    }

    // Forgets the first messages, so many of them.
    #[tactic(auto, using(crate::proofs::Tables::turned))]
    fn forget(&mut self, gone: usize)
        requires { gone ≤ self.old.state.count }
        ensures { kept self.new.state ≡ forgotten gone (kept self.old.state) }
    {
        let state = &mut self.state;
        state.table.rotate_left(gone);
        state.count -= gone;
        state.base += gone as u64;
    }

    /// Forgets every message with a number below the acknowledgement that the message `number`
    /// carries. Refused by 4 for an acknowledgement above the next number.
    pub fn clear(&mut self, number: u64, acknowledgement: u64) -> Result<(), Refusal>
        ensures answer { result ≡ clears (kept self.old.state) number acknowledgement }
        ensures after { kept self.new.state ≡ cleared_by (kept self.old.state) acknowledgement }
    {
        self.check(number, acknowledgement)?;
        self.forget(acknowledgement.saturating_sub(self.lowest()) as usize);
        Ok(())
    }

    /// Notes that the message with this number is booked, and tells whether it was the expected one;
    /// if not, nothing changes.
    // A bool, as of a set's `insert`: whether the call changed anything.
    pub fn advance(&mut self, number: u64) -> bool
        ensures answer { result ≡ advances (kept self.old.state) number }
        ensures after { kept self.new.state ≡ advanced (kept self.old.state) number }
    {
        let state = &mut self.state;
        let is_next = number == state.expected && number <= LAST_NUMBER;
        if is_next {
            state.expected += 1;
        }
        is_next
    }

    /// Writes the frame to post into the buffer's front, and tells its length: the oldest
    /// unacknowledged message, or else an acknowledgement alone. Refused by 8 for a buffer under 64
    /// bytes.
    pub fn write(&self, buffer: &mut [u8]) -> Result<usize, Refusal>
        ensures { WritesOffer (kept self.now.state) buffer.old buffer.new result }
    {
        match self.unacknowledged() {
            [oldest, ..] => write_data(buffer, self.lowest(), self.expected(), oldest),
            [] => write_acknowledgement(buffer, self.expected()),
        }
    }
}
