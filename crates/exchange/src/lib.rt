//! Two books and the messages under way between them: what either book drafts goes to the other, which books
//! the oldest next. Knows nothing of message numbers, bytes or carriers.
#![tactic(auto)]

ghost use Rattle.std.specs.Prelude.{◌≡◌, Bool, []};
ghost use Rattle.message.specs.declared.Message.{Message};
ghost use Rattle.exchange.specs.Ends.{BooksNext, Issued, Opened};

use amounts::Lot;
use annex::Annex;
use message::Message;
use pledgor::PledgorBook;
use refusal::Refusal;
use secured::SecuredBook;
use std::alloc::{AllocFailed, Global};
use std::collections::VecDeque;

/// Why a call issues no message.
#[derive(Clone, Copy, PartialEq, Eq, Debug)]
pub enum IssueError {
    /// The book refuses the call.
    Refused(Refusal),
    /// There is not enough memory.
    Memory,
}

// By hand, as the next: the contract of `issue` reads `from_gives`.
impl From<Refusal> for IssueError {
    ghost use Rattle.exchange.specs.declared.IssueError.TheVariants.{Refused};

    ghost from_gives = { λ refusal error. error ≡ Refused refusal };

    fn from(refusal: Refusal) -> IssueError {
        IssueError::Refused(refusal)
    }
}

impl<T: Drop> From<AllocFailed<T>> for IssueError {
    ghost use Rattle.exchange.specs.declared.IssueError.TheVariants.{Memory};

    ghost from_gives = { λ _ error. error ≡ Memory };

    fn from(_: AllocFailed<T>) -> IssueError {
        IssueError::Memory
    }
}

/// Why no message is booked.
#[derive(Clone, Copy, PartialEq, Eq, Debug)]
pub enum BookingError {
    NothingUnderWay,
    /// The oldest message, which does not fit.
    Misfit(Message),
}

/// A book, to which messages of the other end come.
pub trait Book {
    // Holds of a book, a message, whether it fits, and the book after it.
    ghost book_gives: { Self → Message → Bool → Self → Type 0 };

    /// Books a message of the other end and tells whether it fits; one that does not changes nothing.
    // A bool, as the books answer: the number of a misfit is not theirs to know.
    fn book(&mut self, message: Message) -> bool
        ensures { book_gives self.old message result self.new };
}

impl Book for SecuredBook {
    ghost use Rattle.std.specs.Prelude.{◌≡◌, if◌then◌else◌};
    ghost use Rattle.secured.specs.Bookings.{books, fits};

    ghost book_gives = { λ before message fit after. (fit ≡ fits before.state message) × (after.state ≡ (if fit then books before.state message else before.state)) };

    fn book(&mut self, message: Message) -> bool {
        SecuredBook::book(self, message)
    }
}

impl Book for PledgorBook {
    ghost use Rattle.std.specs.Prelude.{◌≡◌, if◌then◌else◌};
    ghost use Rattle.pledgor.specs.Bookings.{books, fits};

    ghost book_gives = { λ before message fit after. (fit ≡ fits before.state message) × (after.state ≡ (if fit then books before.state message else before.state)) };

    fn book(&mut self, message: Message) -> bool {
        PledgorBook::book(self, message)
    }
}

/// One end: its book, and the messages under way to it, oldest first.
// The books' calls are not repeated here: what a book drafts is handed to `issue`.
#[derive(Drop)]
pub struct End<B> {
    pub book: B,
    pub inbox: VecDeque<Message>,
}

impl<B: Drop> End<B> {
    /// The end of a book, with nothing under way to it.
    pub fn new(heap: Global, book: B) -> End<B>
        ensures book { result.book ≡ book }
        ensures inbox { result.inbox.items ≡ [] }
    {
        End {
            book,
            inbox: VecDeque::new(heap),
        }
    }

    /// Takes what the book drafted: the message joins those under way to the other end, and the book is the
    /// one drafted. A refusal changes nothing, nor does a message for which there is not enough memory.
    pub fn issue<C>(
        &mut self,
        drafted: Result<(Message, B), Refusal>,
        to: &mut End<C>,
    ) -> Result<Message, IssueError>
        ensures issued { Issued self.old.book to.old.inbox.items drafted result self.new.book to.new.inbox.items }
        ensures own_inbox { self.new.inbox ≡ self.old.inbox }
        ensures other_book { to.new.book ≡ to.old.book }
    {
        let (message, book) = drafted?;
        to.inbox.push_back(message)?;
        self.book = book;
        Ok(message)
    }
}

impl<B: Book> End<B> {
    /// Books the oldest message under way to this end, and gives it where it fits.
    pub fn book_next(&mut self) -> Result<Message, BookingError>
        ensures { BooksNext B.book_gives self.old.book self.old.inbox.items result self.new.book self.new.inbox.items }
    {
        let message = self.inbox.pop_front().ok_or(BookingError::NothingUnderWay)?;
        if self.book.book(message) {
            Ok(message)
        } else {
            Err(BookingError::Misfit(message))
        }
    }
}

/// The two ends of an annex.
#[derive(Drop)]
pub struct Exchange {
    pub secured: End<SecuredBook>,
    pub pledgor: End<PledgorBook>,
}

impl Exchange {
    /// Two books on an annex, the pledgor's with these lots, and nothing under way; refused where the
    /// pledgor's book is.
    pub fn open(heap: Global, annex: Annex, lots: &[Lot]) -> Result<Exchange, Refusal>
        ensures { Opened annex lots.now result }
    {
        let pledgor = PledgorBook::open(annex, lots)?;
        Ok(Exchange {
            secured: End::new(heap, SecuredBook::open(annex)),
            pledgor: End::new(heap, pledgor),
        })
    }
}

#[cfg(test)]
mod tests {
    use super::*;
    use annex::schedule::standard_schedule;
    use annex::{Row, Terms};
    use std::test::Fail;

    #[test]
    fn a_call_is_issued_and_booked(rt: HostRuntime) -> Result<(), Fail> {
        let Ok(annex) = Annex::open(Terms {
            threshold: 1_000_000,
            pledgor_minimum: 500_000,
            secured_minimum: 500_000,
            pledgor_independent: 0,
            secured_independent: 0,
            percentages: standard_schedule(),
        }) else {
            return Err(Fail::new("terms refused"));
        };
        let Ok(
            Exchange {
                mut secured,
                mut pledgor,
            },
        ) = Exchange::open(rt.alloc(), annex, &[])
        else {
            return Err(Fail::new("lots refused"));
        };
        assert_eq!(rt; pledgor.book_next(), Err(BookingError::NothingUnderWay));
        let row = Row {
            day: 3,
            exposure: Some(1_500_000),
            prices: [None; 8],
        };
        let Ok(finding) = secured.book.weigh(&row) else {
            return Err(Fail::new("row refused"));
        };
        let drafted = secured.book.notify(finding, &row);
        let call = Message::Call {
            day: 3,
            exposure: 1_500_000,
            amount: 500_000,
        };
        assert_eq!(rt; secured.issue(drafted, &mut pledgor), Ok(call));
        assert_eq!(rt; pledgor.inbox.len(), 1);
        assert_eq!(rt; pledgor.book_next(), Ok(call));
        assert_eq!(rt; pledgor.inbox.len(), 0);
        let drafted = secured.book.reply(0);
        assert_eq!(rt;
            secured.issue(drafted, &mut pledgor),
            Err(IssueError::Refused(Refusal::Lot))
        );
        Ok(())
    }
}
