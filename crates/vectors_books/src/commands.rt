//! One line: a command, what it answers, and both books after it.
use crate::failure::Failure;
use crate::messages::{InWords, message};
use crate::told::told;
use amounts::Lot;
use annex::{Annex, Row};
use exchange::Exchange;
use message::Message;
use pledgor::PledgorBook;
use refusal::Refusal;
use secured::SecuredBook;
use std::alloc::{AllocError, Global};
use valuer::Sheet;
use words::Words;

// Books of the terms and the lots that the words give.
fn opened(heap: Global, words: &mut Words<'_>) -> Result<Exchange, Failure> {
    let terms = words.terms().ok_or(Failure::Malformed)?;
    let count = words.number::<u32>().ok_or(Failure::Malformed)?;
    let lots: Vec<Lot> = (0..count)
        .map(|_| words.lot().ok_or(Failure::Malformed))
        .try_collect(heap)?;
    Ok(Exchange::open(heap, Annex::open(terms)?, lots.as_slice())?)
}

// Issues what the secured book drafted. The ends of an exchange can be lent apart only out of a parameter.
fn by_secured(
    books: &mut Exchange,
    drafted: Result<(Message, SecuredBook), Refusal>,
) -> Result<Message, Failure> {
    Ok(books.secured.issue(drafted, &mut books.pledgor)?)
}

// Issues what the pledgor's book drafted.
fn by_pledgor(
    books: &mut Exchange,
    drafted: Result<(Message, PledgorBook), Refusal>,
) -> Result<Message, Failure> {
    Ok(books.pledgor.issue(drafted, &mut books.secured)?)
}

// The words of a line that are still to be taken, the books that it is for, and where its answer is built.
#[derive(Drop)]
struct Line<'a, 'b> {
    heap: Global,
    books: &'b mut Exchange,
    words: Words<'a>,
}

impl<'a, 'b> Line<'a, 'b> {
    // What comes next, which has to be there; each program of cases has failures of its own.
    fn take<T: Drop, F: Fn(&mut Words<'a>) -> Option<T>>(&mut self, read: F) -> Result<T, Failure>
        requires { F.IsAlwaysCallable read }
    {
        read(&mut self.words).ok_or(Failure::Malformed)
    }

    fn weigh(&mut self) -> Result<String, Failure> {
        let row = self.take(Words::row)?;
        let finding = self.books.secured.book.weigh(&row)?;
        let day = finding.day();
        let notice = finding.notice();
        finding.set_aside();
        Ok(format!(in self.heap; "finding {day} {notice}")?)
    }

    // Books a message that no book issued.
    fn inject(&mut self) -> Result<String, Failure> {
        let end = self.words.next();
        let message = self.take(message)?;
        let fits = match end {
            Some("secured") => self.books.secured.book.book(message),
            Some("pledgor") => self.books.pledgor.book.book(message),
            _ => return Err(Failure::Malformed),
        };
        Ok(format!(in self.heap; "{}", if fits { "booked" } else { "misfit" })?)
    }

    // Books the oldest message under way to an end.
    fn book(&mut self) -> Result<Message, Failure> {
        match self.words.next() {
            Some("secured") => Ok(self.books.secured.book_next()?),
            Some("pledgor") => Ok(self.books.pledgor.book_next()?),
            _ => Err(Failure::Malformed),
        }
    }

    // Weighs one row, and notifies what it came to with another.
    fn notify(&mut self) -> Result<Message, Failure> {
        let weighed = self.take(Words::row)?;
        let row = self.take(Words::row)?;
        let finding = self.books.secured.book.weigh(&weighed)?;
        let drafted = self.books.secured.book.notify(finding, &row);
        by_secured(self.books, drafted)
    }

    // Resolves by a sheet of one row, which has no prices.
    fn resolve(&mut self) -> Result<Message, Failure> {
        let row = Row {
            day: self.take(Words::number::<u32>)?,
            exposure: self.take(Words::optional::<i64>)?,
            prices: [None; 8],
        };
        let drafted = self.books.secured.book.resolve(&Sheet::new(&[row]));
        by_secured(self.books, drafted)
    }

    fn confirm(&mut self) -> Result<Message, Failure> {
        let drafted = self.books.secured.book.confirm();
        by_secured(self.books, drafted)
    }

    fn reply(&mut self) -> Result<Message, Failure> {
        let lot = self.take(Words::number::<u8>)?;
        let drafted = self.books.secured.book.reply(lot);
        by_secured(self.books, drafted)
    }

    fn answer(&mut self) -> Result<Message, Failure> {
        let row = self.take(Words::row)?;
        let drafted = self.books.pledgor.book.answer(&row);
        by_pledgor(self.books, drafted)
    }

    // A call of the pledgor end about one of its lots.
    fn move_lot<F: Fn(&PledgorBook, u8) -> Result<(Message, PledgorBook), Refusal>>(
        &mut self,
        call: F,
    ) -> Result<Message, Failure>
        requires { F.IsAlwaysCallable call }
    {
        let lot = self.take(Words::number::<u8>)?;
        let drafted = call(&self.books.pledgor.book, lot);
        by_pledgor(self.books, drafted)
    }

    fn substitute(&mut self) -> Result<Message, Failure> {
        let new = self.take(Words::number::<u8>)?;
        let old = self.take(Words::number::<u8>)?;
        let drafted = self.books.pledgor.book.substitute(new, old);
        by_pledgor(self.books, drafted)
    }

    fn release(&mut self) -> Result<Message, Failure> {
        let drafted = self.books.pledgor.book.release();
        by_pledgor(self.books, drafted)
    }

    // The command is what `run_line` did not take itself: opening and a blank line print no books.
    fn answered(&mut self, command: &str) -> Result<String, Failure> {
        let (told, message) = match command {
            "weigh" => return self.weigh(),
            "inject" => return self.inject(),
            "book" => ("booked", self.book()?),
            "notify" => ("issued", self.notify()?),
            "resolve" => ("issued", self.resolve()?),
            "confirm" => ("issued", self.confirm()?),
            "reply" => ("issued", self.reply()?),
            "answer" => ("issued", self.answer()?),
            "deliver" => ("issued", self.move_lot(PledgorBook::deliver)?),
            "ask" => ("issued", self.move_lot(PledgorBook::ask)?),
            "substitute" => ("issued", self.substitute()?),
            "release" => ("issued", self.release()?),
            _ => return Err(Failure::Malformed),
        };
        Ok(format!(in self.heap; "{told} {}", InWords(message))?)
    }
}

// What is told of a line, whether it has a value or none.
fn worded(heap: Global, answer: Result<String, Failure>) -> Result<String, AllocError> {
    match answer {
        Ok(text) => Ok(text),
        Err(Failure::Memory(error)) => Err(error),
        Err(failure) => format!(in heap; "{failure}"),
    }
}

/// Runs a line on the books that the last `open` line opened.
pub(crate) fn run_line(
    heap: Global,
    books: &mut Option<Exchange>,
    line: &str,
) -> Result<String, AllocError> {
    let mut words = Words::new(line);
    match (words.next(), &mut *books) {
        (Some("open"), books) => match opened(heap, &mut words) {
            Ok(fresh) => {
                let told = told(heap, &fresh)?;
                *books = Some(fresh);
                format!(in heap; "opened | {told}")
            }
            Err(failure) => worded(heap, Err(failure)),
        },
        (Some(command), Some(books)) => {
            let mut line = Line { heap, books, words };
            let answer = worded(heap, line.answered(command))?;
            let told = told(heap, line.books)?;
            format!(in heap; "{answer} | {told}")
        }
        _ => worded(heap, Err(Failure::Malformed)),
    }
}
