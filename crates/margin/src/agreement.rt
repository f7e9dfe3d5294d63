//! A whole agreement over two perfect queues: what each call answers, each message, and both books.
use amounts::Lot;
use annex::Annex;
use day::Day;
use exchange::{BookingError, Exchange, IssueError};
use message::Message;
use scenario::{Lines, Source, Step};
use std::alloc::AllocError;
use std::{fmt, io};
use valuer::{Panel, Sheet};

fn tell_day(rt: &HostRuntime, end: &str, day: Day) -> io::Result<()> {
    let Day {
        state,
        number,
        amount,
    } = day;
    println!(rt; "{end} day {number} {state} amount {amount}")
}

fn tell_lot(
    rt: &HostRuntime,
    end: &str,
    number: u8,
    state: impl fmt::Display + Drop,
    lot: Lot,
) -> io::Result<()> {
    let Lot { class, face } = lot;
    println!(rt; "{end} position lot {number} class {class} face {face} {state}")
}

// The two ends, and the scenario whose steps they make.
#[derive(Drop)]
struct Agreement<'a> {
    rt: &'a HostRuntime,
    lines: &'a Lines,
    ends: Exchange,
}

impl<'a> Agreement<'a> {
    // Weighs the sheet's row of a day, and notifies what it comes to.
    fn notify(&mut self, day: u32) -> Result<Message, IssueError> {
        let Exchange { secured, pledgor } = &mut self.ends;
        let row = valuer::read_row(&Sheet::new(self.lines.rows.as_slice()), day);
        let finding = secured.book.weigh(&row)?;
        let drafted = secured.book.notify(finding, &row);
        secured.issue(drafted, pledgor)
    }

    fn resolve(&mut self, source: Source) -> Result<Message, IssueError> {
        let Exchange { secured, pledgor } = &mut self.ends;
        let drafted = match source {
            Source::Sheet => secured
                .book
                .resolve(&Sheet::new(self.lines.rows.as_slice())),
            Source::Panel => {
                let day = secured.book.day().number;
                secured
                    .book
                    .resolve(&Panel::open(day, self.lines.quotes_of(day))?)
            }
        };
        secured.issue(drafted, pledgor)
    }

    // The pledgor answers with its own row of its day.
    fn answer(&mut self) -> Result<Message, IssueError> {
        let Exchange { secured, pledgor } = &mut self.ends;
        let day = pledgor.book.day().number;
        let row = valuer::read_row(&Sheet::new(self.lines.own_rows.as_slice()), day);
        let drafted = pledgor.book.answer(&row);
        pledgor.issue(drafted, secured)
    }

    fn tell_issued(&self, step: Step, answer: Result<Message, IssueError>) -> io::Result<()> {
        print!(self.rt; "{step}: ")?;
        match answer {
            Ok(message) => println!(self.rt; "issued {message}"),
            Err(IssueError::Refused(refusal)) => println!(self.rt; "refused {refusal}"),
            Err(IssueError::Memory) => Err(AllocError.into()),
        }
    }

    fn tell_booked(&self, step: Step, answer: Result<Message, BookingError>) -> io::Result<()> {
        print!(self.rt; "{step}: ")?;
        match answer {
            Ok(message) => println!(self.rt; "booked {message}"),
            Err(BookingError::Misfit(message)) => println!(self.rt; "misfit {message}"),
            Err(BookingError::NothingUnderWay) => println!(self.rt; "nothing under way"),
        }
    }

    fn show_secured(&self) -> io::Result<()> {
        let rt = self.rt;
        let book = &self.ends.secured.book;
        tell_day(rt, "secured", book.day())?;
        let delivered = book.delivered();
        let freed = book.freed();
        let v = book.value();
        let uncovered = book.uncovered();
        println!(rt; "secured delivered {delivered} freed {freed} v {v} uncovered {uncovered}")?;
        // A book shows its lots by their numbers.
        for number in 0..32u8 {
            let entry = book.lot(number);
            if let Some(lot) = entry.lot() {
                tell_lot(rt, "secured", number, entry.state(), lot)?;
            }
        }
        Ok(())
    }

    fn show_pledgor(&self) -> io::Result<()> {
        let rt = self.rt;
        let book = &self.ends.pledgor.book;
        tell_day(rt, "pledgor", book.day())?;
        // A book shows its lots by their numbers.
        for number in 0..32u8 {
            if let Some(lot) = book.position(number) {
                tell_lot(rt, "pledgor", number, book.lot(number).place, lot)?;
            }
        }
        let forth = self.ends.pledgor.inbox.len();
        let back = self.ends.secured.inbox.len();
        println!(rt; "under-way to-pledgor {forth} to-secured {back}")
    }

    fn make(&mut self, step: Step) -> io::Result<()> {
        let Exchange { secured, pledgor } = &mut self.ends;
        let answer = match step {
            Step::Show => {
                self.show_secured()?;
                return self.show_pledgor();
            }
            Step::BookAtSecured => {
                let answer = secured.book_next();
                return self.tell_booked(step, answer);
            }
            Step::BookAtPledgor => {
                let answer = pledgor.book_next();
                return self.tell_booked(step, answer);
            }
            Step::Notify { day } => self.notify(day),
            Step::Resolve { source } => self.resolve(source),
            Step::Confirm => {
                let drafted = secured.book.confirm();
                secured.issue(drafted, pledgor)
            }
            Step::Reply { lot } => {
                let drafted = secured.book.reply(lot);
                secured.issue(drafted, pledgor)
            }
            Step::Answer => self.answer(),
            Step::Deliver { lot } => {
                let drafted = pledgor.book.deliver(lot);
                pledgor.issue(drafted, secured)
            }
            Step::Substitute { new, old } => {
                let drafted = pledgor.book.substitute(new, old);
                pledgor.issue(drafted, secured)
            }
            Step::Ask { lot } => {
                let drafted = pledgor.book.ask(lot);
                pledgor.issue(drafted, secured)
            }
            Step::Release => {
                let drafted = pledgor.book.release();
                pledgor.issue(drafted, secured)
            }
        };
        self.tell_issued(step, answer)
    }
}

/// Makes the steps of a scenario, if it has any, on two books that are opened on its terms.
pub(crate) fn make_steps(rt: &HostRuntime, lines: &Lines, annex: Annex) -> io::Result<()> {
    if lines.steps.is_empty() {
        return Ok(());
    }
    let ends = match Exchange::open(rt.alloc(), annex, lines.own_lots.as_slice()) {
        Ok(ends) => ends,
        Err(refusal) => return println!(rt; "refused {refusal}"),
    };
    let mut agreement = Agreement { rt, lines, ends };
    for step in lines.steps.iter() {
        agreement.make(*step)?;
    }
    Ok(())
}
