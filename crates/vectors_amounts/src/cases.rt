//! One case: its words, and what the library answers.
use crate::failure::Failure;
use amounts::{PledgorLot, SecuredLot};
use annex::schedule::standard_percentage;
use annex::{Annex, Row};
use std::alloc::{AllocError, Global};
use valuer::{Panel, Sheet};
use words::{OrDash, Words};

fn secured_lot(words: &mut Words<'_>) -> Option<SecuredLot> {
    let state = words.next()?;
    let lot = words.lot()?;
    match state {
        "absent" => Some(SecuredLot::Absent),
        state => SecuredLot::in_state(state, lot),
    }
}

fn pledgor_lot(words: &mut Words<'_>) -> Option<PledgorLot> {
    Some(PledgorLot {
        place: words.number()?,
        lot: words.lot()?,
    })
}

fn told_row(heap: Global, row: &Row) -> Result<String, AllocError> {
    let mut text = format!(in heap; "{} {}", row.day, OrDash(row.exposure))?;
    for price in row.prices {
        write!(text, " {}", OrDash(price))?;
    }
    Ok(text)
}

// The words of a case that are still to be taken, and where its answer is built.
#[derive(Drop)]
struct Case<'a> {
    heap: Global,
    words: Words<'a>,
}

impl<'a> Case<'a> {
    // What comes next, which has to be there; each program of cases has failures of its own.
    fn take<T: Drop, F: Fn(&mut Words<'a>) -> Option<T>>(&mut self, read: F) -> Result<T, Failure>
        requires { F.IsAlwaysCallable read }
    {
        read(&mut self.words).ok_or(Failure::Malformed)
    }

    // A list of things behind how many they are.
    fn list<T: Drop, F: Fn(&mut Words<'a>) -> Option<T>>(
        &mut self,
        read: F,
    ) -> Result<Vec<T>, Failure>
        requires { F.IsAlwaysCallable read }
    {
        let mut list = Vec::new(self.heap);
        for _ in 0..self.take(Words::number::<u32>)? {
            list.push(read(&mut self.words).ok_or(Failure::Malformed)?)?;
        }
        Ok(list)
    }

    // Terms, a row and the lots of the secured end: V and the amounts.
    fn weigh(&mut self) -> Result<String, Failure> {
        let terms = self.take(Words::terms)?;
        let row = self.take(Words::row)?;
        let lots = self.list(secured_lot)?;
        let annex = Annex::open(terms)?;
        let v = amounts::total(&annex, &row, lots.as_slice())?;
        let exposure = row.check()?;
        let amounts = amounts::weigh(&annex, exposure.hundredths, v)?;
        Ok(format!(in self.heap;
            "{v} {} {} {} {}",
            amounts.support, amounts.delivery, amounts.excess, amounts.notice
        )?)
    }

    // Terms, a row and the lots of the pledgor: V.
    fn posted(&mut self) -> Result<String, Failure> {
        let terms = self.take(Words::terms)?;
        let row = self.take(Words::row)?;
        let lots = self.list(pledgor_lot)?;
        let v = amounts::total(&Annex::open(terms)?, &row, lots.as_slice())?;
        Ok(format!(in self.heap; "{v}")?)
    }

    // Terms, a row and one lot: its Value.
    fn value(&mut self) -> Result<String, Failure> {
        let terms = self.take(Words::terms)?;
        let row = self.take(Words::row)?;
        let lot = self.take(Words::lot)?;
        let value = amounts::value(&Annex::open(terms)?, &row, &lot)?;
        Ok(format!(in self.heap; "{value}")?)
    }

    // A class: its percentage by the standard schedule.
    fn standard(&mut self) -> Result<String, Failure> {
        let class = self.take(Words::number::<u8>)?;
        let percentage = standard_percentage(class)?;
        Ok(format!(in self.heap; "{percentage}")?)
    }

    // A day, and the rows of a sheet: the row of that day.
    fn sheet(&mut self) -> Result<String, Failure> {
        let day = self.take(Words::number::<u32>)?;
        let rows = self.list(Words::row)?;
        Ok(told_row(
            self.heap,
            &valuer::read_row(&Sheet::new(rows.as_slice()), day),
        )?)
    }

    // A panel's day, the day that is asked, and the quotes: the row of the asked day.
    fn panel(&mut self) -> Result<String, Failure> {
        let own = self.take(Words::number::<u32>)?;
        let day = self.take(Words::number::<u32>)?;
        let quotes: Vec<i64> = self
            .words
            .by_ref()
            .map(|word| word.parse::<i64>().map_err(|_| Failure::Malformed))
            .try_collect(self.heap)?;
        let panel = Panel::open(own, quotes.as_slice())?;
        Ok(told_row(self.heap, &valuer::read_row(&panel, day))?)
    }

    fn answered(&mut self) -> Result<String, Failure> {
        match self.words.next() {
            Some("weigh") => self.weigh(),
            Some("posted") => self.posted(),
            Some("value") => self.value(),
            Some("standard") => self.standard(),
            Some("sheet") => self.sheet(),
            Some("panel") => self.panel(),
            _ => Err(Failure::Malformed),
        }
    }
}

/// What the library answers to a case.
pub(crate) fn answer(heap: Global, line: &str) -> Result<String, AllocError> {
    let words = Words::new(line);
    match (Case { heap, words }).answered() {
        Ok(text) => Ok(text),
        Err(Failure::Memory(error)) => Err(error),
        Err(failure) => format!(in heap; "{failure}"),
    }
}
