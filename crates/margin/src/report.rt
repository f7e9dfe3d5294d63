//! What the program tells of a scenario, one fact a line.
use crate::agreement::make_steps;
use crate::frames::first_frame;
use crate::path::Path;
use amounts::{Amounts, Lot, SecuredLot, amounts_of};
use annex::{Annex, Exposure, Row};
use message::Message;
use refusal::Refusal;
use scenario::{Lines, Scenario, Source, ValueLine};
use secured::telling;
use std::{fmt, io};
use valuer::{Panel, Sheet};

/// What a fact is told of.
#[derive(Clone, Copy, PartialEq, Eq, Debug)]
pub(crate) enum Subject {
    Terms,
    Carrier,
    Day(u32),
    /// What is left after the last day.
    End,
}

impl fmt::Display for Subject {
    fn fmt<W: fmt::Write>(&self, f: &mut fmt::Formatter<W>) -> fmt::Result {
        match self {
            Subject::Terms => f.write_str("terms"),
            Subject::Carrier => f.write_str("carrier"),
            Subject::Day(day) => write!(f, "day {day}"),
            Subject::End => f.write_str("end"),
        }
    }
}

/// Tells the facts of one subject.
#[derive(Clone, Copy)]
pub(crate) struct Report<'a> {
    pub(crate) rt: &'a HostRuntime,
    pub(crate) subject: Subject,
}

impl<'a> Report<'a> {
    pub(crate) fn tell(&self, fact: impl fmt::Display + Drop) -> io::Result<()> {
        let subject = self.subject;
        println!(self.rt; "{subject} {fact}")
    }

    fn tell_lot(
        &self,
        number: usize,
        entry: &SecuredLot,
        annex: &Annex,
        row: &Row,
    ) -> io::Result<()> {
        let state = entry.state();
        let Some(lot) = entry.lot() else {
            return self.tell(format_args!("lot {number} {state}"));
        };
        let Lot { class, face } = lot;
        match amounts::value(annex, row, &lot) {
            Ok(value) => self.tell(format_args!(
                "lot {number} class {class} face {face} {state} value {value}"
            )),
            Err(refusal) => {
                let refused = refusal.number();
                self.tell(format_args!(
                    "lot {number} class {class} face {face} {state} refused {refused}"
                ))
            }
        }
    }

    fn tell_amounts(&self, amounts: &Amounts) -> io::Result<()> {
        let Amounts {
            support,
            delivery,
            excess,
            notice,
        } = *amounts;
        self.tell(format_args!("credit-support-amount {support}"))?;
        self.tell(format_args!("delivery-amount {delivery}"))?;
        self.tell(format_args!("return-amount {excess}"))?;
        self.tell(format_args!("finding {notice}"))
    }
}

// What a day's row comes to.
#[derive(Clone, Copy)]
struct Weighed {
    row: Row,
    exposure: Exposure,
    v: u64,
    amounts: Amounts,
}

// The days of a scenario that are valued: by what, and which way their frames go.
#[derive(Drop)]
struct Valuation<'a> {
    rt: &'a HostRuntime,
    annex: Annex,
    lines: &'a Lines,
    path: Option<Path>,
}

impl<'a> Valuation<'a> {
    // The row of a day; a day without a panel has an empty one.
    // An arm for each source, here and where a day is resolved: they are valuers of two types.
    fn row(&self, line: &ValueLine) -> Result<Row, Refusal> {
        let day = line.day;
        match line.source {
            Source::Sheet => Ok(valuer::read_row(&Sheet::new(self.lines.rows.as_slice()), day)),
            Source::Panel => {
                let panel = Panel::open(day, self.lines.quotes_of(day))?;
                Ok(valuer::read_row(&panel, day))
            }
        }
    }

    // The frame in which a message would be sent, as the first of an agreement, and its way.
    fn send(&mut self, report: &Report<'_>, message: &Message) -> io::Result<()> {
        let frame = match first_frame(message) {
            Ok(frame) => frame,
            Err(refusal) => return report.tell(format_args!("refused {refusal}")),
        };
        let digits = hex::encode_upper(self.rt.alloc(), frame.bytes())?;
        report.tell(format_args!("frame {digits}"))?;
        match &mut self.path {
            Some(path) => path.send(report, frame.bytes()),
            None => Ok(()),
        }
    }

    // A day's row, and what it comes to.
    fn weigh(&self, line: &ValueLine) -> Result<Weighed, Refusal> {
        let row = self.row(line)?;
        let v = amounts::total(&self.annex, &row, self.lines.lots.as_slice())?;
        let exposure = row.check()?;
        Ok(Weighed {
            row,
            exposure,
            v,
            amounts: amounts_of(&self.annex, exposure, v),
        })
    }

    fn tell(&mut self, report: &Report<'_>, weighed: &Weighed) -> io::Result<()> {
        let Weighed {
            row,
            exposure: Exposure {
                hundredths: exposure,
            },
            v,
            amounts,
        } = *weighed;
        report.tell(format_args!("exposure {exposure}"))?;
        for (number, entry) in self.lines.lots.iter().enumerate() {
            report.tell_lot(number, entry, &self.annex, &row)?;
        }
        report.tell(format_args!("v {v}"))?;
        report.tell_amounts(&amounts)?;
        self.send(report, &telling(row.day, exposure, amounts.notice))
    }

    fn value(&mut self, line: &ValueLine) -> io::Result<()> {
        let report = Report {
            rt: self.rt,
            subject: Subject::Day(line.day),
        };
        let source = line.source;
        report.tell(format_args!("source {source}"))?;
        match self.weigh(line) {
            Ok(weighed) => self.tell(&report, &weighed),
            Err(refusal) => report.tell(format_args!("refused {refusal}")),
        }
    }
}

fn refused(rt: &HostRuntime, subject: Subject, refusal: Refusal) -> io::Result<()> {
    Report { rt, subject }.tell(format_args!("refused {refusal}"))
}

/// The amounts of each day that the scenario wants valued, and the way of its frame; or the refusal of
/// its terms or its carrier. Then the steps of its agreement.
pub(crate) fn run(rt: &HostRuntime, scenario: Scenario) -> io::Result<()> {
    let Scenario { terms, mut lines } = scenario;
    // Two refusals, each told of a subject of its own.
    let annex = match Annex::open(terms) {
        Ok(annex) => annex,
        Err(refusal) => return refused(rt, Subject::Terms, refusal),
    };
    let path = match lines.carrier.take().map(Path::open).transpose() {
        Ok(path) => path,
        Err(refusal) => return refused(rt, Subject::Carrier, refusal),
    };
    let mut valuation = Valuation {
        rt,
        annex,
        lines: &lines,
        path,
    };
    for line in lines.values.iter() {
        valuation.value(line)?;
    }
    if let Some(path) = &mut valuation.path {
        path.drain(&Report {
            rt,
            subject: Subject::End,
        })?;
    }
    make_steps(rt, &lines, annex)
}
