//! A whole scenario: every line is read before anything is done.
ghost use Rattle.std.specs.Prelude.{◌≡◌, option_map};
ghost use Rattle.scenario.specs.Lines.{first_panel, quotes_of};

use crate::directive::{Directive, LineError, Step, TermsLine};
pub use crate::directive::{PanelLine, ValueLine};
use amounts::{Lot, SecuredLot};
use annex::{Row, Terms};
use scripted::Entry;
use std::alloc::{AllocError, AllocFailed, Global};
use thiserror::Error;
use words::Words;

/// The carrier that the days' frames go over: its places, and its script.
#[derive(Drop)]
pub struct CarrierLines {
    pub places: usize,
    pub script: Vec<Entry>,
}

/// What the lines of a scenario say beside its terms, in their order.
#[derive(Drop)]
pub struct Lines {
    pub lots: Vec<SecuredLot>,
    pub rows: Vec<Row>,
    /// The quotes of all panels.
    pub quotes: Vec<i64>,
    pub panels: Vec<PanelLine>,
    pub values: Vec<ValueLine>,
    /// The carrier, if there is one.
    pub carrier: Option<CarrierLines>,
    /// The pledgor's lots, and its own sheet.
    pub own_lots: Vec<Lot>,
    pub own_rows: Vec<Row>,
    /// What the two ends do, in order.
    pub steps: Vec<Step>,
}

impl Lines {
    fn new(heap: Global) -> Lines {
        Lines {
            lots: Vec::new(heap),
            rows: Vec::new(heap),
            quotes: Vec::new(heap),
            panels: Vec::new(heap),
            values: Vec::new(heap),
            carrier: None,
            own_lots: Vec::new(heap),
            own_rows: Vec::new(heap),
            steps: Vec::new(heap),
        }
    }

    // The first panel of a day.
    fn panel(&self, day: u32) -> Option<&PanelLine>
        ensures { option_map (λ panel. panel.now) result ≡ first_panel day self.now.panels.items }
    {
        self.panels.iter().find(|panel| panel.day == day)
    }

    /// The quotes of the first panel of a day; a day without a panel has none.
    pub fn quotes_of(&self, day: u32) -> &[i64]
        ensures { result.now ≡ quotes_of self.now.quotes.items (first_panel day self.now.panels.items) }
    {
        match self.panel(day) {
            Some(panel) => self
                .quotes
                .as_slice()
                .get(panel.from..panel.to)
                .unwrap_or(&[]),
            None => &[],
        }
    }
}

/// What a scenario says.
#[derive(Drop)]
pub struct Scenario {
    pub terms: Terms,
    pub lines: Lines,
}

/// Why a text is no scenario.
#[derive(Clone, Copy, Debug, Error)]
pub enum Unreadable {
    /// The line of this number, from 1, is not what was expected.
    #[error("line {number}: expected {expected}")]
    Line {
        number: usize,
        expected: &'static str,
    },
    /// The text ends without a line that it has to have.
    #[error("at the end: expected {expected}")]
    Missing {
        expected: &'static str,
    },
    /// There is not enough memory.
    #[error("not enough memory")]
    Memory,
}

impl From<AllocError> for Unreadable {
    fn from(_: AllocError) -> Unreadable {
        Unreadable::Memory
    }
}

impl<T: Drop> From<AllocFailed<T>> for Unreadable {
    fn from(_: AllocFailed<T>) -> Unreadable {
        Unreadable::Memory
    }
}

impl Unreadable {
    // What is wrong with the line of this number.
    fn at(number: usize, error: LineError) -> Unreadable {
        match error {
            LineError::Expected(expected) => Unreadable::Line { number, expected },
            LineError::Memory => Unreadable::Memory,
        }
    }
}

// Sets what only one line may set.
fn set_once<T: Drop>(
    slot: &mut Option<T>,
    value: T,
    expected: &'static str,
) -> Result<(), LineError> {
    if slot.is_some() {
        return Err(LineError::Expected(expected));
    }
    *slot = Some(value);
    Ok(())
}

// What has been read so far.
#[derive(Drop)]
struct Draft {
    terms: Option<TermsLine>,
    percentages: Option<[u32; 8]>,
    lines: Lines,
}

impl Draft {
    fn new(heap: Global) -> Draft {
        Draft {
            terms: None,
            percentages: None,
            lines: Lines::new(heap),
        }
    }

    // An entry of the script of a carrier that stands above it.
    fn add_fault(&mut self, entry: Entry) -> Result<(), LineError> {
        let carrier = self.lines.carrier.as_mut().ok_or(LineError::Expected(
            "a 'carrier' line before the first 'fault'",
        ))?;
        carrier.script.push(entry)?;
        Ok(())
    }

    // The quotes of a panel are the words that are left of its line.
    fn add_panel(&mut self, day: u32, words: &mut Words<'_>) -> Result<(), LineError> {
        let from = self.lines.quotes.len();
        for word in words {
            let quote = word.parse::<i64>().map_err(|_| LineError::Expected(
                "'panel DAY quotes' and the quotes, each a whole number",
            ))?;
            self.lines.quotes.push(quote)?;
        }
        let to = self.lines.quotes.len();
        self.lines.panels.push(PanelLine { day, from, to })?;
        Ok(())
    }

    fn add(&mut self, heap: Global, line: &str) -> Result<(), LineError> {
        if line.starts_with('#') {
            return Ok(());
        }
        let words = &mut Words::new(line);
        match Directive::parse(words)? {
            Directive::Blank => {}
            Directive::Terms(terms) => set_once(&mut self.terms, terms, "one 'terms' line")?,
            Directive::Schedule(percentages) => set_once(
                &mut self.percentages,
                percentages,
                "one 'schedule' line",
            )?,
            Directive::Lot(lot) => self.lines.lots.push(lot)?,
            Directive::Row(row) => self.lines.rows.push(row)?,
            Directive::Panel { day } => self.add_panel(day, words)?,
            Directive::Value(value) => self.lines.values.push(value)?,
            Directive::Carrier { places } => {
                let carrier = CarrierLines {
                    places,
                    script: Vec::new(heap),
                };
                set_once(
                    &mut self.lines.carrier,
                    carrier,
                    "at most one 'carrier' line",
                )?
            }
            Directive::Fault(entry) => self.add_fault(entry)?,
            Directive::OwnLot(lot) => self.lines.own_lots.push(lot)?,
            Directive::OwnRow(row) => self.lines.own_rows.push(row)?,
            Directive::Step(step) => self.lines.steps.push(step)?,
        }
        Ok(())
    }

    fn finish(self) -> Result<Scenario, Unreadable> {
        let Draft {
            terms,
            percentages,
            lines,
        } = self;
        let terms = terms.ok_or(Unreadable::Missing {
            expected: "a 'terms' line",
        })?;
        let percentages = percentages.ok_or(Unreadable::Missing {
            expected: "a 'schedule' line",
        })?;
        Ok(Scenario {
            terms: terms.under(percentages),
            lines,
        })
    }
}

/// The scenario that a text is, or the first line that is not what was expected.
pub fn read(heap: Global, text: &str) -> Result<Scenario, Unreadable> {
    let mut draft = Draft::new(heap);
    for (number, line) in (1..).zip(text.lines()) {
        draft
            .add(heap, line)
            .map_err(|error| Unreadable::at(number, error))?;
    }
    draft.finish()
}

#[cfg(test)]
mod tests {
    use super::*;
    use std::test::Fail;

    const TERMS: &str = "terms threshold 5 minimum 1 2 independent 3 4\nschedule standard\n";

    #[test]
    fn a_scenario_is_read_whole(rt: HostRuntime) -> Result<(), Fail> {
        let text = format!(in rt.alloc();
            "{TERMS}# lots\nlot class 7 face 9 held\n\npanel 3 quotes -1 -2\npanel 4 quotes 8\nvalue 3 panel\n"
        )?;
        let Ok(scenario) = read(rt.alloc(), text.as_str()) else {
            return Err(Fail::new("unreadable"));
        };
        assert_eq!(rt; scenario.terms.secured_independent, 4);
        assert_eq!(rt;
            scenario.terms.percentages,
            [10_000, 9_950, 9_850, 9_700, 9_500, 9_250, 8_950, 8_600]
        );
        assert_eq!(rt; scenario.lines.lots.len(), 1);
        assert_eq!(rt; scenario.lines.panels.len(), 2);
        assert_eq!(rt; scenario.lines.quotes_of(3), [-1i64, -2].as_slice());
        assert_eq!(rt; scenario.lines.quotes_of(4), [8i64].as_slice());
        assert_eq!(rt; scenario.lines.values.len(), 1);
        Ok(())
    }

    fn refused_at(rt: &HostRuntime, line: &str) -> Result<Option<usize>, Fail> {
        let text = format!(in rt.alloc(); "{TERMS}{line}\n")?;
        match read(rt.alloc(), text.as_str()) {
            Err(Unreadable::Line { number, .. }) => Ok(Some(number)),
            _ => Ok(None),
        }
    }

    #[test]
    fn a_malformed_line_is_named(rt: HostRuntime) -> Result<(), Fail> {
        assert_eq!(rt;
            refused_at(&rt, "row 7 exposure 5 prices 1 2 3 4 5 6 7")?,
            Some(3)
        );
        assert_eq!(rt;
            refused_at(&rt, "row 7 exposure 5 prices 1 2 3 4 5 6 7 8 9")?,
            Some(3)
        );
        assert_eq!(rt; refused_at(&rt, "lot class 1 face 2 lost")?, Some(3));
        assert_eq!(rt; refused_at(&rt, "lot class 256 face 2 held")?, Some(3));
        assert_eq!(rt; refused_at(&rt, "panel 3 quotes 1 x")?, Some(3));
        assert_eq!(rt; refused_at(&rt, "value 3 market")?, Some(3));
        assert_eq!(rt; refused_at(&rt, "schedule standard")?, Some(3));
        assert_eq!(rt; refused_at(&rt, "notice 3")?, Some(3));
        Ok(())
    }

    #[test]
    fn terms_have_to_be_there(rt: HostRuntime) -> Result<(), Fail> {
        match read(rt.alloc(), "schedule standard\n") {
            Err(Unreadable::Missing { .. }) => Ok(()),
            _ => Err(Fail::new("read")),
        }
    }
}
