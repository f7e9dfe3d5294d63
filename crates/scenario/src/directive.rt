//! One line of a scenario.
ghost use Rattle.std.specs.Prelude.{Some, codes};
ghost use Rattle.scenario.specs.Lines.{SourceRead, source_word, step_line};

use amounts::{Lot, SecuredLot};
use annex::schedule::standard_schedule;
use annex::{Row, Terms};
use scripted::Entry;
use std::alloc::{AllocError, AllocFailed, Global};
use std::error::Error;
use std::fmt;
use std::str::FromStr;
use words::Words;

/// Where a day's row is read from.
#[derive(Clone, Copy, PartialEq, Eq, Debug)]
pub enum Source {
    Sheet,
    Panel,
}

// By hand: a derived Display states no text.
impl fmt::Display for Source {
    ghost output = { λ source. Some (source_word source) };

    fn fmt<W: fmt::Write>(&self, f: &mut fmt::Formatter<W>) -> fmt::Result {
        f.write_str(match self {
            Source::Sheet => "sheet",
            Source::Panel => "panel",
        })
    }
}

/// A word that names no source.
#[derive(Clone, Copy, PartialEq, Eq, Debug)]
pub struct UnknownSource;

// By hand: a derived Display states no text.
impl fmt::Display for UnknownSource {
    ghost output = { λ _. Some (codes "a source is sheet or panel") };

    fn fmt<W: fmt::Write>(&self, f: &mut fmt::Formatter<W>) -> fmt::Result {
        f.write_str("a source is sheet or panel")
    }
}

impl Error for UnknownSource {}

impl FromStr for Source {
    type Err = UnknownSource;

    ghost from_str_gives = { SourceRead };

    fn from_str(word: &str) -> Result<Source, UnknownSource> {
        match word {
            "sheet" => Ok(Source::Sheet),
            "panel" => Ok(Source::Panel),
            _ => Err(UnknownSource),
        }
    }
}

/// One step of an agreement: a call of either end, or the booking of the oldest message under way.
#[derive(Clone, Copy, PartialEq, Eq, Debug)]
pub enum Step {
    /// The secured end weighs the sheet's row of this day, and notifies what it comes to.
    Notify { day: u32 },
    Resolve { source: Source },
    Confirm,
    Reply { lot: u8 },
    /// The pledgor answers with its own row of its day.
    Answer,
    Deliver { lot: u8 },
    Substitute { new: u8, old: u8 },
    Ask { lot: u8 },
    Release,
    BookAtSecured,
    BookAtPledgor,
    /// Both books are told.
    Show,
}

/// The line of a scenario that says it.
impl fmt::Display for Step {
    ghost output = { λ step. Some (step_line step) };

    fn fmt<W: fmt::Write>(&self, f: &mut fmt::Formatter<W>) -> fmt::Result {
        match self {
            Step::Notify { day } => write!(f, "notify {day}"),
            Step::Resolve { source } => write!(f, "resolve {source}"),
            Step::Confirm => f.write_str("confirm"),
            Step::Reply { lot } => write!(f, "reply {lot}"),
            Step::Answer => f.write_str("answer"),
            Step::Deliver { lot } => write!(f, "deliver {lot}"),
            Step::Substitute { new, old } => write!(f, "substitute {new} {old}"),
            Step::Ask { lot } => write!(f, "ask {lot}"),
            Step::Release => f.write_str("release"),
            Step::BookAtSecured => f.write_str("book secured"),
            Step::BookAtPledgor => f.write_str("book pledgor"),
            Step::Show => f.write_str("show"),
        }
    }
}

/// The terms, without the percentages of the classes.
// Terms of its own: the percentages stand in another line, and none are assumed until it is read.
#[derive(Clone, Copy, PartialEq, Eq, Debug)]
pub struct TermsLine {
    pub threshold: u64,
    pub pledgor_minimum: u64,
    pub secured_minimum: u64,
    pub pledgor_independent: u64,
    pub secured_independent: u64,
}

impl TermsLine {
    /// The terms with these percentages.
    pub(crate) fn under(self, percentages: [u32; 8]) -> Terms {
        let TermsLine {
            threshold,
            pledgor_minimum,
            secured_minimum,
            pledgor_independent,
            secured_independent,
        } = self;
        Terms {
            threshold,
            pledgor_minimum,
            secured_minimum,
            pledgor_independent,
            secured_independent,
            percentages,
        }
    }
}

/// A panel: its day, and which of the scenario's quotes are its own.
// Two indices and no list of its own: a panel's line is `Copy`.
#[derive(Clone, Copy, PartialEq, Eq, Debug)]
pub struct PanelLine {
    pub day: u32,
    pub from: usize,
    pub to: usize,
}

/// A day to be valued, and where its row is read from.
#[derive(Clone, Copy, PartialEq, Eq, Debug)]
pub struct ValueLine {
    pub day: u32,
    pub source: Source,
}

/// What a line says.
#[derive(Clone, Copy, PartialEq, Eq, Debug)]
pub enum Directive {
    /// Nothing, or a comment: a line like the others, and matched with them.
    Blank,
    Terms(TermsLine),
    /// The percentage of each class.
    Schedule([u32; 8]),
    Lot(SecuredLot),
    Row(Row),
    /// The quotes follow it in the line.
    Panel { day: u32 },
    Value(ValueLine),
    /// The carrier that the days' frames go over, by its places.
    Carrier { places: usize },
    /// One more lot of the pledgor.
    OwnLot(Lot),
    /// One more row of the pledgor's own sheet.
    OwnRow(Row),
    Step(Step),
    /// One more entry of the carrier's script.
    Fault(Entry),
}

/// Why a line is not taken.
#[derive(Clone, Copy)]
pub(crate) enum LineError {
    /// It is not what was expected.
    Expected(&'static str),
    /// There is not enough memory.
    Memory,
}

// From by hand: a derived error has words, and these errors are told in the words of Unreadable.
impl From<AllocError> for LineError {
    fn from(_: AllocError) -> LineError {
        LineError::Memory
    }
}

impl<T: Drop> From<AllocFailed<T>> for LineError {
    fn from(_: AllocFailed<T>) -> LineError {
        LineError::Memory
    }
}

fn terms(words: &mut Words<'_>) -> Option<TermsLine> {
    words.keyword("threshold")?;
    let threshold = words.number()?;
    words.keyword("minimum")?;
    let pledgor_minimum = words.number()?;
    let secured_minimum = words.number()?;
    words.keyword("independent")?;
    let pledgor_independent = words.number()?;
    let secured_independent = words.number()?;
    Some(TermsLine {
        threshold,
        pledgor_minimum,
        secured_minimum,
        pledgor_independent,
        secured_independent,
    })
}

fn schedule(words: &mut Words<'_>) -> Option<[u32; 8]> {
    match words.next()? {
        "standard" => Some(standard_schedule()),
        first => {
            let mut percentages = [first.parse::<u32>().ok()?; 8];
            for percentage in percentages.iter_mut().skip(1) {
                *percentage = words.number()?;
            }
            Some(percentages)
        }
    }
}

fn lot(words: &mut Words<'_>) -> Option<Lot> {
    words.keyword("class")?;
    let class = words.number()?;
    words.keyword("face")?;
    let face = words.number()?;
    Some(Lot { class, face })
}

fn secured_lot(words: &mut Words<'_>) -> Option<SecuredLot> {
    let lot = lot(words)?;
    SecuredLot::in_state(words.next()?, lot)
}

fn row(words: &mut Words<'_>) -> Option<Row> {
    let day = words.number()?;
    words.keyword("exposure")?;
    let exposure = words.optional()?;
    words.keyword("prices")?;
    let prices = words.prices()?;
    Some(Row {
        day,
        exposure,
        prices,
    })
}

fn panel(words: &mut Words<'_>) -> Option<u32> {
    let day = words.number()?;
    words.keyword("quotes")?;
    Some(day)
}

fn value(words: &mut Words<'_>) -> Option<ValueLine> {
    let day = words.number()?;
    let source = words.next()?.parse().ok()?;
    Some(ValueLine { day, source })
}

fn places(words: &mut Words<'_>) -> Option<usize> {
    words.keyword("places")?;
    words.number()
}

fn fault(words: &mut Words<'_>) -> Option<Entry> {
    words.keyword("call")?;
    let count = words.number()?;
    let fault = words.next()?.parse().ok()?;
    let position = words.number()?;
    Some(Entry {
        count,
        fault,
        position,
    })
}

fn resolve(words: &mut Words<'_>) -> Option<Step> {
    let source = words.next()?.parse().ok()?;
    Some(Step::Resolve { source })
}

fn substitute(words: &mut Words<'_>) -> Option<Step> {
    let new = words.number()?;
    let old = words.number()?;
    Some(Step::Substitute { new, old })
}

fn book(words: &mut Words<'_>) -> Option<Step> {
    match words.next()? {
        "secured" => Some(Step::BookAtSecured),
        "pledgor" => Some(Step::BookAtPledgor),
        _ => None,
    }
}

const LOT_CALL: &str = "'reply LOT', 'deliver LOT' or 'ask LOT'";

const ALONE: &str = "'confirm', 'answer', 'release' or 'show' alone";

impl Directive {
    /// What the line says, or what was expected in its place. The quotes of a panel are left in `words`.
    pub(crate) fn parse(words: &mut Words<'_>) -> Result<Directive, LineError> {
        let Some(kind) = words.next() else {
            return Ok(Directive::Blank);
        };
        let (directive, expected) = match kind {
            "terms" => (
                terms(words).map(Directive::Terms),
                "'terms threshold AMOUNT minimum AMOUNT AMOUNT independent AMOUNT AMOUNT'",
            ),
            "schedule" => (
                schedule(words).map(Directive::Schedule),
                "'schedule standard' or 'schedule' and eight percentages",
            ),
            "lot" => (
                secured_lot(words).map(Directive::Lot),
                "'lot class CLASS face AMOUNT' and 'held', 'owed-back' or 'decline-owed'",
            ),
            "row" => (
                row(words).map(Directive::Row),
                "'row DAY exposure NUMBER prices' and eight prices, '-' for none",
            ),
            "panel" => {
                return match panel(words) {
                    Some(day) => Ok(Directive::Panel { day }),
                    None => Err(LineError::Expected("'panel DAY quotes' and the quotes")),
                };
            }
            "value" => (
                value(words).map(Directive::Value),
                "'value DAY sheet' or 'value DAY panel'",
            ),
            "carrier" => (
                places(words).map(|places| Directive::Carrier { places }),
                "'carrier places NUMBER'",
            ),
            "fault" => (
                fault(words).map(Directive::Fault),
                "'fault call NUMBER' and 'lose', 'repeat' or 'move' and a position",
            ),
            "own-lot" => (
                lot(words).map(Directive::OwnLot),
                "'own-lot class CLASS face AMOUNT'",
            ),
            "own-row" => (
                row(words).map(Directive::OwnRow),
                "'own-row DAY exposure NUMBER prices' and eight prices, '-' for none",
            ),
            "notify" => (
                words
                    .number()
                    .map(|day| Directive::Step(Step::Notify { day })),
                "'notify DAY'",
            ),
            "resolve" => (
                resolve(words).map(Directive::Step),
                "'resolve sheet' or 'resolve panel'",
            ),
            "reply" => (
                words
                    .number()
                    .map(|lot| Directive::Step(Step::Reply { lot })),
                LOT_CALL,
            ),
            "deliver" => (
                words
                    .number()
                    .map(|lot| Directive::Step(Step::Deliver { lot })),
                LOT_CALL,
            ),
            "ask" => (
                words.number().map(|lot| Directive::Step(Step::Ask { lot })),
                LOT_CALL,
            ),
            "substitute" => (
                substitute(words).map(Directive::Step),
                "'substitute NEW-LOT OLD-LOT'",
            ),
            "book" => (
                book(words).map(Directive::Step),
                "'book secured' or 'book pledgor'",
            ),
            "confirm" => (Some(Directive::Step(Step::Confirm)), ALONE),
            "answer" => (Some(Directive::Step(Step::Answer)), ALONE),
            "release" => (Some(Directive::Step(Step::Release)), ALONE),
            "show" => (Some(Directive::Step(Step::Show)), ALONE),
            _ => return Err(LineError::Expected("a line that docs/SCENARIO.md has")),
        };
        let directive = directive.ok_or(LineError::Expected(expected))?;
        words.end().ok_or(LineError::Expected(expected))?;
        Ok(directive)
    }
}
