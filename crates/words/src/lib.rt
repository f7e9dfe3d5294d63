//! The words of a line, taken one after another as numbers and keywords, and as the terms, rows and lots that
//! they write out.
#![tactic(auto)]

ghost use Rattle.std.specs.Prelude.{◌≡◌, length};
ghost use Rattle.words.specs.Things.{LotRead, Percentages, Prices, RowRead, TermsRead};
ghost use Rattle.words.specs.Words.{Calls, Ended, Filled, Keyword, Number, Optional};

use amounts::Lot;
use annex::{Row, Terms};
use std::fmt;
use std::marker::Model;
use std::str::{FromStr, SplitWhitespace};

/// A value as a word, "-" where there is none: what [`Words::optional`] takes back.
#[derive(Clone, Copy, PartialEq, Eq, Debug)]
pub struct OrDash<T>(pub Option<T>);

impl<T: fmt::Display> fmt::Display for OrDash<T> {
    ghost use Rattle.words.specs.Words.{dashed};

    ghost output = { λ x. dashed T.output x.0 };

    fn fmt<W: fmt::Write>(&self, f: &mut fmt::Formatter<W>) -> fmt::Result {
        match &self.0 {
            Some(value) => write!(f, "{value}"),
            None => f.write_str("-"),
        }
    }
}

/// The words of a line that are still to be taken.
#[derive(Drop)]
pub struct Words<'a> {
    words: SplitWhitespace<'a>,
}

impl<'a> Model for Words<'a> {
    ghost use Rattle.std.specs.Prelude.{ℕ, List};
    ghost use Rattle.std.specs.Str.Iter.{split_whitespace_rest};

    ghost Value = { List ℕ };

    ghost view = { λ w. split_whitespace_rest w.words };
}

impl<'a> Iterator for Words<'a> {
    type Item = &'a str;

    ghost use Rattle.std.specs.Prelude.{length};
    ghost use Rattle.std.specs.Iterator.{at_most};
    ghost use Rattle.words.specs.Words.{TakesWord};

    ghost next_gives = { TakesWord };

    ghost remaining = { λ text. at_most (length text) };

    fn next(&mut self) -> Option<&'a str> {
        self.words.next()
    }
}

impl<'a> Words<'a> {
    pub fn new(line: &'a str) -> Words<'a>
        ensures { result ≡ line.now }
    {
        Words {
            words: line.split_whitespace(),
        }
    }

    /// The next word as a number.
    // An Option: who reads a line tells what was expected there.
    #[tactic(auto, using(crate::proofs::Runs::number_taken))]
    pub fn number<T: FromStr>(&mut self) -> Option<T>
    where
        T::Err: Drop,
        ensures { Number T.from_str_gives self.old result self.new }
    {
        self.next()?.parse::<T>().ok()
    }

    /// The next word as a number, or as "-" for none: the outer none is a word that is missing or unfit, the inner
    /// none is "-".
    pub fn optional<T: FromStr>(&mut self) -> Option<Option<T>>
    where
        T::Err: Drop,
        ensures { Optional T.from_str_gives self.old result self.new }
    {
        match self.next()? {
            "-" => Some(None),
            number => number.parse::<T>().ok().map(Some),
        }
    }

    /// Whether the next word is this one.
    pub fn keyword(&mut self, expected: &str) -> Option<()>
        ensures { Keyword expected.now self.old result self.new }
    {
        (self.next()? == expected).then_some(())
    }

    /// Whether no word is left.
    pub fn end(&mut self) -> Option<()>
        ensures { Ended self.old result self.new }
    {
        self.next().is_none().then_some(())
    }

    // Reads one thing after another into the places.
    fn fill<T: Drop, F: Fn(&mut Words<'a>) -> Option<T>>(
        &mut self,
        places: &mut [T],
        read: F,
    ) -> Option<()>
        requires { F.IsAlwaysCallable read }
        ensures { Filled (Calls (F.post read)) (length places.old) self.old result places.new self.new }
    {
        for place in places.iter_mut() {
            *place = read(self)?;
        }
        Some(())
    }

    // The next words as numbers, one to each class.
    fn percentages(&mut self) -> Option<[u32; 8]>
        ensures { Percentages self.old result self.new }
    {
        let mut percentages = [0; 8];
        self.fill(&mut percentages, Words::number::<u32>)?;
        Some(percentages)
    }

    /// The next words as prices, one to each class, and "-" for each that is absent.
    #[tactic(auto, using(crate::proofs::Runs::all_there, crate::proofs::Runs::at_ends, crate::proofs::Runs::missing))]
    pub fn prices(&mut self) -> Option<[Option<u32>; 8]>
        ensures { Prices self.old result self.new }
    {
        let mut prices = [None; 8];
        self.fill(&mut prices, Words::optional::<u32>)?;
        Some(prices)
    }

    /// Terms, by their amounts and percentages.
    pub fn terms(&mut self) -> Option<Terms>
        ensures { TermsRead self.old result self.new }
    {
        Some(Terms {
            threshold: self.number()?,
            pledgor_minimum: self.number()?,
            secured_minimum: self.number()?,
            pledgor_independent: self.number()?,
            secured_independent: self.number()?,
            percentages: self.percentages()?,
        })
    }

    /// A day's row: its day, its exposure and the prices.
    pub fn row(&mut self) -> Option<Row>
        ensures { RowRead self.old result self.new }
    {
        Some(Row {
            day: self.number()?,
            exposure: self.optional()?,
            prices: self.prices()?,
        })
    }

    /// A lot: its class and its face amount.
    pub fn lot(&mut self) -> Option<Lot>
        ensures { LotRead self.old result self.new }
    {
        Some(Lot {
            class: self.number()?,
            face: self.number()?,
        })
    }
}
