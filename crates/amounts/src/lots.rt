//! Lots of collateral, where they stand at either end, and which of them count.
ghost use Rattle.std.specs.Prelude.{◌≡◌, Option, Some, codes};
ghost use Rattle.amounts.specs.Lots.{counts_at_pledgor, counts_at_secured, lot_fits, lot_of};
ghost use Rattle.amounts.specs.declared.lots.Lot.{Lot};
ghost use Rattle.amounts.specs.Words.{InState, place_word, PlaceRead, state_word};

use annex::CLASSES;
use std::error::Error;
use std::fmt;
use std::str::FromStr;

const LARGEST_FACE: u64 = 10_000_000_000;

/// A lot of collateral.
#[derive(Clone, Copy, PartialEq, Eq, Debug, Default)]
pub struct Lot {
    /// 0 to 7.
    pub class: u8,
    /// The face amount: 1 to 10^10 hundredths.
    pub face: u64,
}

/// A lot's entry in the table of the secured end.
// `Absent` is one of four states that are matched together; `lot` answers an `Option`.
#[derive(Clone, Copy, PartialEq, Eq, Debug)]
pub enum SecuredLot {
    Absent,
    Held(Lot),
    /// To be returned: still in the position, and no longer counted.
    OwedBack(Lot),
    /// Asked for and kept, of which the pledgor has yet to be told.
    DeclineOwed(Lot),
}

/// Where a lot of the pledgor is.
#[derive(Clone, Copy, PartialEq, Eq, Debug, Default)]
pub enum Place {
    #[default]
    Home,
    Posted,
    /// Posted, and asked back.
    Asked,
}

/// A lot's entry in the table of the pledgor; by default home, of class 0 and face 0.
#[derive(Clone, Copy, PartialEq, Eq, Debug, Default)]
pub struct PledgorLot {
    pub place: Place,
    pub lot: Lot,
}

/// An entry of a lot table: the lot that counts there, if any.
pub trait Holding {
    ghost counts: { Self → Option Lot };

    fn counted(&self) -> Option<Lot>
        ensures { result ≡ counts self.now };
}

impl Holding for SecuredLot {
    ghost counts = { counts_at_secured };

    fn counted(&self) -> Option<Lot> {
        match *self {
            SecuredLot::Held(lot) | SecuredLot::DeclineOwed(lot) => Some(lot),
            SecuredLot::Absent | SecuredLot::OwedBack(_) => None,
        }
    }
}

impl Holding for PledgorLot {
    ghost counts = { counts_at_pledgor };

    fn counted(&self) -> Option<Lot> {
        match self.place {
            Place::Posted => Some(self.lot),
            Place::Home | Place::Asked => None,
        }
    }
}

impl Lot {
    /// Whether class and face are in their ranges.
    pub fn fits(&self) -> bool
        ensures { result ≡ lot_fits self.now }
    {
        usize::from(self.class) < CLASSES && (1..=LARGEST_FACE).contains(&self.face)
    }
}

impl fmt::Display for Place {
    ghost output = { λ place. Some (place_word place) };

    fn fmt<W: fmt::Write>(&self, f: &mut fmt::Formatter<W>) -> fmt::Result {
        f.write_str(match self {
            Place::Home => "home",
            Place::Posted => "posted",
            Place::Asked => "asked",
        })
    }
}

/// A word that names no place.
#[derive(Clone, Copy, PartialEq, Eq, Debug)]
pub struct UnknownPlace;

impl fmt::Display for UnknownPlace {
    ghost output = { λ _. Some (codes "a place is home, posted or asked") };

    fn fmt<W: fmt::Write>(&self, f: &mut fmt::Formatter<W>) -> fmt::Result {
        f.write_str("a place is home, posted or asked")
    }
}

impl Error for UnknownPlace {}

impl FromStr for Place {
    type Err = UnknownPlace;

    ghost from_str_gives = { PlaceRead };

    fn from_str(word: &str) -> Result<Place, UnknownPlace> {
        match word {
            "home" => Ok(Place::Home),
            "posted" => Ok(Place::Posted),
            "asked" => Ok(Place::Asked),
            _ => Err(UnknownPlace),
        }
    }
}

impl SecuredLot {
    /// The lot of the entry, in any state but absent.
    pub fn lot(&self) -> Option<Lot>
        ensures { result ≡ lot_of self.now }
    {
        match *self {
            SecuredLot::Held(lot) | SecuredLot::OwedBack(lot) | SecuredLot::DeclineOwed(lot) => {
                Some(lot)
            }
            SecuredLot::Absent => None,
        }
    }

    /// The word of the entry's state.
    pub fn state(&self) -> &'static str
        ensures { result.now ≡ state_word self.now }
    {
        match *self {
            SecuredLot::Absent => "absent",
            SecuredLot::Held(_) => "held",
            SecuredLot::OwedBack(_) => "owed-back",
            SecuredLot::DeclineOwed(_) => "decline-owed",
        }
    }

    /// The lot in the state that a word names; none where the word names no state of a lot.
    pub fn in_state(word: &str, lot: Lot) -> Option<SecuredLot>
        ensures { InState word.now lot result }
    {
        match word {
            "held" => Some(SecuredLot::Held(lot)),
            "owed-back" => Some(SecuredLot::OwedBack(lot)),
            "decline-owed" => Some(SecuredLot::DeclineOwed(lot)),
            _ => None,
        }
    }
}
