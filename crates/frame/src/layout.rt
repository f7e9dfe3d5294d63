//! The trailer: its fields as they lie, their widths and ranges. Every number of the layout stands
//! here once.
ghost use Rattle.std.specs.Prelude.{◌≡◌, ◌≢◌, length, MatchOption};
ghost use Rattle.octets.specs.Puts.{Puts};
ghost use Rattle.frame.specs.Layout.{acknowledgement_fits, number_fits, trailer_bytes, trailer_length, TypedTrailer, unfit_trailer};

use message::ranges::first_unfit;
use octets::{Octets, exactly};

/// How many bytes the message number takes, and the acknowledgement likewise.
pub const NUMBER_WIDTH: usize = 4;
/// The trailer: number, acknowledgement, tag, version, back.
pub const TRAILER_LENGTH: usize = 2 * NUMBER_WIDTH + 4;
/// The longest frame, and the shortest buffer that is written to.
pub const LONGEST_FRAME: usize = 64;

pub const LAST_NUMBER: u64 = 1_000_000;

pub const VERSION: u8 = 0x01;
/// The tag of a data frame.
pub const DATA: u8 = 0x44;
/// The tag of an acknowledgement alone.
pub const ALONE: u8 = 0x4B;

const ACKNOWLEDGEMENT_AT: usize = NUMBER_WIDTH;

const TAG_AT: usize = 2 * NUMBER_WIDTH;

const VERSION_AT: usize = TAG_AT + 1;

const BACK_AT: usize = TAG_AT + 2;

/// The fields of a trailer, fit or not.
// Tag and version are numbers, since a trailer with any bytes there is read, and then judged in the
// order of its fields.
#[derive(Clone, Copy, PartialEq, Eq, Debug)]
pub struct Trailer {
    pub number: u64,
    pub acknowledgement: u64,
    pub tag: u8,
    pub version: u8,
    pub back: usize,
}

/// The fields of a trailer as they lie.
type Fields = (u32, (u32, (u8, (u8, u16))));

impl Trailer {
    /// The fields that the last bytes of a frame hold.
    pub(crate) fn read(bytes: &[u8]) -> Option<Trailer>
        ensures { MatchOption result (length bytes.now ≢ trailer_length) (λ t. (bytes.now ≡ trailer_bytes t) × TypedTrailer t) }
    {
        let (number, (acknowledgement, (tag, (version, back)))) = exactly::<Fields>(bytes)?;
        Some(Trailer {
            number: u64::from(number),
            acknowledgement: u64::from(acknowledgement),
            tag,
            version,
            back: usize::from(back),
        })
    }

    /// Puts the trailer into the front of the buffer, and returns its length. Where it has no
    /// room, nothing is put.
    pub(crate) fn put(&self, buffer: &mut [u8]) -> Option<usize>
        requires { TypedTrailer self.now }
        ensures { Puts (trailer_bytes self.now) result buffer.old buffer.new }
    {
        let fields: Fields = (
            self.number as u32,
            (
                self.acknowledgement as u32,
                (self.tag, (self.version, self.back as u16)),
            ),
        );
        fields.put(buffer)
    }

    /// The position in the trailer of its first unfit field, in a frame of `len` bytes.
    // An Option: who reads or writes makes a refusal of its own of the position.
    pub(crate) fn unfit(&self, len: usize) -> Option<usize>
        ensures { result ≡ unfit_trailer len self.now }
    {
        first_unfit(&[
            (0, number_fits(self.tag, self.number)),
            (
                ACKNOWLEDGEMENT_AT,
                acknowledgement_fits(self.acknowledgement),
            ),
            (TAG_AT, matches!(self.tag, DATA | ALONE)),
            (VERSION_AT, self.version == VERSION),
            (BACK_AT, self.back == len),
        ])
    }
}

fn number_fits(tag: u8, number: u64) -> bool
    ensures { result ≡ number_fits tag number }
{
    if tag == ALONE {
        number == 0
    } else {
        (1..=LAST_NUMBER).contains(&number)
    }
}

/// Whether this may be the next number that a sender expects.
pub(crate) fn acknowledgement_fits(acknowledgement: u64) -> bool
    ensures { result ≡ acknowledgement_fits acknowledgement }
{
    (1..=LAST_NUMBER + 1).contains(&acknowledgement)
}
