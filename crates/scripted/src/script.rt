//! Scripts: what an entry says, and when a script is in range.
ghost use Rattle.std.specs.Prelude.{◌≡◌};
ghost use Rattle.std.specs.List.{list_all};
ghost use Rattle.scripted.specs.Script.{entry_fits, script_fits};

pub use crate::fault::Fault;

/// The most entries of a script.
const MOST_ENTRIES: usize = 64;
/// The last count that a call has.
pub(crate) const LAST_COUNT: u32 = 1_000_000_000;
/// The last position that an entry may name.
const LAST_POSITION: usize = 15;

/// One entry of a script: at which call, what, and to the frame at which position.
#[derive(Clone, Copy, PartialEq, Eq, Debug)]
pub struct Entry {
    pub count: u32,
    pub fault: Fault,
    pub position: usize,
}

// Whether an entry is in range.
fn in_range(entry: Entry) -> bool
    ensures { result ≡ entry_fits entry }
{
    (1..=LAST_COUNT).contains(&entry.count) && entry.position <= LAST_POSITION
}

// Whether each entry is in range.
fn all_in_range(script: &[Entry]) -> bool
    ensures { result ≡ list_all entry_fits script.now }
{
    script.iter().all(|entry| in_range(*entry))
}

// Whether a script has at most 64 entries, each in range.
pub(crate) fn fits(script: &[Entry]) -> bool
    ensures { result ≡ script_fits script.now }
{
    script.len() <= MOST_ENTRIES && all_in_range(script)
}
