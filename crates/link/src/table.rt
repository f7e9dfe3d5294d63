//! The link behind its promise: the table's front is what is unacknowledged, every number is in its
//! range, and every kept message can be sent.
ghost use Rattle.std.specs.Prelude.{◌≡◌, ◌≤◌, length};
ghost use Rattle.link.specs.Fits.{window};
ghost use Rattle.link.specs.Kept.{Ranged, kept};

use crate::state::LinkState;

mod calls;

/// The link of an end.
#[derive(Drop, Debug)]
pub struct Link {
    state: LinkState,
    ghost whole: { length state.table ≡ window },
    ghost room: { state.count ≤ window },
    ghost ranged: { Ranged (kept state) },
}
