//! The state of the pledgor end, its lots in range.
ghost use Rattle.pledgor.specs.Sound.{Ranged};

use crate::state::PledgorState;

/// The book of the pledgor end.
#[derive(Clone, Copy)]
pub struct PledgorBook {
    pub(crate) state: PledgorState,
    ghost ranged: { Ranged state },
}
