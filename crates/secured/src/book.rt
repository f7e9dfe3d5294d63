//! The state of the secured end, in range and covered whatever the pledgor sends.
ghost use Rattle.secured.specs.Sound.{Kept, Ranged};

use crate::state::SecuredState;

/// The book of the secured end.
#[derive(Clone, Copy)]
pub struct SecuredBook {
    pub(crate) state: SecuredState,
    ghost ranged: { Ranged state },
    ghost kept: { Kept state },
}
