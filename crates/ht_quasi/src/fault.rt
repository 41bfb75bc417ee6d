//! Why no least semi-normal basis was found.

use ht_word::NoMemory;
use thiserror::Error;

/// Why no least semi-normal basis was found.
#[derive(Clone, Copy, Debug, PartialEq, Eq, Error)]
pub enum QuasiFault {
    /// The least semi-normal basis takes more expansions of the roots than the budget has.
    #[error("the least semi-normal basis takes more expansions than the budget")]
    Budget,
    /// No memory was found.
    #[error("out of memory")]
    NoMemory,
}

impl From<NoMemory> for QuasiFault {
    ghost use Rattle.std.specs.Prelude.{◌≡◌};
    ghost use Rattle.ht_quasi.specs.declared.fault.QuasiFault.TheVariants.{NoMemory};

    ghost from_gives = { λ _ fault. fault ≡ NoMemory };

    fn from(_: NoMemory) -> QuasiFault {
        QuasiFault::NoMemory
    }
}
