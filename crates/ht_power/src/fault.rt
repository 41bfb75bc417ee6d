//! Why it isn't told whether elements have conjugate powers.

use ht_pair::{OpFault, Which};
use ht_quasi::QuasiFault;
use ht_word::NoMemory;
use thiserror::Error;

/// Why it isn't told whether two elements have conjugate powers.
#[derive(Clone, Copy, Debug, PartialEq, Eq, Error)]
pub enum PowerFault {
    /// The quasinormal basis of this one takes more expansions of the roots than the budget has; of two
    /// such the first is named.
    #[error("a quasinormal basis takes more expansions than the budget")]
    Budget(Which),
    /// A part, or a power over the chain of an exponent, has more than 8,192 rows or a word of more than
    /// 1,024 letters: its number of rows, and the letters of its longest word.
    #[error("the element has {rows} rows and words of {letters} letters")]
    Large { rows: usize, letters: usize },
    /// An order, a period, a rate or an exponent exceeds 2^127-1.
    #[error("a number exceeds 2^127-1")]
    Wide,
    /// No memory was found.
    #[error("out of memory")]
    NoMemory,
}

impl From<NoMemory> for PowerFault {
    ghost use Rattle.std.specs.Prelude.{◌≡◌};
    ghost use Rattle.ht_power.specs.declared.fault.PowerFault.TheVariants.{NoMemory};

    ghost from_gives = { λ _ fault. fault ≡ NoMemory };

    fn from(_: NoMemory) -> PowerFault {
        PowerFault::NoMemory
    }
}

impl From<OpFault> for PowerFault {
    ghost use Rattle.std.specs.Prelude.{◌≡◌};
    ghost use Rattle.ht_power.specs.Told.{of_operation};

    ghost from_gives = { λ fault new. new ≡ of_operation fault };

    fn from(fault: OpFault) -> PowerFault {
        match fault {
            OpFault::Large { rows, letters } => PowerFault::Large { rows, letters },
            OpFault::NoMemory => PowerFault::NoMemory,
        }
    }
}
