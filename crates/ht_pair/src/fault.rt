//! Why rows are no element, and why elements have no product within the limits.

use ht_word::NoMemory;
use thiserror::Error;

/// Why rows are no element. Of several reasons the first in this order is given.
#[derive(Clone, Copy, Debug, PartialEq, Eq, Error)]
pub enum RowsFault {
    /// The first row with a word that isn't of the shape, by its number from 1.
    #[error("row {0} has a word that is not of the shape")]
    Foreign(usize),
    /// The `from` words aren't a basis.
    #[error("the words before the arrows are not a basis")]
    FromNotBasis,
    /// The `to` words aren't a basis.
    #[error("the words behind the arrows are not a basis")]
    ToNotBasis,
    /// The rows are a pair, but the canonical pair of its element has more than 8,192 rows or a
    /// word of more than 1,024 letters: its number of rows, and the letters of its longest word.
    #[error("the element has {rows} rows and words of {letters} letters")]
    Large { rows: usize, letters: usize },
    /// No memory was found.
    #[error("out of memory")]
    NoMemory,
}

impl From<NoMemory> for RowsFault {
    ghost use Rattle.std.specs.Prelude.{◌≡◌};
    ghost use Rattle.ht_pair.specs.declared.fault.RowsFault.TheVariants.{NoMemory};

    ghost from_gives = { λ _ fault. fault ≡ NoMemory };

    fn from(_: NoMemory) -> RowsFault {
        RowsFault::NoMemory
    }
}

/// Why elements have no product within the limits.
#[derive(Clone, Copy, Debug, PartialEq, Eq, Error)]
pub enum OpFault {
    /// The canonical pair has more than 8,192 rows or a word of more than 1,024 letters: its number
    /// of rows, and the letters of its longest word.
    #[error("the element has {rows} rows and words of {letters} letters")]
    Large { rows: usize, letters: usize },
    /// No memory was found.
    #[error("out of memory")]
    NoMemory,
}

impl From<NoMemory> for OpFault {
    ghost use Rattle.std.specs.Prelude.{◌≡◌};
    ghost use Rattle.ht_pair.specs.declared.fault.OpFault.TheVariants.{NoMemory};

    ghost from_gives = { λ _ fault. fault ≡ NoMemory };

    fn from(_: NoMemory) -> OpFault {
        OpFault::NoMemory
    }
}
