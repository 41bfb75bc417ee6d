//! Why bytes give no element.

use ht_pair::RowsFault;
use ht_word::NoMemory;
use thiserror::Error;

/// Why bytes are no file of an element. Of several reasons the first in this order is given.
#[derive(Clone, Copy, Debug, PartialEq, Eq, Error)]
pub enum FileFault {
    /// The bytes are no file: 0 for more than 4,194,304 bytes, else 1 plus the greatest number of
    /// leading whole lines that lead some file.
    #[error("line {0} is not a line of an element file")]
    Form(usize),
    /// The file is of other numbers than the shape's.
    #[error("the file is of another group")]
    Shape,
    /// The file's rows are no element, for a reason other than want of memory.
    #[error("the file holds no element: {0}")]
    Rows(RowsFault),
    /// No memory was found.
    #[error("out of memory")]
    NoMemory,
}

impl From<NoMemory> for FileFault {
    ghost use Rattle.std.specs.Prelude.{◌≡◌};
    ghost use Rattle.ht_text.specs.declared.fault.FileFault.TheVariants.{NoMemory};

    ghost from_gives = { λ _ fault. fault ≡ NoMemory };

    fn from(_: NoMemory) -> FileFault {
        FileFault::NoMemory
    }
}
