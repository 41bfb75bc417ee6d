//! One side of rows: their `from` words or their `to` words.
ghost use Rattle.std.specs.Prelude.{◌≡◌};
ghost use Rattle.ht_pair.specs.Sides.{word_on};

use crate::Row;
use ht_word::Word;

/// The `from` words of rows, or their `to` words.
#[derive(Clone, Copy, Debug, PartialEq, Eq)]
pub enum Side {
    From,
    To,
}

impl Side {
    /// The word on this side of a row.
    pub fn word(self, row: &Row) -> &Word
        ensures { result.now ≡ word_on self row.now }
    {
        match self {
            Side::From => &row.from,
            Side::To => &row.to,
        }
    }
}
