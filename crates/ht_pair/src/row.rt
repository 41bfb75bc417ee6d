//! Rows: what a cone is sent to.
ghost use Rattle.std.specs.Prelude.{◌≡◌, ◌↔◌, IsTrue, IfOk};

use ht_word::{List, NoMemory, Word};
use std::alloc::Global;

/// The cone of the word `from` goes to the cone of the word `to`.
#[derive(Debug, Drop)]
pub struct Row {
    pub from: Word,
    pub to: Word,
}

/// A list of rows.
pub type Rows = List<Row>;

impl Row {
    /// An equal row.
    pub fn copy(&self, alloc: Global) -> Result<Row, NoMemory>
        ensures { IfOk result (λ row. row ≡ self.now) }
    {
        let from = self.from.copy(alloc)?;
        let to = self.to.copy(alloc)?;
        Ok(Row { from, to })
    }

    // Whether the rows are equal. At most one pass over the letters.
    pub(crate) fn same(&self, other: &Row) -> bool
        ensures { IsTrue result ↔ (self.now ≡ other.now) }
    {
        self.from.same(&other.from) && self.to.same(&other.to)
    }
}
