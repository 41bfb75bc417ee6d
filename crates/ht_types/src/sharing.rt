//! Sharing of orbits, and ponds.
ghost use Rattle.std.specs.Prelude.{IfOk};
ghost use Rattle.ht_word.specs.Words.{IsUnderSome, IsWordOf};
ghost use Rattle.ht_types.specs.TypedElements.{TypedValue};
ghost use Rattle.ht_types.specs.Shares.{IsShare};

use ht_word::{List, NoMemory, Word};
use std::alloc::Global;

/// What tells whether words under the basis of an element share an orbit (Barker, Duncan and Robertson
/// 2016).
pub trait Sharing {
    /// The element that it answers for, with its basis and kinds.
    ghost typed: { Self → TypedValue };

    /// A number k such that the k-th power carries the first word to the second, below 2^122 in
    /// absolute value. For a first word under a cycle word it is the least from 0 on; for the others
    /// there is one at most. `None` exactly where no power does.
    fn share(&self, alloc: Global, u: &Word, v: &Word) -> Result<Option<i128>, NoMemory>
        requires first { IsWordOf (typed self.now).element.shape u.now × IsUnderSome u.now (typed self.now).quasi.basis.words }
        requires second { IsWordOf (typed self.now).element.shape v.now × IsUnderSome v.now (typed self.now).quasi.basis.words }
        ensures { IfOk result (IsShare (typed self.now).element.shape (typed self.now).element.rows (typed self.now).quasi.basis.words u.now v.now) };
}

/// A pond (Barker, Duncan and Robertson 2016; as here it is this project's own): a word under the basis that one step
/// carries to no word under it, the least number of steps from 1 on that carry it to such a word again, and
/// that word.
#[derive(Debug, Drop)]
pub struct Pond {
    pub from: Word,
    pub steps: u128,
    pub to: Word,
}

/// Ponds, in order of their first words.
pub type Ponds = List<Pond>;
