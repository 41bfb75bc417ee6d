//! Elements of the group.
ghost use Rattle.std.specs.Prelude.{ℕ, ◌≡◌, ◌≤◌, ◌↔◌, Some, length, slice_get, IsTrue, IfOk, IfErr, OnOk, IsErrOf, MatchOption};
ghost use Rattle.ht_word.specs.declared.word.Word.{Word};
ghost use Rattle.ht_word.specs.Words.{IsUnder, IsAscending};
ghost use Rattle.ht_pair.specs.declared.fault.OpFault.TheVariants as op_fault;
ghost use Rattle.ht_pair.specs.declared.row.Row.{Row};
ghost use Rattle.ht_pair.specs.Pairs.{IsPair, from_words, identity, longest_of};
ghost use Rattle.ht_pair.specs.Actions.{Alike, IsCanonical, IsCanonicalFor, Moves};
ghost use Rattle.ht_pair.specs.Elements.{IsElement};
ghost use Rattle.ht_pair.specs.RowsFaults.{IsRowsFault};
ghost use Rattle.ht_pair.specs.Sizes.{IsLarge};

use crate::moves::{are_same_rows, identity_rows, move_by, place_of};
use crate::pair::sorted_pair;
use crate::reduce::merge_rows;
use crate::{OpFault, Row, Rows, RowsFault};
use ht_word::{NoMemory, Shape, Word};
use std::alloc::Global;
use std::marker::Model;

// The most rows that an element's canonical pair may have.
const MOST_ROWS: usize = 8_192;

// The most letters that a word of it may have.
const MOST_LETTERS: usize = 1_024;

/// An element of the group G(n, r): its canonical pair, which is reduced and has its rows in
/// ascending order of `from` (Higman 1974). An element has at most 8,192 rows, and at most 1,024
/// letters in a word.
#[derive(Debug, Drop)]
pub struct Element {
    shape: Shape,
    // a canonical pair of the shape, within the limits
    rows: Rows,
}

impl Model for Element {
    ghost use Rattle.ht_pair.specs.Elements.{ElementValue, IsElement};

    ghost Value = { ElementValue };

    ghost view = { λ element. record { shape = element.shape; rows = element.rows } };

    ghost invariant = { λ element. IsElement element.shape element.rows };
}

impl Element {
    /// The element whose rows these are, in any order, reduced or not. `Foreign` names the first
    /// row with a word outside the shape; `FromNotBasis` comes where the words are of the shape and
    /// the `from` words are no basis, and `ToNotBasis` where only the `to` words are none. `Large`
    /// comes where the rows are a pair, but too large when they are reduced. Sorts N rows twice by
    /// O(N log N) comparisons of words, then goes over their letters a few times.
    pub fn of_rows(alloc: Global, shape: Shape, rows: Rows) -> Result<Element, RowsFault>
        ensures pair { OnOk result (IsPair shape rows) }
        ensures canonical { IfOk result (λ element. (element.shape ≡ shape) × IsCanonicalFor shape element.rows rows) }
        ensures fewer { IfOk result (λ element. length element.rows ≤ length rows) }
        ensures shorter { IfOk result (λ element. longest_of element.rows ≤ longest_of rows) }
        ensures small { IfOk result (λ element. (length element.rows ≤ 8192) × (longest_of element.rows ≤ 1024)) }
        ensures fault { IfErr result (IsRowsFault shape rows) }
    {
        let sorted = sorted_pair(shape, rows)?;
        match Element::of_pair(alloc, shape, sorted) {
            Ok(element) => Ok(element),
            Err(OpFault::Large { rows, letters }) => Err(RowsFault::Large { rows, letters }),
            Err(OpFault::NoMemory) => Err(RowsFault::NoMemory),
        }
    }

    /// The element whose rows these are: a pair, in ascending order of `from`, reduced or not.
    /// `Large` comes where the canonical pair is larger than an element may be. Goes over the letters
    /// of the rows once.
    pub fn of_pair(alloc: Global, shape: Shape, rows: Rows) -> Result<Element, OpFault>
        requires pair { IsPair shape rows }
        requires order { IsAscending (from_words rows) }
        ensures canonical { IfOk result (λ element. (element.shape ≡ shape) × IsCanonicalFor shape element.rows rows) }
        ensures fewer { IfOk result (λ element. length element.rows ≤ length rows) }
        ensures shorter { IfOk result (λ element. longest_of element.rows ≤ longest_of rows) }
        ensures small { IfOk result (λ element. (length element.rows ≤ 8192) × (longest_of element.rows ≤ 1024)) }
        ensures large { (count letters : ℕ) → IsErrOf result (op_fault.Large count letters) → IsLarge shape rows count letters }
    {
        let rows = merge_rows(alloc, shape, rows)?;
        let letters = longest_in(rows.as_slice());
        if rows.len() > MOST_ROWS || letters > MOST_LETTERS {
            return Err(OpFault::Large {
                rows: rows.len(),
                letters,
            });
        }
        Ok(Element { shape, rows })
    }

    /// The identity. Takes r rows.
    pub fn identity(alloc: Global, shape: Shape) -> Result<Element, NoMemory>
        ensures { IfOk result (λ element. (element.shape ≡ shape) × (element.rows ≡ identity shape)) }
    {
        let rows = identity_rows(alloc, shape)?;
        Ok(Element { shape, rows })
    }

    /// An equal element. Copies the rows.
    pub fn copy(&self, alloc: Global) -> Result<Element, NoMemory>
        ensures { IfOk result (λ copy. copy ≡ self.now) }
    {
        let rows = copy_rows(alloc, self.rows.as_slice())?;
        Ok(Element {
            shape: self.shape,
            rows,
        })
    }

    /// What each element is: a canonical pair within the limits. Does nothing.
    pub fn keeps_limits(&self)
        ensures { IsElement self.now.shape self.now.rows }
    {
        let _ = &self.shape;
    }

    /// The shape of the words.
    pub fn shape(&self) -> Shape
        ensures { result ≡ self.now.shape }
    {
        self.shape
    }

    /// The number of rows of the canonical pair. Constant time.
    pub fn row_count(&self) -> usize
        ensures { result ≡ length self.now.rows }
    {
        self.rows.len()
    }

    /// The letters of the longest word of the canonical pair. One pass over the rows.
    pub fn longest(&self) -> usize
        ensures { result ≡ longest_of self.now.rows }
    {
        longest_in(self.rows.as_slice())
    }

    /// The canonical pair's rows. Constant time.
    pub fn as_rows(&self) -> &[Row]
        ensures { result.now ≡ self.now.rows }
    {
        self.rows.as_slice()
    }

    /// A copy of the canonical pair's rows.
    pub fn rows(&self, alloc: Global) -> Result<Rows, NoMemory>
        ensures rows { IfOk result (λ rows. rows ≡ self.now.rows) }
        ensures canonical { IsCanonical self.now.shape self.now.rows }
        ensures small { (length self.now.rows ≤ 8192) × (longest_of self.now.rows ≤ 1024) }
    {
        copy_rows(alloc, self.rows.as_slice())
    }

    /// Whether the elements act alike. No memory; one pass over the rows.
    pub fn same(&self, other: &Element) -> bool
        requires { self.now.shape ≡ other.now.shape }
        ensures alike { IsTrue result ↔ Alike self.now.shape self.now.rows other.now.rows }
        ensures rows { IsTrue result ↔ (self.now.rows ≡ other.now.rows) }
    {
        are_same_rows(self.rows.as_slice(), other.rows.as_slice())
    }

    /// The place, from 0, of the row whose `from` word is a prefix of the word; `None` exactly where
    /// there is none. A binary search: O(log N) comparisons of words for N rows; no memory.
    pub fn row_of(&self, word: &Word) -> Option<usize>
        ensures { MatchOption result ((v : Word) → ¬ Moves self.now.rows word.now v) (λ place. (row : Row) × (slice_get self.now.rows place ≡ Some row) × IsUnder word.now row.from) }
    {
        place_of(self.rows.as_slice(), word)
    }

    /// The word that the word is carried to; `None` exactly where no row's `from` word is a prefix
    /// of it. A binary search for the row, and one pass over the letters.
    pub fn move_word(&self, alloc: Global, word: &Word) -> Result<Option<Word>, NoMemory>
        ensures { IfOk result (λ found. MatchOption found ((v : Word) → ¬ Moves self.now.rows word.now v) (Moves self.now.rows word.now)) }
    {
        let Some(place) = self.row_of(word) else {
            return Ok(None);
        };
        let moved = move_by(alloc, self.rows.at(place), word)?;
        Ok(Some(moved))
    }
}

// The letters of the longest word.
fn longest_in(rows: &[Row]) -> usize
    ensures { result ≡ longest_of rows.now }
{
    let mut longest = 0;
    for row in rows {
        longest = longest
            .max(row.from.letters.len())
            .max(row.to.letters.len());
    }
    longest
}

/// Equal rows. Copies the words.
pub fn copy_rows(alloc: Global, rows: &[Row]) -> Result<Rows, NoMemory>
    ensures { IfOk result (λ copy. copy ≡ rows.now) }
{
    let mut copy = Rows::new(alloc);
    for row in rows {
        copy.push(row.copy(alloc)?)?;
    }
    Ok(copy)
}
