//! How rows move words.
ghost use Rattle.std.specs.Prelude.{◌≡◌, ◌↔◌, List, ℕ, Some, slice_get, IsTrue, IfOk, MatchOption};
ghost use Rattle.ht_word.specs.declared.word.Word.{Word};
ghost use Rattle.ht_word.specs.Words.{◌·◌, IsUnder, IsAscending};
ghost use Rattle.ht_pair.specs.declared.row.Row.{Row};
ghost use Rattle.ht_pair.specs.Bases.{IsPrefixFree};
ghost use Rattle.ht_pair.specs.Pairs.{from_words, identity};
ghost use Rattle.ht_pair.specs.Actions.{Moves};

use crate::headed::place_above;
use crate::side::Side;
use crate::{Row, Rows};
use ht_word::{NoMemory, Shape, Word};
use std::alloc::Global;

// The rows that move each word to itself: one for each root.
pub(crate) fn identity_rows(alloc: Global, shape: Shape) -> Result<Rows, NoMemory>
    ensures { IfOk result (λ rows. rows ≡ identity shape) }
{
    let mut rows = Rows::new(alloc);
    for before in 0..shape.r {
        let from = Word::new(alloc, before + 1);
        let to = Word::new(alloc, before + 1);
        rows.push(Row { from, to })?;
    }
    Ok(rows)
}

/// Whether the rows are the same, in the same order. No memory; one pass over them.
pub fn are_same_rows(rows: &[Row], other: &[Row]) -> bool
    ensures { IsTrue result ↔ (rows.now ≡ other.now) }
{
    if rows.len() != other.len() {
        return false;
    }
    for (place, row) in rows.iter().enumerate() {
        if !row.same(&other[place]) {
            return false;
        }
    }
    true
}

/// The place, from 0, of the row whose `from` word is a prefix of the word; `None` exactly where
/// there is none. A binary search: O(log N) comparisons of words for N rows; no memory.
pub fn place_of(rows: &[Row], word: &Word) -> Option<usize>
    requires prefix_free { IsPrefixFree (from_words rows.now) }
    requires ascending { IsAscending (from_words rows.now) }
    ensures { MatchOption result ((v : Word) → ¬ Moves rows.now word.now v) (λ place. (row : Row) × (slice_get rows.now place ≡ Some row) × IsUnder word.now row.from) }
{
    place_above(Side::From, rows, word)
}

// The word that the row carries the word to: the row's `to` word with the letters that are left.
pub(crate) fn move_by(alloc: Global, row: &Row, word: &Word) -> Result<Word, NoMemory>
    requires { IsUnder word.now row.now.from }
    ensures { IfOk result (λ moved. (rest : List ℕ) × (word.now ≡ row.now.from · rest) × (moved ≡ row.now.to · rest)) }
{
    let rest = &word.letters.as_slice()[row.from.letters.len()..];
    row.to.joined(alloc, rest)
}
