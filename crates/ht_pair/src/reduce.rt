//! The reduced rows of a pair, and of a table.
ghost use Rattle.std.specs.Prelude.{ℕ, ◌≡◌, ◌≢◌, ◌++◌, ◌∷◌, ◌^◌, ◌+◌, ◌≤◌, ◌<◌, [], ◌↔◌, length, vec_len, IsTrue, IfOk, OnOk, MatchOption};
ghost use Rattle.ht_word.specs.declared.word.Word.{Word};
ghost use Rattle.ht_word.specs.Words.{◌·◌, child, root_word, IsAscending};
ghost use Rattle.ht_pair.specs.Pairs.{IsPair, from_words, longest_of};
ghost use Rattle.ht_pair.specs.Actions.{child_row, IsCanonicalFor};
ghost use Rattle.ht_pair.specs.Merges.{child_rows, ClosesCaret, IsAdded, IsReducedOf};
ghost use Rattle.ht_pair.specs.Tables.{IsTable, IsMergedTable};

use crate::pair::sort_pair;
use crate::{Row, Rows};
use ht_word::{NoMemory, Shape, Word};
use std::alloc::Global;

/// The canonical pair of a pair's rows: reduced, in ascending order of `from`, moving words as the
/// rows do. Sorts N rows by O(N log N) comparisons of words, then makes one pass, as `merge_table`.
pub fn reduce_rows(alloc: Global, shape: Shape, rows: Rows) -> Result<Rows, NoMemory>
    requires { IsPair shape rows }
    ensures canonical { IfOk result (λ reduced. IsCanonicalFor shape reduced rows) }
    ensures fewer { IfOk result (λ reduced. length reduced ≤ length rows) }
    ensures shorter { IfOk result (λ reduced. longest_of reduced ≤ longest_of rows) }
{
    let sorted = sort_pair(shape, rows)?;
    merge_rows(alloc, shape, sorted)
}

/// The reduced table of a table: wherever the n child rows of a row stand in it, the row stands for
/// them. It moves words as the table does, has no more rows and no longer words, and is made in one
/// pass with a stack: a row is pushed and taken off once at most, and its letters are compared with
/// the last n - 1 rows only.
pub fn merge_table(alloc: Global, shape: Shape, rows: Rows) -> Result<Rows, NoMemory>
    requires { IsTable shape rows }
    ensures { IfOk result (λ merged. IsMergedTable shape rows merged) }
{
    let mut merged = Vec::new(alloc);
    for row in rows.into_vec() {
        add_row(shape, &mut merged, row)?;
    }
    Ok(Rows::from_vec(merged))
}

// The rows of a pair in ascending order of `from`, with all merges made.
pub(crate) fn merge_rows(alloc: Global, shape: Shape, rows: Rows) -> Result<Rows, NoMemory>
    requires pair { IsPair shape rows }
    requires ascending { IsAscending (from_words rows) }
    ensures { IfOk result (λ reduced. IsReducedOf shape rows reduced) }
{
    merge_table(alloc, shape, rows)
}

// Adds a row behind merged ones, and makes each merge that it brings about.
fn add_row(shape: Shape, merged: &mut Vec<Row>, mut row: Row) -> Result<(), NoMemory>
    ensures { OnOk result (IsAdded shape merged.old.items row merged.new.items) }
{
    while closes_caret(shape, merged.as_slice(), &row) {
        merged.truncate(merged.len() - (usize::from(shape.n) - 1));
        row.from.letters.pop();
        row.to.letters.pop();
    }
    merged.push(row)?;
    Ok(())
}

// Whether the last n - 1 rows and the row behind them are the child rows of one row. Compares
// letters only where both words of the row end with the letter n.
fn closes_caret(shape: Shape, merged: &[Row], row: &Row) -> bool
    ensures { IsTrue result ↔ ClosesCaret shape merged.now row.now }
{
    let siblings = usize::from(shape.n) - 1;
    if merged.len() < siblings {
        return false;
    }
    let Some(from) = letters_before(&row.from, shape.n) else {
        return false;
    };
    let Some(to) = letters_before(&row.to, shape.n) else {
        return false;
    };
    are_children(&merged[merged.len() - siblings..], row, from, to)
}

// Whether the rows are the child rows, by 1, 2 and so on, of the row with the roots of `row` and
// these letters.
fn are_children(siblings: &[Row], row: &Row, from: &[u8], to: &[u8]) -> bool
    requires { length siblings.now < 2 ^ 8 }
    ensures { IsTrue result ↔ (siblings.now ≡ child_rows (root_word row.now.from.root · from.now) (root_word row.now.to.root · to.now) (length siblings.now)) }
{
    for (place, sibling) in siblings.iter().enumerate() {
        if !is_child_row(sibling, row, from, to, place as u8 + 1) {
            return false;
        }
    }
    true
}

// Whether a row is the child row, by the letter, of the row with the roots of `row` and these
// letters.
fn is_child_row(sibling: &Row, row: &Row, from: &[u8], to: &[u8], letter: u8) -> bool
    ensures { IsTrue result ↔ (sibling.now ≡ child_row (root_word row.now.from.root · from.now) (root_word row.now.to.root · to.now) letter) }
{
    is_child(&sibling.from, row.from.root, from, letter)
        && is_child(&sibling.to, row.to.root, to, letter)
}

// Whether a word is the root and the letters with one more letter.
fn is_child(word: &Word, root: u16, letters: &[u8], letter: u8) -> bool
    ensures { IsTrue result ↔ (word.now ≡ child (root_word root · letters.now) letter) }
{
    let Some(found) = letters_before(word, letter) else {
        return false;
    };
    word.root == root && found == letters
}

// The letters before the last one, where that is the letter; `None` exactly where it isn't.
fn letters_before(word: &Word, letter: u8) -> Option<&[u8]>
    ensures { MatchOption result ((u : Word) → word.now ≢ child u letter) (λ letters. word.now ≡ child (root_word word.now.root · letters.now) letter) }
{
    let Some((last, letters)) = word.letters.as_slice().split_last() else {
        return None;
    };
    if *last == letter { Some(letters) } else { None }
}
