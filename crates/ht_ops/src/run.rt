//! The rows whose `from` words are under a word, which stand together in ascending rows.
ghost use Rattle.std.specs.Prelude.{◌≡◌, ◌≤◌, Some, length, take, slice_get, All};
ghost use Rattle.ht_word.specs.Words.{IsUnder, IsAscending};
ghost use Rattle.ht_pair.specs.declared.row.Row.{Row};
ghost use Rattle.ht_pair.specs.Bases.{IsPrefixFree};
ghost use Rattle.ht_pair.specs.Pairs.{from_words};
ghost use Rattle.ht_ops.specs.Blocks.{IsRun};

use ht_pair::{Row, first_under};
use ht_word::Word;

// How many rows, the first ones, have a `from` word under the word. One comparison of words for
// each, and one more.
fn count_under(rows: &[Row], word: &Word) -> usize
    ensures bound { result ≤ length rows.now }
    ensures under { All (λ (row : Row). IsUnder row.from word.now) (take result rows.now) }
    ensures end { (row : Row) → slice_get rows.now result ≡ Some row → ¬ IsUnder row.from word.now }
{
    for (index, row) in rows.iter().enumerate() {
        if !word.is_prefix_of(&row.from) {
            return index;
        }
    }
    rows.len()
}

// The rows whose `from` words are under the word. O(log N) comparisons of words, and one for each
// row that is found.
pub(crate) fn run_under<'a>(rows: &'a [Row], word: &Word) -> &'a [Row]
    requires prefix_free { IsPrefixFree (from_words rows.now) }
    requires ascending { IsAscending (from_words rows.now) }
    ensures { IsRun rows.now word.now result.now }
{
    let behind = &rows[first_under(rows, word)..];
    &behind[..count_under(behind, word)]
}
