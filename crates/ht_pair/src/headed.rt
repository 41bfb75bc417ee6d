//! Items in order of a word each, and searches in them by a word.
ghost use Rattle.std.specs.Prelude.{◌≡◌, ◌≤◌, true, false, map, length, MatchOption};
ghost use Rattle.std.specs.List.Sorted.{IsPartitionPoint};
ghost use Rattle.std.specs.Ordering.{is_le, is_lt};
ghost use Rattle.ht_word.specs.declared.word.Word.{Word};
ghost use Rattle.ht_word.specs.Words.{word_cmp, IsUnderSome, IsAscending};
ghost use Rattle.ht_pair.specs.declared.row.Row.{Row};
ghost use Rattle.ht_pair.specs.Bases.{IsPrefixFree};
ghost use Rattle.ht_pair.specs.HeldBases.{IsPlaceAbove};
ghost use Rattle.ht_pair.specs.Pairs.{from_words};
ghost use Rattle.ht_pair.specs.Sides.{word_on};

use crate::Row;
use crate::side::Side;
use ht_word::Word;

// Which word an item stands in order of.
pub(crate) trait Heads<T>: Copy {
    ghost head: { Self → T → Word };

    fn head<'a>(self, item: &'a T) -> &'a Word
        ensures { result.now ≡ head self item.now };
}

// A word stands in order of itself.
#[derive(Clone, Copy)]
pub(crate) struct Itself;

impl Heads<Word> for Itself {
    ghost head = { λ _ word. word };

    fn head<'a>(self, word: &'a Word) -> &'a Word {
        word
    }
}

// A row stands in order of its word on a side.
impl Heads<Row> for Side {
    ghost head = { word_on };

    fn head<'a>(self, row: &'a Row) -> &'a Word {
        self.word(row)
    }
}

// How many items, the first ones, have a word that isn't after the word. O(log N) comparisons of
// words.
fn count_until<T, K: Heads<T>>(by: K, items: &[T], word: &Word) -> usize
    requires { IsAscending (map (K.head by) items.now) }
    ensures bound { result ≤ length items.now }
    ensures point { IsPartitionPoint (λ (item : T). is_le (word_cmp (K.head by item) word.now) ≡ true) (λ (item : T). is_le (word_cmp (K.head by item) word.now) ≡ false) items.now result }
{
    items.partition_point(
        |item: &T| -> bool
            ensures { result ≡ is_le (word_cmp (K.head by item.now) word.entry.now) }
        { by.head(item).order(word).is_le() },
    )
}

// The place, from 0, of the item whose word is a prefix of the word. Of the words that aren't after
// the word, only the last can be one. O(log N) comparisons of words.
pub(crate) fn place_above<T, K: Heads<T>>(by: K, items: &[T], word: &Word) -> Option<usize>
    requires prefix_free { IsPrefixFree (map (K.head by) items.now) }
    requires ascending { IsAscending (map (K.head by) items.now) }
    ensures { MatchOption result (¬ IsUnderSome word.now (map (K.head by) items.now)) (IsPlaceAbove (map (K.head by) items.now) word.now) }
{
    let until = count_until(by, items, word);
    if until == 0 {
        return None;
    }
    if !by.head(&items[until - 1]).is_prefix_of(word) {
        return None;
    }
    Some(until - 1)
}

/// How many rows, in ascending order of their `from` words, have theirs before the word: the first
/// row under the word is there, if there is one. A binary search: O(log N) comparisons of words for
/// N rows; no memory.
pub fn first_under(rows: &[Row], word: &Word) -> usize
    requires { IsAscending (from_words rows.now) }
    ensures bound { result ≤ length rows.now }
    ensures point { IsPartitionPoint (λ (row : Row). is_lt (word_cmp row.from word.now) ≡ true) (λ (row : Row). is_lt (word_cmp row.from word.now) ≡ false) rows.now result }
{
    rows.partition_point(
        |row: &Row| -> bool
            ensures { result ≡ is_lt (word_cmp row.now.from word.entry.now) }
        { row.from.order(word).is_lt() },
    )
}
