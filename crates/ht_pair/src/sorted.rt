//! Items sorted by a word each, and the test whether these words are a basis.
ghost use Rattle.std.specs.Prelude.{◌≡◌, map, IfOk, All, IsPermutation, IsSorted};
ghost use Rattle.ht_word.specs.Words.{IsWordOf};
ghost use Rattle.ht_pair.specs.SortedItems.{head_cmp, AreSorted};

use crate::headed::Heads;
use crate::tiling::is_ascending_basis;
use ht_word::{List, NoMemory, Shape};
use std::cmp::Ordering;

// The items in order of their words. O(N log N) comparisons of words.
pub(crate) fn sort<T: Drop, K: Heads<T>>(by: K, items: List<T>) -> Result<List<T>, NoMemory>
    ensures permutation { IfOk result (λ sorted. IsPermutation items sorted) }
    ensures sorted { IfOk result (IsSorted (head_cmp (K.head by))) }
{
    let mut items = items.into_vec();
    items.sort_by(
        |a: &T, b: &T| -> Ordering
            ensures { result ≡ head_cmp (K.head by) a.now b.now }
        { by.head(a).order(by.head(b)) },
    )?;
    Ok(List::from_vec(items))
}

// The items in order of their words, and whether the words are a basis. O(N log N) comparisons of
// words.
pub(crate) fn sort_and_test<T: Drop, K: Heads<T>>(
    shape: Shape,
    by: K,
    items: List<T>,
) -> Result<(List<T>, bool), NoMemory>
    requires { All (IsWordOf shape) (map (K.head by) items) }
    ensures { IfOk result (λ sorted. AreSorted shape (K.head by) items sorted.0 sorted.1) }
{
    let sorted = sort(by, items)?;
    let is_basis = is_ascending_basis(shape, by, sorted.as_slice());
    Ok((sorted, is_basis))
}
