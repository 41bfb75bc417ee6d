//! The words under the basis that one step carries to no word under it.
ghost use Rattle.std.specs.Prelude.{◌≡◌, ◌++◌, List, IfOk, OnOk};
ghost use Rattle.ht_word.specs.declared.word.Word.{Word};
ghost use Rattle.ht_word.specs.Words.{IsUnderSome};
ghost use Rattle.ht_share.specs.InnerWords.{AreInner, AreAbove, IsTrailing};

use ht_pair::Basis;
use ht_types::Typed;
use ht_word::{NoMemory, Word, Words};
use std::alloc::Global;

// The words under the basis that one step carries to no word under it, in ascending order: each is
// above just one row of what one step carries under the basis by letters 1 alone. O(N log N)
// comparisons of words for N rows, and one pass over their letters.
pub(crate) fn inner_words(alloc: Global, t: &Typed) -> Result<Words, NoMemory>
    ensures { IfOk result (AreInner t.now.element.shape t.now.element.rows t.now.quasi.basis.words) }
{
    t.keeps_kinds();
    let mut inner = Words::new(alloc);
    for row in t.quasi().y.as_slice() {
        add_above(alloc, &t.quasi().basis, &row.from, &mut inner)?;
    }
    Ok(inner)
}

// Adds the words under the basis from which letters 1 alone lead to the word, the shortest first.
fn add_above(alloc: Global, basis: &Basis, word: &Word, inner: &mut Words) -> Result<(), NoMemory>
    requires { IsUnderSome word.now basis.now.words }
    ensures { OnOk result ((words : List Word) × AreAbove basis.now.words word.now words × (inner.new ≡ inner.old ++ words)) }
{
    let Some(place) = basis.find(word) else {
        unreachable!()
    };
    let above = basis.words().at(place);
    let Some(rest) = word.rest_after(above) else {
        unreachable!()
    };
    let count = trailing_ones(rest);
    let mut next = above.joined(alloc, &rest[..rest.len() - count])?;
    for _left in 0..count {
        inner.push(next.copy(alloc)?)?;
        next.push(1)?;
    }
    Ok(())
}

// How many letters 1 stand at the end. One pass.
fn trailing_ones(letters: &[u8]) -> usize
    ensures { IsTrailing letters.now result }
{
    let mut count = 0;
    for letter in letters {
        count = if *letter == 1 { count + 1 } else { 0 };
    }
    count
}
