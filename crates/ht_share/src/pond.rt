//! Ponds.
ghost use Rattle.std.specs.Prelude.{IfOk};
ghost use Rattle.ht_share.specs.InnerWords.{AreInner};
ghost use Rattle.ht_share.specs.PondLists.{ArePonds, AreFound};

use crate::inner::inner_words;
use crate::search::pond_of;
use ht_types::{Pond, Ponds, Typed};
use ht_word::{NoMemory, Word};
use std::alloc::Global;

/// All ponds of the element, each once, in ascending order of their first words (Barker, Duncan and
/// Robertson 2016; this way to find them is this project's own). One walk for each word under the
/// basis that one step carries to no word under it, with letters behind the word that keep it under
/// the basis; its steps are looked up. Where it may be back, each of the word's children is followed
/// to there, from the end of its own pond if it has one.
pub fn ponds(alloc: Global, t: &Typed) -> Result<Ponds, NoMemory>
    ensures { IfOk result (ArePonds t.now.element.shape t.now.element.rows t.now.quasi.basis.words) }
{
    t.keeps_kinds();
    let inner = inner_words(alloc, t)?;
    let mut found = found_in(alloc, t, inner.as_slice())?;
    let mut ponds = Ponds::new(alloc);
    while let Some(last) = found.pop() {
        let Some(pond) = last else { continue };
        ponds.push(pond)?;
    }
    Ok(ponds)
}

// The ponds of the words, from the last word to the first: the children of a word come behind it.
fn found_in(alloc: Global, t: &Typed, inner: &[Word]) -> Result<Vec<Option<Pond>>, NoMemory>
    requires { AreInner t.now.element.shape t.now.element.rows t.now.quasi.basis.words inner.now }
    ensures { IfOk result (λ found. AreFound t.now.element.shape t.now.element.rows t.now.quasi.basis.words inner.now found.items) }
{
    let mut found = Vec::new(alloc);
    let mut place = inner.len();
    while place > 0 {
        let later = &inner[place..];
        place -= 1;
        let pond = pond_of(alloc, t, &inner[place], later, found.as_slice())?;
        found.push(pond)?;
    }
    Ok(found)
}
