//! Whether steps carry a word to a word, where the ponds of some words are known.
ghost use Rattle.std.specs.Prelude.{◌≡◌, ◌≤◌, ◌^◌, ◌↔◌, pos, IsTrue, IfOk};
ghost use Rattle.ht_word.specs.Words.{word_cmp, IsUnderSome, IsWordOf};
ghost use Rattle.ht_pair.specs.Steps.{Carries};
ghost use Rattle.ht_share.specs.PondLists.{AreFound};

use crate::carried::carries;
use ht_types::{Pond, Typed};
use ht_word::{NoMemory, Word};
use std::alloc::Global;
use std::cmp::Ordering;

// Whether so many steps carry the word to the other: whether they carry each child of the one to that
// of the other.
pub(crate) fn is_carried(
    alloc: Global,
    t: &Typed,
    steps: u128,
    word: &Word,
    to: &Word,
    words: &[Word],
    found: &[Option<Pond>],
) -> Result<bool, NoMemory>
    requires word { IsWordOf t.now.element.shape word.now }
    requires under { IsUnderSome to.now t.now.quasi.basis.words }
    requires steps { (1 ≤ steps) × (steps ≤ 2 ^ 122) }
    requires found { AreFound t.now.element.shape t.now.element.rows t.now.quasi.basis.words words.now found.now }
    ensures { IfOk result (λ yes. IsTrue yes ↔ Carries t.now.element.shape t.now.element.rows (pos steps) word.now to.now) }
{
    t.keeps_kinds();
    for letter in 1..t.element().shape().n + 1 {
        let child = word.child(alloc, letter)?;
        let below = to.child(alloc, letter)?;
        if !is_child_carried(alloc, t, steps, &child, &below, words, found)? {
            return Ok(false);
        }
    }
    Ok(true)
}

// The same for a child: one whose pond is known is followed from the end of that, and else the child
// itself.
fn is_child_carried(
    alloc: Global,
    t: &Typed,
    steps: u128,
    word: &Word,
    to: &Word,
    words: &[Word],
    found: &[Option<Pond>],
) -> Result<bool, NoMemory>
    requires word { IsWordOf t.now.element.shape word.now }
    requires under { IsUnderSome to.now t.now.quasi.basis.words }
    requires steps { (1 ≤ steps) × (steps ≤ 2 ^ 122) }
    requires found { AreFound t.now.element.shape t.now.element.rows t.now.quasi.basis.words words.now found.now }
    ensures { IfOk result (λ yes. IsTrue yes ↔ Carries t.now.element.shape t.now.element.rows (pos steps) word.now to.now) }
{
    t.keeps_kinds();
    let place = words.binary_search_by(
        |other: &Word| -> Ordering
            ensures { result ≡ word_cmp other.now word.entry.now }
        { other.order(word) },
    );
    let Ok(place) = place else {
        return carries(alloc, t.element(), steps as i128, word, to);
    };
    let Some(pond) = &found[words.len() - 1 - place] else {
        return Ok(false);
    };
    if pond.steps > steps {
        return Ok(false);
    }
    carries(
        alloc,
        t.element(),
        (steps - pond.steps) as i128,
        &pond.to,
        to,
    )
}
