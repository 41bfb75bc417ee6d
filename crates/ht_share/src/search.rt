//! The pond of one word.
ghost use Rattle.std.specs.Prelude.{◌≡◌, ◌≤◌, ◌<◌, ◌+◌, ◌^◌, ◌↔◌, ℕ, pos, Some, length, slice_get, IsTrue, IfOk};
ghost use Rattle.ht_word.specs.declared.word.Word.{Word as WordValue};
ghost use Rattle.ht_word.specs.Words.{◌·◌};
ghost use Rattle.ht_pair.specs.Orbits.{IsPond};
ghost use Rattle.ht_pair.specs.SemiNormal.{CarriesUnder};
ghost use Rattle.ht_types.specs.declared.direction.Direction.TheVariants.{Ahead};
ghost use Rattle.ht_types.specs.Flows.{IsExit, IsPlaced};
ghost use Rattle.ht_share.specs.InnerWords.{IsInner};
ghost use Rattle.ht_share.specs.PondLists.{HasPond, AreFound};
ghost use Rattle.ht_share.specs.PondWalks.{ComesTo, IsNone, IsNext, IsSettled, IsEnough};

use crate::found::is_carried;
use ht_types::{Direction, Exit, Kind, Pond, Step, Typed, Walk, exit_of, next_of, placed};
use ht_word::{Letters, NoMemory, Word};
use std::alloc::Global;

// The pond of which the word is the first one, where the ponds of some words are known. A walk of the
// word with letters behind it that keep it under the basis for ever. It ends where it has come under a
// word that stays ahead, with as many letters at least: a word that isn't back by then never is.
pub(crate) fn pond_of(
    alloc: Global,
    t: &Typed,
    word: &Word,
    words: &[Word],
    found: &[Option<Pond>],
) -> Result<Option<Pond>, NoMemory>
    requires inner { IsInner t.now.element.shape t.now.element.rows t.now.quasi.basis.words word.now }
    requires found { AreFound t.now.element.shape t.now.element.rows t.now.quasi.basis.words words.now found.now }
    ensures { IfOk result (HasPond t.now.element.shape t.now.element.rows t.now.quasi.basis.words word.now) }
{
    t.keeps_kinds();
    let mut walk = placed(alloc, t, word)?;
    if is_on_repeller(t, word, &walk) {
        return Ok(None);
    }
    let exit = exit_of(alloc, t, Direction::Ahead, word)?;
    let most = steps_enough(t, word, &exit);
    walk.rest.extend(exit.letters.as_slice())?;
    for _step in 0..most {
        walk = next_walk(alloc, t, &walk)?;
        if is_settled(t, exit.letters.len(), &walk) {
            return settled_pond(alloc, t, word, &exit.letters, &walk, words, found);
        }
    }
    unreachable!()
}

// Whether the word is above one that steps carry to the repeller above it. It has no pond then.
fn is_on_repeller(t: &Typed, word: &Word, walk: &Walk) -> bool
    requires inner { IsInner t.now.element.shape t.now.element.rows t.now.quasi.basis.words word.now }
    requires placed { IsPlaced t.now.quasi.basis.words word.now walk.now }
    ensures { IsTrue result → (k : ℕ) (v : WordValue) → ¬ IsPond t.now.element.shape t.now.element.rows t.now.quasi.basis.words word.now k v }
{
    t.keeps_kinds();
    match t.kind(walk.to) {
        Kind::Repeller { by, .. } => by.as_slice().starts_with(walk.rest.as_slice()),
        _ => false,
    }
}

// So many steps that the walk has settled by then.
fn steps_enough(t: &Typed, word: &Word, exit: &Exit) -> u128
    requires { IsExit t.now.element.shape t.now.element.rows t.now.quasi.basis.words Ahead word.now exit.now }
    ensures { IsEnough t.now.element.shape t.now.element.rows t.now.quasi.basis.words exit.now result }
{
    t.keeps_kinds();
    match t.kind(exit.to) {
        Kind::Attractor { m, .. } => exit.steps + *m as u128 * exit.letters.len() as u128,
        _ => unreachable!(),
    }
}

// One step further.
fn next_walk(alloc: Global, t: &Typed, walk: &Walk) -> Result<Walk, NoMemory>
    requires place { walk.now.to < length t.now.quasi.basis.words }
    requires under { (x : WordValue) → slice_get t.now.quasi.basis.words walk.now.to ≡ Some x → CarriesUnder t.now.element.shape t.now.element.rows (pos 1) (x · walk.now.rest) t.now.quasi.basis.words }
    requires few { walk.now.steps < 2 ^ 122 }
    ensures { IfOk result (IsNext t.now.element.shape t.now.element.rows t.now.quasi.basis.words walk.now) }
{
    let Step::Leads { to, rest } = next_of(alloc, t, Direction::Ahead, walk)? else {
        unreachable!()
    };
    Ok(Walk {
        steps: walk.steps + 1,
        to,
        rest,
    })
}

// Whether the walk is under a word that stays ahead, with so many letters at least.
fn is_settled(t: &Typed, count: usize, walk: &Walk) -> bool
    requires { walk.now.to < length t.now.quasi.basis.words }
    ensures { IsTrue result ↔ IsSettled t.now.element.shape t.now.element.rows t.now.quasi.basis.words count walk.now }
{
    t.keeps_kinds();
    if walk.rest.len() < count {
        return false;
    }
    match t.kind(walk.to) {
        Kind::Cycle { .. } => true,
        Kind::Attractor { .. } => true,
        Kind::Repeller { .. } => false,
        Kind::Passing { ahead, .. } => ahead.is_some(),
    }
}

// The pond of the word, whose walk with the letters behind it is settled for the first time.
fn settled_pond(
    alloc: Global,
    t: &Typed,
    word: &Word,
    letters: &Letters,
    walk: &Walk,
    words: &[Word],
    found: &[Option<Pond>],
) -> Result<Option<Pond>, NoMemory>
    requires inner { IsInner t.now.element.shape t.now.element.rows t.now.quasi.basis.words word.now }
    requires there { ComesTo t.now.element.shape t.now.element.rows t.now.quasi.basis.words (word.now · letters.now) walk.now }
    requires settled { IsSettled t.now.element.shape t.now.element.rows t.now.quasi.basis.words (length letters.now) walk.now }
    requires few { walk.now.steps ≤ 2 ^ 122 }
    requires first { (k : ℕ) × (walk.now.steps ≡ k + 1) × IsNone t.now.element.shape t.now.element.rows t.now.quasi.basis.words word.now k }
    requires found { AreFound t.now.element.shape t.now.element.rows t.now.quasi.basis.words words.now found.now }
    ensures { IfOk result (HasPond t.now.element.shape t.now.element.rows t.now.quasi.basis.words word.now) }
{
    t.keeps_kinds();
    let Some(front) = walk.rest.as_slice().strip_suffix(letters.as_slice()) else {
        return Ok(None);
    };
    let to = t.quasi().basis.words().at(walk.to).joined(alloc, front)?;
    if !is_carried(alloc, t, walk.steps, word, &to, words, found)? {
        return Ok(None);
    }
    let from = word.copy(alloc)?;
    Ok(Some(Pond {
        from,
        steps: walk.steps,
        to,
    }))
}
