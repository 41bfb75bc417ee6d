//! One word of each cycle of the cycle words, in groups by the lengths of the cycles.
ghost use Rattle.std.specs.Prelude.{◌≡◌, ◌+◌, ◌<◌, ◌∷◌, [], ℕ, pos, length, IfOk, OnOk};
ghost use Rattle.ht_word.specs.declared.word.Word.{Word};
ghost use Rattle.ht_pair.specs.Steps.{Carries};
ghost use Rattle.ht_cycles.specs.Cycles.{group, IsCyclePlace, LeadsToPlace, AreCycleMarks, IsGrouped, ArePicked, ArePickedBefore};

use ht_pair::Element;
use ht_types::{Kind, Typed};
use ht_word::{NoMemory, Word, Words};
use std::alloc::Global;

// The words for each length, from 0 on.
pub(crate) type Groups = Vec<Words>;

// The word to which one step carries the word. A binary search.
pub(crate) fn carried(alloc: Global, a: &Element, word: &Word) -> Result<Word, NoMemory>
    requires { (v : Word) × Carries a.now.shape a.now.rows (pos 1) word.now v }
    ensures { IfOk result (Carries a.now.shape a.now.rows (pos 1) word.now) }
{
    a.keeps_limits();
    let Some(moved) = a.move_word(alloc, word)? else {
        unreachable!()
    };
    Ok(moved)
}

// The place of the word to which one step carries the cycle word at a place. Two binary searches.
fn next_place(alloc: Global, t: &Typed, place: usize) -> Result<usize, NoMemory>
    requires { (m : ℕ) × IsCyclePlace t.now.element.shape t.now.element.rows t.now.quasi.basis.words m place }
    ensures { IfOk result (LeadsToPlace t.now.element.shape t.now.element.rows t.now.quasi.basis.words place) }
{
    t.keeps_kinds();
    let basis = &t.quasi().basis;
    let moved = carried(alloc, t.element(), basis.words().at(place))?;
    let Some(next) = basis.find(&moved) else {
        unreachable!()
    };
    Ok(next)
}

// Marks the words of the cycle of the word at a place.
fn mark_cycle(
    alloc: Global,
    t: &Typed,
    start: usize,
    m: u64,
    marks: &mut [bool],
) -> Result<(), NoMemory>
    requires many { length marks.old ≡ length t.now.quasi.basis.words }
    requires cycle { IsCyclePlace t.now.element.shape t.now.element.rows t.now.quasi.basis.words m start }
    ensures { OnOk result (AreCycleMarks t.now.element.shape t.now.element.rows t.now.quasi.basis.words start marks.old marks.new) }
{
    t.keeps_kinds();
    let mut place = start;
    for _ in 0..m {
        marks[place] = true;
        place = next_place(alloc, t, place)?;
    }
    Ok(())
}

// Adds empty groups until there is one for the length.
fn make_room(alloc: Global, groups: &mut Groups, most: usize) -> Result<(), NoMemory>
    ensures room { OnOk result (most < length groups.new.items) }
    ensures same { OnOk result ((m : ℕ) → group groups.new.items m ≡ group groups.old.items m) }
{
    for _ in groups.len()..=most {
        groups.push(Words::new(alloc))?;
    }
    Ok(())
}

// Adds the word to the group of the length.
fn add_to_group(alloc: Global, groups: &mut Groups, m: usize, word: Word) -> Result<(), NoMemory>
    ensures { OnOk result (IsGrouped groups.old.items m word groups.new.items) }
{
    make_room(alloc, groups, m)?;
    groups[m].push(word)
}

// Adds the word at a place to its group, and marks its cycle, where it is a cycle word that isn't
// marked.
fn pick(
    alloc: Global,
    t: &Typed,
    place: usize,
    marks: &mut [bool],
    groups: &mut Groups,
) -> Result<(), NoMemory>
    requires place { place < length t.now.quasi.basis.words }
    requires before { ArePickedBefore t.now.element.shape t.now.element.rows t.now.quasi.basis.words place marks.old groups.old.items }
    ensures { OnOk result (ArePickedBefore t.now.element.shape t.now.element.rows t.now.quasi.basis.words (place + 1) marks.new groups.new.items) }
{
    t.keeps_kinds();
    let Kind::Cycle { m } = t.kind(place) else {
        return Ok(());
    };
    if marks[place] {
        return Ok(());
    }
    mark_cycle(alloc, t, place, *m, marks)?;
    let word = t.quasi().basis.words().at(place).copy(alloc)?;
    add_to_group(alloc, groups, *m as usize, word)
}

// One word of each cycle. Walks each cycle once: two binary searches for each cycle word.
pub(crate) fn representatives(alloc: Global, t: &Typed) -> Result<Groups, NoMemory>
    ensures { IfOk result (λ groups. (m : ℕ) → ArePicked t.now.element.shape t.now.element.rows t.now.quasi.basis.words m (group groups.items m)) }
{
    t.keeps_kinds();
    let count = t.quasi().basis.words().len();
    let mut marks = vec![in alloc; false; count]?;
    let mut groups = Vec::new(alloc);
    for place in 0..count {
        pick(alloc, t, place, &mut marks, &mut groups)?;
    }
    Ok(groups)
}

// The words of the group of the length.
pub(crate) fn group_of(groups: &[Words], m: usize) -> &[Word]
    ensures { result.now ≡ group groups.now m }
{
    match groups.get(m) {
        Some(words) => words.as_slice(),
        None => &[],
    }
}
