//! The places of words of the infinite part that one step of an element joins.
ghost use Rattle.std.specs.Prelude.{◌≡◌, ◌<◌, ◌↔◌, ◌⊎◌, IsTrue, length, All, Contains, Some, slice_get, IfOk, OnOk};
ghost use Rattle.ht_word.specs.declared.word.Word.{Word};
ghost use Rattle.ht_pair.specs.Kinds.{IsCycleWord};
ghost use Rattle.ht_atoms.specs.declared.join.Join.{Join};
ghost use Rattle.ht_atoms.specs.Joins.{IsMarkedInfinite, IsRowJoin, AreJoins};

use ht_pair::Row;
use ht_types::{Kind, Typed};
use ht_word::{List, NoMemory};
use std::alloc::Global;

// The places of two words of a basis, from 0: one step carries some word under the first to one
// under the second.
#[derive(Clone, Copy, Debug)]
pub(crate) struct Join {
    pub first: usize,
    pub second: usize,
}

// Joins, in any order.
pub(crate) type Joins = List<Join>;

// Whether the word of the basis at a place is no cycle word. Constant time.
fn is_infinite(t: &Typed, place: usize) -> bool
    requires { place < length t.now.quasi.basis.words }
    ensures { (x : Word) → slice_get t.now.quasi.basis.words place ≡ Some x → IsTrue result ↔ ¬ IsCycleWord t.now.element.shape t.now.element.rows x }
{
    match t.kind(place) {
        Kind::Cycle { .. } => false,
        _ => true,
    }
}

// Marks for the words that are no cycle words. One pass.
pub(crate) fn infinite_marks(alloc: Global, t: &Typed) -> Result<Vec<bool>, NoMemory>
    ensures { IfOk result (λ marks. IsMarkedInfinite t.now.element.shape t.now.element.rows t.now.quasi.basis.words marks.items) }
{
    let mut marks = Vec::new(alloc);
    for place in 0..t.quasi().basis.words().len() {
        marks.push(is_infinite(t, place))?;
    }
    Ok(marks)
}

// Adds the join of the two words above those of a row, where neither is a cycle word. Two binary
// searches.
fn add_join(t: &Typed, row: &Row, joins: &mut Joins) -> Result<(), NoMemory>
    ensures { OnOk result ((join : Join) → Contains joins.new join ↔ (Contains joins.old join ⊎ IsRowJoin t.now.element.shape t.now.element.rows t.now.quasi.basis.words row.now join)) }
{
    let basis = &t.quasi().basis;
    let Some(first) = basis.find(&row.from) else {
        return Ok(());
    };
    let Some(second) = basis.find(&row.to) else {
        return Ok(());
    };
    if is_infinite(t, first) && is_infinite(t, second) {
        joins.push(Join { first, second })?;
    }
    Ok(())
}

// All joins, from the rows of what one step carries under the basis: a word under an infinite word
// that is carried under another is under a row that is so itself. O(M log N) comparisons of words for
// M rows and N words.
pub(crate) fn joins(alloc: Global, t: &Typed) -> Result<Joins, NoMemory>
    ensures joins { IfOk result (AreJoins t.now.element.shape t.now.element.rows t.now.quasi.basis.words) }
    ensures inside { IfOk result (All (λ join. (join.first < length t.now.quasi.basis.words) × (join.second < length t.now.quasi.basis.words))) }
{
    let mut joins = Joins::new(alloc);
    for row in t.quasi().y.as_slice() {
        add_join(t, row, &mut joins)?;
    }
    Ok(joins)
}
