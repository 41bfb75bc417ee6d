//! The periodic and the infinite part of an element.
ghost use Rattle.std.specs.Prelude.{◌≡◌, ◌<◌, ℕ, Some, Contains, length, slice_get, IfOk, OnOk, IsErrOf};
ghost use Rattle.ht_word.specs.declared.word.Word.{Word};
ghost use Rattle.ht_pair.specs.declared.row.Row.{Row};
ghost use Rattle.ht_pair.specs.declared.fault.OpFault.TheVariants as op_fault;
ghost use Rattle.ht_pair.specs.Actions.{Moves};
ghost use Rattle.ht_pair.specs.Kinds.{IsCycleWord};
ghost use Rattle.ht_pair.specs.Pairs.{from_words};
ghost use Rattle.ht_pair.specs.Parts.{HasParts};
ghost use Rattle.ht_parts.specs.LargeParts.{IsLargePart};
ghost use Rattle.ht_parts.specs.PartRows.{IsOther, MovesWithin, ArePartRows};

use crate::orders::is_cycle;
use ht_pair::{Element, OpFault, Row, Rows};
use ht_types::Typed;
use ht_word::{NoMemory, Word};
use std::alloc::Global;

/// The element on its periodic part, with the identity elsewhere, and then the element on its
/// infinite part, with the identity elsewhere. `Large` comes where the first is larger than an
/// element may be, else where the second is. From N words and M rows of what one step carries: a
/// binary search for each, and one pass over the letters of both lists of rows, which come in order.
pub fn parts(alloc: Global, t: &Typed) -> Result<(Element, Element), OpFault>
    ensures shapes { IfOk result (λ both. (both.0.shape ≡ t.now.element.shape) × (both.1.shape ≡ t.now.element.shape)) }
    ensures parts { IfOk result (λ both. HasParts t.now.element.shape t.now.element.rows t.now.quasi.basis.words both.0.rows both.1.rows) }
    ensures kept { OnOk result ((rows letters : ℕ) → ¬ IsLargePart t.now.element.shape t.now.element.rows t.now.quasi.basis.words rows letters) }
    ensures large { (rows letters : ℕ) → IsErrOf result (op_fault.Large rows letters) → IsLargePart t.now.element.shape t.now.element.rows t.now.quasi.basis.words rows letters }
{
    t.keeps_kinds();
    let periodic = periodic_rows(alloc, t)?;
    let infinite = infinite_rows(alloc, t)?;
    let first = Element::of_pair(alloc, t.element().shape(), periodic)?;
    let second = Element::of_pair(alloc, t.element().shape(), infinite)?;
    Ok((first, second))
}

// The rows of the periodic part, from the words of the basis. O(N log M) comparisons of words for N
// words and M rows of the element.
fn periodic_rows(alloc: Global, t: &Typed) -> Result<Rows, NoMemory>
    ensures { IfOk result (ArePartRows t.now.element.rows t.now.quasi.basis.words (IsCycleWord t.now.element.shape t.now.element.rows) (IsOther t.now.element.shape t.now.element.rows) t.now.quasi.basis.words) }
{
    let mut rows = Rows::new(alloc);
    for place in 0..t.quasi().basis.words().len() {
        rows.push(periodic_row(alloc, t, place)?)?;
    }
    Ok(rows)
}

// The rows of the infinite part, from the words that one step carries under the basis. O(M log N)
// comparisons of words for N words and M such words.
fn infinite_rows(alloc: Global, t: &Typed) -> Result<Rows, NoMemory>
    ensures { IfOk result (ArePartRows t.now.element.rows t.now.quasi.basis.words (IsOther t.now.element.shape t.now.element.rows) (IsCycleWord t.now.element.shape t.now.element.rows) (from_words t.now.quasi.y)) }
{
    let mut rows = Rows::new(alloc);
    for row in t.quasi().y.as_slice() {
        rows.push(infinite_row(alloc, t, row)?)?;
    }
    Ok(rows)
}

// The row from the word of the basis at a place: a cycle word is moved, and another kept.
fn periodic_row(alloc: Global, t: &Typed, place: usize) -> Result<Row, NoMemory>
    requires { place < length t.now.quasi.basis.words }
    ensures { IfOk result (λ row. (slice_get t.now.quasi.basis.words place ≡ Some row.from) × MovesWithin t.now.element.rows t.now.quasi.basis.words (IsCycleWord t.now.element.shape t.now.element.rows) (IsOther t.now.element.shape t.now.element.rows) row.from row.to) }
{
    t.keeps_kinds();
    let word = t.quasi().basis.words().at(place);
    if is_cycle(t, place) {
        moved_row(alloc, t.element(), word)
    } else {
        kept_row(alloc, word)
    }
}

// The row from the word of a row of what one step carries: under a cycle word it is kept, and else
// moved.
fn infinite_row(alloc: Global, t: &Typed, row: &Row) -> Result<Row, NoMemory>
    requires { Contains t.now.quasi.y row.now }
    ensures { IfOk result (λ new. (new.from ≡ row.now.from) × MovesWithin t.now.element.rows t.now.quasi.basis.words (IsOther t.now.element.shape t.now.element.rows) (IsCycleWord t.now.element.shape t.now.element.rows) new.from new.to) }
{
    t.keeps_kinds();
    let Some(above) = t.quasi().basis.find(&row.from) else {
        unreachable!()
    };
    if is_cycle(t, above) {
        kept_row(alloc, &row.from)
    } else {
        row.copy(alloc)
    }
}

// The row from a word to the word that the element moves it to.
fn moved_row(alloc: Global, a: &Element, word: &Word) -> Result<Row, NoMemory>
    requires { (v : Word) × Moves a.now.rows word.now v }
    ensures { IfOk result (λ row. (row.from ≡ word.now) × Moves a.now.rows word.now row.to) }
{
    let Some(to) = a.move_word(alloc, word)? else {
        unreachable!()
    };
    let from = word.copy(alloc)?;
    Ok(Row { from, to })
}

// The row from a word to itself.
fn kept_row(alloc: Global, word: &Word) -> Result<Row, NoMemory>
    ensures { IfOk result (λ row. (row.from ≡ word.now) × (row.to ≡ word.now)) }
{
    Ok(Row {
        from: word.copy(alloc)?,
        to: word.copy(alloc)?,
    })
}
