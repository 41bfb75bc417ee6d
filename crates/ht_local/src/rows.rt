//! Rows that have the values at all ends of an atom, where they conjugate.
ghost use Rattle.std.specs.Prelude.{◌≡◌, ◌≢◌, ◌++◌, ℕ, pos, List, length, None, Some, slice_get, IfOk, OnOk};
ghost use Rattle.ht_word.specs.declared.word.Word.{Word};
ghost use Rattle.ht_word.specs.Words.{IsUnderSome};
ghost use Rattle.ht_pair.specs.declared.row.Row.{Row};
ghost use Rattle.ht_pair.specs.Atoms.{IsAtom, words_at};
ghost use Rattle.ht_pair.specs.Steps.{Carries};
ghost use Rattle.ht_types.specs.Links.{IsEndAt};
ghost use Rattle.ht_local.specs.declared.known.Known.{Known};
ghost use Rattle.ht_local.specs.KnownValues.{AreKnown, AreRight};
ghost use Rattle.ht_local.specs.LocalConjugators.{ConjugatesPlaces};
ghost use Rattle.ht_local.specs.PlacedLists.{rows_at};

use crate::known::Known;
use crate::tests::{are_apart, commute};
use crate::values::values_of;
use ht_ops::Image;
use ht_pair::Rows;
use ht_types::{Places, Typed};
use ht_word::{List, NoMemory};
use std::alloc::Global;

// Adds rows, without copying their words.
fn add_rows(rows: &mut Rows, more: Rows) -> Result<(), NoMemory>
    ensures { OnOk result (rows.new ≡ rows.old ++ more) }
{
    for row in more.into_vec() {
        rows.push(row)?;
    }
    Ok(())
}

// The rows from the words at the places, each with the letters of the entries of its list, to the
// entries' words.
fn rows_from(alloc: Global, f: &Typed, k: &Places, lists: &List<Image>) -> Result<Rows, NoMemory>
    requires atom { IsAtom f.now.element.shape f.now.element.rows f.now.quasi.basis.words k.now }
    requires lists { length lists.now ≡ length k.now }
    ensures { IfOk result (λ rows. rows ≡ rows_at f.now.quasi.basis.words k.now lists.now) }
{
    f.keeps_kinds();
    let words = f.quasi().basis.words();
    let mut rows = Rows::new(alloc);
    for index in 0..k.len() {
        let more = lists.at(index).rows_under(alloc, words.at(*k.at(index)))?;
        add_rows(&mut rows, more)?;
    }
    Ok(rows)
}

// Rows that have the values at all ends of an atom, where they conjugate f on it into g on the other
// one; `None` where no conjugator has these values. For each round of ends one power of g is made, and
// for each other word of the atom one step; then two tests: whether the lists commute, and whether the
// rows go to words that are apart. With the value at the start under the other atom, such rows fill that
// atom, so no words of its basis are gone through. Beside the powers: O(N log (N + M)) comparisons of
// words for N entries of all value lists and M rows of g.
pub(crate) fn rows_of(
    alloc: Global,
    f: &Typed,
    k: &Places,
    g: &Typed,
    l: &Places,
    known: &[Option<Known>],
    start: usize,
) -> Result<Option<Rows>, NoMemory>
    requires shape { g.now.element.shape ≡ f.now.element.shape }
    requires first { IsAtom f.now.element.shape f.now.element.rows f.now.quasi.basis.words k.now }
    requires second { IsAtom f.now.element.shape g.now.element.rows g.now.quasi.basis.words l.now }
    requires known { AreKnown f.now g.now k.now known.now }
    requires start { (place : ℕ) × (slice_get k.now start ≡ Some place) × IsEndAt f.now k.now place }
    requires inside { (value : Known) → slice_get known.now start ≡ Some (Some value) → (value.power ≡ pos 0) × IsUnderSome value.word (words_at g.now.quasi.basis.words l.now) }
    ensures conjugates { IfOk result (λ found. (rows : List Row) → found ≡ Some rows → ConjugatesPlaces f.now k.now g.now l.now rows) }
    ensures start { IfOk result (λ found. (rows : List Row) (place : ℕ) (x word : Word) → found ≡ Some rows → slice_get k.now start ≡ Some place → slice_get f.now.quasi.basis.words place ≡ Some x → slice_get known.now start ≡ Some (Some (record { word = word; power = pos 0 })) → Carries f.now.element.shape rows (pos 1) x word) }
    ensures found { IfOk result (λ found. (h : List Row) → ConjugatesPlaces f.now k.now g.now l.now h → AreRight f.now g.now h k.now known.now → found ≢ None) }
{
    f.keeps_kinds();
    g.keeps_kinds();
    let lists = values_of(alloc, f, k, g, known, start)?;
    if !commute(alloc, f, k, g, &lists)? {
        return Ok(None);
    }
    let rows = rows_from(alloc, f, k, &lists)?;
    if !are_apart(alloc, rows.as_slice())? {
        return Ok(None);
    }
    Ok(Some(rows))
}
