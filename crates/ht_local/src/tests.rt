//! Whether rows made of value lists conjugate on atoms: by the lists, and by the words that they go to.
ghost use Rattle.std.specs.Prelude.{◌≡◌, ◌↔◌, ◌<◌, ℕ, Some, slice_get, length, map, All, Contains, IsPermutation, IsSorted, IsTrue, IfOk};
ghost use Rattle.std.specs.Borrow.{Bor};
ghost use Rattle.std.specs.List.{AllAdjacentBelow};
ghost use Rattle.ht_word.specs.declared.word.Word.{Word};
ghost use Rattle.ht_word.specs.Words.{word_cmp, IsWordOf, IsUnder, IsAscending};
ghost use Rattle.ht_pair.specs.declared.row.Row.{Row};
ghost use Rattle.ht_pair.specs.Atoms.{IsAtom};
ghost use Rattle.ht_pair.specs.Bases.{IsPrefixFree};
ghost use Rattle.ht_pair.specs.HeldBases.{IsPlaceAbove};
ghost use Rattle.ht_pair.specs.Pairs.{from_words, to_words};
ghost use Rattle.ht_pair.specs.SortedItems.{head_cmp};
ghost use Rattle.ht_pair.specs.ValueLists.{IsValueList};
ghost use Rattle.ht_local.specs.PlacedLists.{IsListBehind, IsStepBelow, rows_at, AgreesAlong};

use crate::places::index_of;
use ht_ops::Image;
use ht_pair::{Row, first_under};
use ht_types::{Places, Typed};
use ht_word::{List, NoMemory, Word};
use std::alloc::Global;
use std::cmp::Ordering;

// The rows whose `from` words are under the word: they stand together. Two binary searches.
fn rows_below<'a>(rows: &'a [Row], word: &Word) -> &'a [Row]
    requires free { IsPrefixFree (from_words rows.now) }
    requires ascending { IsAscending (from_words rows.now) }
    ensures { (row : Row) → Contains result.now row ↔ (Contains rows.now row × IsUnder row.from word.now) }
{
    let first = first_under(rows, word);
    let from = &rows[first..];
    let count = from.partition_point(
        |row: &Row| -> bool
            ensures { IsTrue result ↔ IsUnder row.now.from word.entry.now }
        { word.is_prefix_of(&row.from) },
    );
    &from[..count]
}

// The list of the word at the index, behind the letters that a word under it has there.
fn list_behind(
    alloc: Global,
    f: &Typed,
    k: &Places,
    lists: &List<Image>,
    index: usize,
    word: &Word,
) -> Result<Image, NoMemory>
    requires atom { IsAtom f.now.element.shape f.now.element.rows f.now.quasi.basis.words k.now }
    requires many { length lists.now ≡ length k.now }
    requires lists { All (IsValueList f.now.element.shape) lists.now }
    requires word { IsWordOf f.now.element.shape word.now }
    requires under { (place : ℕ) × (slice_get k.now index ≡ Some place) × IsPlaceAbove f.now.quasi.basis.words word.now place }
    ensures { IfOk result (IsListBehind f.now.element.shape f.now.quasi.basis.words k.now lists.now index word.now) }
{
    f.keeps_kinds();
    let basis = &f.quasi().basis;
    let Some(letters) = word.rest_after(basis.words().at(*k.at(index))) else {
        unreachable!()
    };
    lists.at(index).behind(alloc, basis.shape(), letters)
}

// Whether the two ways round a row of one step are one: the list of the word above its `from` word,
// behind the letters there, and a step of g; and the list of the word above its `to` word, behind the
// letters there.
fn agrees_along(
    alloc: Global,
    f: &Typed,
    k: &Places,
    g: &Typed,
    lists: &List<Image>,
    index: usize,
    row: &Row,
) -> Result<bool, NoMemory>
    requires shape { g.now.element.shape ≡ f.now.element.shape }
    requires atom { IsAtom f.now.element.shape f.now.element.rows f.now.quasi.basis.words k.now }
    requires many { length lists.now ≡ length k.now }
    requires lists { All (IsValueList f.now.element.shape) lists.now }
    requires index { index < length k.now }
    requires row { IsStepBelow f.now k.now index row.now }
    ensures { IfOk result (λ yes. IsTrue yes ↔ AgreesAlong f.now.element.shape (rows_at f.now.quasi.basis.words k.now lists.now) g.now.element.rows row.now) }
{
    f.keeps_kinds();
    g.keeps_kinds();
    let Some(place) = f.quasi().basis.find(&row.to) else {
        unreachable!()
    };
    let Some(to) = index_of(k, place) else {
        unreachable!()
    };
    let before = list_behind(alloc, f, k, lists, index, &row.from)?;
    let first = before.step(alloc, g.element())?;
    let second = list_behind(alloc, f, k, lists, to, &row.to)?;
    Ok(first.same(&second))
}

// The rows of one step from under the word at the index.
fn steps_below<'a>(f: &'a Typed, k: &Places, index: usize) -> &'a [Row]
    requires atom { IsAtom f.now.element.shape f.now.element.rows f.now.quasi.basis.words k.now }
    requires index { index < length k.now }
    ensures { (row : Row) → Contains result.now row ↔ IsStepBelow f.now k.now index row }
{
    f.keeps_kinds();
    let quasi = f.quasi();
    rows_below(quasi.y.as_slice(), quasi.basis.words().at(*k.at(index)))
}

// Whether both ways round each row of one step from under the word at the index are one.
fn agrees_below(
    alloc: Global,
    f: &Typed,
    k: &Places,
    g: &Typed,
    lists: &List<Image>,
    index: usize,
) -> Result<bool, NoMemory>
    requires shape { g.now.element.shape ≡ f.now.element.shape }
    requires atom { IsAtom f.now.element.shape f.now.element.rows f.now.quasi.basis.words k.now }
    requires many { length lists.now ≡ length k.now }
    requires lists { All (IsValueList f.now.element.shape) lists.now }
    requires index { index < length k.now }
    ensures { IfOk result (λ yes. IsTrue yes ↔ ((row : Row) → IsStepBelow f.now k.now index row → AgreesAlong f.now.element.shape (rows_at f.now.quasi.basis.words k.now lists.now) g.now.element.rows row)) }
{
    for row in steps_below(f, k, index) {
        if !agrees_along(alloc, f, k, g, lists, index, row)? {
            return Ok(false);
        }
    }
    Ok(true)
}

// Whether f and then the rows of the lists are these and then g: by the rows of one step of f from
// under the words at the places alone.
pub(crate) fn commute(
    alloc: Global,
    f: &Typed,
    k: &Places,
    g: &Typed,
    lists: &List<Image>,
) -> Result<bool, NoMemory>
    requires shape { g.now.element.shape ≡ f.now.element.shape }
    requires atom { IsAtom f.now.element.shape f.now.element.rows f.now.quasi.basis.words k.now }
    requires many { length lists.now ≡ length k.now }
    requires lists { All (IsValueList f.now.element.shape) lists.now }
    ensures { IfOk result (λ yes. IsTrue yes ↔ ((row : Row) (index : ℕ) → IsStepBelow f.now k.now index row → AgreesAlong f.now.element.shape (rows_at f.now.quasi.basis.words k.now lists.now) g.now.element.rows row)) }
{
    for index in 0..k.len() {
        if !agrees_below(alloc, f, k, g, lists, index)? {
            return Ok(false);
        }
    }
    Ok(true)
}

// The `to` words of the rows, in order.
fn sorted_words<'a>(alloc: Global, rows: &'a [Row]) -> Result<Vec<&'a Word>, NoMemory>
    ensures permutation { IfOk result (λ words. IsPermutation (to_words rows.now) (map (λ (word : Bor Word). word.now) words.items)) }
    ensures sorted { IfOk result (λ words. IsSorted (head_cmp (λ (word : Bor Word). word.now)) words.items) }
{
    let mut words = Vec::new(alloc);
    for row in rows {
        words.push(&row.to)?;
    }
    words.sort_by(
        |a: &&Word, b: &&Word| -> Ordering
            ensures { result ≡ word_cmp a.now.now b.now.now }
        { a.order(b) },
    )?;
    Ok(words)
}

// Whether no word is a prefix of the next one.
fn no_prefix_of_next(words: &[&Word]) -> bool
    ensures { IsTrue result ↔ AllAdjacentBelow (λ (word : Bor Word) (next : Bor Word). ¬ IsUnder next.now word.now) words.now (length words.now) }
{
    for index in 1..words.len() {
        if words[index - 1].is_prefix_of(words[index]) {
            return false;
        }
    }
    true
}

// Whether none of the `to` words of the rows is above another or equal to it. Sorts the words of N rows
// by O(N log N) comparisons of words, without copying them, then makes one pass.
pub(crate) fn are_apart(alloc: Global, rows: &[Row]) -> Result<bool, NoMemory>
    ensures { IfOk result (λ yes. IsTrue yes ↔ IsPrefixFree (to_words rows.now)) }
{
    let words = sorted_words(alloc, rows)?;
    Ok(no_prefix_of_next(&words))
}
