//! Powers of elements of finite order, read off their cycles.
ghost use Rattle.std.specs.Prelude.{◌≡◌, ◌≤◌, ◌<◌, ◌^◌, ℕ, pos, map, length, slice_index, All, IsTrue, IfOk, OnOk, IsErrOf};
ghost use Rattle.ht_num.specs.Chains.{chain};
ghost use Rattle.ht_word.specs.declared.word.Word.{Word};
ghost use Rattle.ht_pair.specs.declared.fault.OpFault.TheVariants as op_fault;
ghost use Rattle.ht_pair.specs.PowerSizes.{Plus, IsFirstLarge, NoneLarge};
ghost use Rattle.ht_pair.specs.Products.{IsPower};
ghost use Rattle.ht_power.specs.CyclePowers.{IsFinite, AreLed, ArePlaced};
ghost use Rattle.ht_power.specs.Told.{TellsPowers};

use crate::PowerFault;
use ht_ops::power;
use ht_pair::{Element, OpFault, Row, Rows};
use ht_types::{Direction, Step, Typed};
use ht_word::{NoMemory, Word};
use std::alloc::Global;

// The most rows that an element may have.
const MOST_ROWS: usize = 8_192;

// The most letters that a word of it may have.
const MOST_LETTERS: usize = 1_024;

// The k-th power of an element of finite order, as `power` makes it. Where the words of the basis are
// within the limits of elements no power is large, and it is read off the cycles: three passes over the
// words for each binary digit of k at most, and a few over their letters.
pub(crate) fn cycle_power(alloc: Global, t: &Typed, k: u128) -> Result<Element, OpFault>
    requires finite { IsFinite t.now }
    requires exponent { (1 ≤ k) × (k < 2 ^ 127) }
    ensures power { IfOk result (λ s. (s.shape ≡ t.now.element.shape) × IsPower t.now.element.shape t.now.element.rows (pos k) s.rows) }
    ensures kept { OnOk result (NoneLarge t.now.element.shape t.now.element.rows Plus k) }
    ensures large { (rows letters : ℕ) → IsErrOf result (op_fault.Large rows letters) → IsFirstLarge t.now.element.shape t.now.element.rows Plus (chain k) rows letters }
{
    t.keeps_kinds();
    if !is_small(t.quasi().basis.words().as_slice()) {
        return power(alloc, t.element(), k as i128);
    }
    let places = places_after(alloc, t, k)?;
    let rows = placed_rows(alloc, t.quasi().basis.words().as_slice(), places.as_slice())?;
    Element::of_pair(alloc, t.element().shape(), rows)
}

// The i-th power of the one element and the j-th of the other.
pub(crate) fn cycle_powers(
    alloc: Global,
    f: &Typed,
    g: &Typed,
    i: u128,
    j: u128,
) -> Result<(Element, Element), PowerFault>
    requires shape { g.now.element.shape ≡ f.now.element.shape }
    requires finite { IsFinite f.now × IsFinite g.now }
    requires first { (1 ≤ i) × (i < 2 ^ 127) }
    requires second { (1 ≤ j) × (j < 2 ^ 127) }
    ensures shapes { IfOk result (λ both. (both.0.shape ≡ f.now.element.shape) × (both.1.shape ≡ g.now.element.shape)) }
    ensures powers { TellsPowers f.now.element g.now.element Plus i j result }
{
    let first = cycle_power(alloc, f, i)?;
    let second = cycle_power(alloc, g, j)?;
    Ok((first, second))
}

// Whether rows over the words are within the limits of elements. One pass; takes no memory.
fn is_small(words: &[Word]) -> bool
    ensures { IsTrue result → (length words.now ≤ 8192) × All (λ w. length w.letters ≤ 1024) words.now }
{
    words.len() <= MOST_ROWS && words.iter().all(|word| word.letters.len() <= MOST_LETTERS)
}

// The places of the words to which k steps carry the words of the basis, over those of half as many
// steps. At most three passes over the words for each binary digit of k.
fn places_after(alloc: Global, t: &Typed, k: u128) -> Result<Vec<usize>, NoMemory>
    requires finite { IsFinite t.now }
    requires positive { 1 ≤ k }
    ensures { IfOk result (λ places. AreLed t.now.element.shape t.now.element.rows t.now.quasi.basis.words k (length t.now.quasi.basis.words) places.items) }
{
    t.keeps_kinds();
    if k == 1 {
        return places_next(alloc, t);
    }
    let half = places_after(alloc, t, k / 2)?;
    let twice = followed(alloc, half.as_slice(), half.as_slice())?;
    if k % 2 == 0 {
        return Ok(twice);
    }
    let next = places_next(alloc, t)?;
    followed(alloc, twice.as_slice(), next.as_slice())
}

// The places of the words to which one step carries the words of the basis. One pass.
fn places_next(alloc: Global, t: &Typed) -> Result<Vec<usize>, NoMemory>
    requires { IsFinite t.now }
    ensures { IfOk result (λ places. AreLed t.now.element.shape t.now.element.rows t.now.quasi.basis.words 1 (length t.now.quasi.basis.words) places.items) }
{
    t.keeps_kinds();
    let mut places = Vec::new(alloc);
    for place in 0..t.quasi().basis.words().len() {
        let Step::Leads { to, .. } = t.step_in(Direction::Ahead, place) else {
            unreachable!()
        };
        places.push(*to)?;
    }
    Ok(places)
}

// What the second list has at the places of the first. One pass.
fn followed(alloc: Global, first: &[usize], second: &[usize]) -> Result<Vec<usize>, NoMemory>
    requires { All (λ place. place < length second.now) first.now }
    ensures { IfOk result (λ places. places.items ≡ map (λ place. slice_index second.now place) first.now) }
{
    let mut places = Vec::new(alloc);
    for place in first {
        places.push(second[*place])?;
    }
    Ok(places)
}

// The rows from the words, each to the word at its place. One pass over the letters.
fn placed_rows(alloc: Global, words: &[Word], places: &[usize]) -> Result<Rows, NoMemory>
    requires many { length places.now ≡ length words.now }
    requires inside { All (λ to. to < length words.now) places.now }
    ensures { IfOk result (ArePlaced words.now places.now) }
{
    let mut rows = Rows::new(alloc);
    for (place, to) in places.iter().enumerate() {
        let from = words[place].copy(alloc)?;
        let to = words[*to].copy(alloc)?;
        rows.push(Row { from, to })?;
    }
    Ok(rows)
}
