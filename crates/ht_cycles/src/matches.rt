//! Rows that match the periodic parts of two elements, cycle by cycle.
ghost use Rattle.std.specs.Prelude.{◌≡◌, ◌+◌, ◌-◌, ◌*◌, ◌%◌, ◌<◌, ◌++◌, ◌↔◌, ℕ, List, length, drop, Contains, IsTrue, Some, slice_get, IfOk, OnOk};
ghost use Rattle.ht_word.specs.declared.word.Word.{Word};
ghost use Rattle.ht_pair.specs.HeldBases.{children};
ghost use Rattle.ht_pair.specs.Profiles.{IsProfile};
ghost use Rattle.ht_pair.specs.declared.row.Row.{Row};
ghost use Rattle.ht_cycles.specs.Cycles.{ArePicked, AreSeeds, GoesOn, IsMatchedRound, AreRounds};
ghost use Rattle.ht_cycles.specs.MatchedLengths.{MatchLengths};
ghost use Rattle.ht_cycles.specs.Matches.{HaveOneProfile, IsMatch, TellsMatch};

use crate::profiles::profile;
use crate::representatives::{carried, group_of, representatives};
use ht_pair::{Element, Row, Rows};
use ht_types::Typed;
use ht_word::{NoMemory, Shape, Word, Words};
use std::alloc::Global;

// Equal words.
fn copied(alloc: Global, words: &[Word]) -> Result<Words, NoMemory>
    ensures { IfOk result (λ copy. copy ≡ words.now) }
{
    let mut copy = Words::new(alloc);
    for word in words {
        copy.push(word.copy(alloc)?)?;
    }
    Ok(copy)
}

// Adds the children of the word at a place.
fn add_children(
    alloc: Global,
    shape: Shape,
    place: usize,
    words: &mut Words,
) -> Result<(), NoMemory>
    requires { place < length words.old }
    ensures { OnOk result ((x : Word) → slice_get words.old place ≡ Some x → words.new ≡ words.old ++ children shape x) }
{
    let word = words.at(place).copy(alloc)?;
    for before in 0..shape.n {
        words.push(word.child(alloc, before + 1)?)?;
    }
    Ok(())
}

// The words, and so many times the children of the next word: without the words that had children
// these stand for the same cycles, expanded.
fn expanded(alloc: Global, t: &Typed, words: &[Word], times: usize) -> Result<Words, NoMemory>
    requires { 0 < length words.now }
    ensures size { IfOk result (λ list. length list ≡ length words.now + times * t.now.element.shape.n) }
    ensures seeds { IfOk result (λ list. (m : ℕ) → AreSeeds t.now.element.shape t.now.element.rows t.now.quasi.basis.words m words.now → AreSeeds t.now.element.shape t.now.element.rows t.now.quasi.basis.words m (drop times list)) }
{
    t.keeps_kinds();
    let shape = t.element().shape();
    let mut list = copied(alloc, words)?;
    for place in 0..times {
        add_children(alloc, shape, place, &mut list)?;
    }
    Ok(list)
}

// Adds the rows of one cycle: each of the m steps of f from the one word beside that of g from the
// other.
fn add_round(
    alloc: Global,
    f: &Element,
    g: &Element,
    m: u64,
    from: &Word,
    to: &Word,
    rows: &mut Rows,
) -> Result<(), NoMemory>
    requires shape { g.now.shape ≡ f.now.shape }
    requires from { GoesOn f.now.shape f.now.rows from.now }
    requires to { GoesOn f.now.shape g.now.rows to.now }
    ensures { OnOk result ((added : List Row) × (rows.new ≡ rows.old ++ added) × IsMatchedRound f.now.shape f.now.rows g.now.rows m from.now to.now added) }
{
    f.keeps_limits();
    g.keeps_limits();
    let mut u = from.copy(alloc)?;
    let mut v = to.copy(alloc)?;
    for _ in 0..m {
        let next_u = carried(alloc, f, &u)?;
        let next_v = carried(alloc, g, &v)?;
        rows.push(Row { from: u, to: v })?;
        u = next_u;
        v = next_v;
    }
    Ok(())
}

// Adds the rows of the cycles of words at the same places.
fn add_rounds(
    alloc: Global,
    f: &Element,
    g: &Element,
    m: u64,
    from: &[Word],
    to: &[Word],
    rows: &mut Rows,
) -> Result<(), NoMemory>
    requires shape { g.now.shape ≡ f.now.shape }
    requires many { length from.now ≡ length to.now }
    requires from { (u : Word) → Contains from.now u → GoesOn f.now.shape f.now.rows u }
    requires to { (v : Word) → Contains to.now v → GoesOn f.now.shape g.now.rows v }
    ensures { OnOk result ((added : List Row) × (rows.new ≡ rows.old ++ added) × AreRounds f.now.shape f.now.rows g.now.rows m from.now to.now added) }
{
    for place in 0..from.len() {
        add_round(alloc, f, g, m, &from[place], &to[place], rows)?;
    }
    Ok(())
}

// Adds the rows that match the cycles of the length, where a word of each is given. The side with
// fewer cycles is expanded until it has as many.
fn match_length(
    alloc: Global,
    f: &Typed,
    g: &Typed,
    m: usize,
    first: &[Word],
    second: &[Word],
    rows: &mut Rows,
) -> Result<(), NoMemory>
    requires shape { g.now.element.shape ≡ f.now.element.shape }
    requires first { ArePicked f.now.element.shape f.now.element.rows f.now.quasi.basis.words m first.now }
    requires second { ArePicked f.now.element.shape g.now.element.rows g.now.quasi.basis.words m second.now }
    requires some { (length first.now ≡ 0) ↔ (length second.now ≡ 0) }
    requires alike { length first.now % (f.now.element.shape.n - 1) ≡ length second.now % (f.now.element.shape.n - 1) }
    requires below { MatchLengths f.now.element.shape f.now.element.rows f.now.quasi.basis.words g.now.element.rows g.now.quasi.basis.words (λ k. k < m) rows.old }
    ensures { OnOk result (MatchLengths f.now.element.shape f.now.element.rows f.now.quasi.basis.words g.now.element.rows g.now.quasi.basis.words (λ k. k < m + 1) rows.new) }
{
    f.keeps_kinds();
    g.keeps_kinds();
    if first.len() == 0 {
        return Ok(());
    }
    let more = f.element().shape().n as usize - 1;
    let most = first.len().max(second.len());
    let ahead = (most - first.len()) / more;
    let behind = (most - second.len()) / more;
    let from = expanded(alloc, f, first, ahead)?;
    let to = expanded(alloc, g, second, behind)?;
    add_rounds(
        alloc,
        f.element(),
        g.element(),
        m as u64,
        &from.as_slice()[ahead..],
        &to.as_slice()[behind..],
        rows,
    )
}

// Whether the profiles of both are one.
fn have_one_profile(alloc: Global, f: &Typed, g: &Typed) -> Result<bool, NoMemory>
    requires shape { g.now.element.shape ≡ f.now.element.shape }
    ensures { IfOk result (λ one. (F G : List (ℕ × ℕ)) × IsProfile f.now.element.shape f.now.element.rows f.now.quasi.basis.words F × IsProfile f.now.element.shape g.now.element.rows g.now.quasi.basis.words G × (IsTrue one ↔ (F ≡ G))) }
{
    let first = profile(alloc, f)?;
    let second = profile(alloc, g)?;
    Ok(first.as_slice() == second.as_slice())
}

// The rows that match the periodic parts of elements with one profile.
fn matched(alloc: Global, f: &Typed, g: &Typed) -> Result<Rows, NoMemory>
    requires shape { g.now.element.shape ≡ f.now.element.shape }
    requires profile { HaveOneProfile f.now.element.shape f.now.element.rows f.now.quasi.basis.words g.now.element.rows g.now.quasi.basis.words }
    ensures { IfOk result (IsMatch f.now.element.shape f.now.element.rows f.now.quasi.basis.words g.now.element.rows g.now.quasi.basis.words) }
{
    f.keeps_kinds();
    g.keeps_kinds();
    let first = representatives(alloc, f)?;
    let second = representatives(alloc, g)?;
    let mut rows = Rows::new(alloc);
    for m in 0..first.len().max(second.len()) {
        let from = group_of(&first, m);
        let to = group_of(&second, m);
        match_length(alloc, f, g, m, from, to, &mut rows)?;
    }
    Ok(rows)
}

/// Rows that conjugate the periodic part of the one element into that of the other (Higman 1974; the
/// bound on the rows is this project's own): their `from` words cover the cycle words of the one,
/// their `to` words those of the other, and there are at most as many rows as both have cycle words.
/// `None` exactly where the profiles differ; then no rows conjugate so. For each length the cycles of
/// the side with fewer are expanded, and then cycles are sent to cycles. O(N log N) comparisons of
/// words and O(N) moves of words for N words and rows.
pub fn match_cycles(alloc: Global, f: &Typed, g: &Typed) -> Result<Option<Rows>, NoMemory>
    requires shape { g.now.element.shape ≡ f.now.element.shape }
    ensures { IfOk result (TellsMatch f.now.element.shape f.now.element.rows f.now.quasi.basis.words g.now.element.rows g.now.quasi.basis.words) }
{
    f.keeps_kinds();
    g.keeps_kinds();
    if !have_one_profile(alloc, f, g)? {
        return Ok(None);
    }
    let rows = matched(alloc, f, g)?;
    Ok(Some(rows))
}
