//! Value lists at the words of an atom, from what is known at its ends.
ghost use Rattle.std.specs.Prelude.{◌≡◌, ◌<◌, ℕ, pos, List, [], ◌∷◌, length, All, AllPairs, Contains, None, Some, false, replicate, slice_get, slice_set, IfOk, IfSome, OnOk, MatchOption};
ghost use Rattle.ht_word.specs.Words.{◌·◌, IsLetters};
ghost use Rattle.ht_pair.specs.Atoms.{IsAtom};
ghost use Rattle.ht_pair.specs.Images.{Entry};
ghost use Rattle.ht_local.specs.declared.known.Known.{Known};
ghost use Rattle.ht_local.specs.PlacedLists.{IsPosed, IsListAt, AreListsAt, AreSlotsAt, KeepsLists};
ghost use Rattle.ht_local.specs.Ways.{IsAnchor, IsNext};
ghost use Rattle.ht_local.specs.Ways as way;

use crate::known::Known;
use crate::places::index_of;
use ht_ops::Image;
use ht_types::{Direction, Kind, Places, Reach, Step, Typed};
use ht_word::{List, NoMemory};
use std::alloc::Global;

// An end, by its index among the places, to under which so many steps lead, with letters behind it.
#[derive(Debug, Drop)]
pub(crate) struct Anchor<'a> {
    pub end: usize,
    pub steps: i128,
    pub rest: &'a [u8],
}

// The word, by its index among the places, to under which one step leads, with letters behind it.
#[derive(Debug, Drop)]
pub(crate) struct Next<'a> {
    pub direction: Direction,
    pub to: usize,
    pub rest: &'a [u8],
}

// The anchor at the end of a reach.
fn reached<'a>(k: &Places, reach: &'a Reach, steps: i128) -> Anchor<'a>
    requires ascending { AllPairs (λ (i : ℕ) (j : ℕ). i < j) k.now }
    requires listed { Contains k.now reach.now.to }
    ensures { (slice_get k.now result.end ≡ Some (reach.now.to)) × (result.steps ≡ steps) × (result.rest.now ≡ reach.now.rest) }
{
    let Some(end) = index_of(k, reach.to) else {
        unreachable!()
    };
    Anchor {
        end,
        steps,
        rest: reach.rest.as_slice(),
    }
}

// Whether words of the kind are attractors or repellers.
fn is_end(kind: &Kind) -> bool
    ensures { result ≡ way.is_end kind.now }
{
    match kind {
        Kind::Attractor { .. } => true,
        Kind::Repeller { .. } => true,
        _ => false,
    }
}

// The reach ahead of a passing word.
fn reach_ahead(kind: &Kind) -> Option<&Reach>
    ensures { MatchOption result (way.ahead_of kind.now ≡ None) (λ reach. way.ahead_of kind.now ≡ Some (reach.now)) }
{
    match kind {
        Kind::Passing { ahead, .. } => ahead.as_ref(),
        _ => None,
    }
}

// The reach behind of a passing word.
fn reach_behind(kind: &Kind) -> Option<&Reach>
    ensures { MatchOption result (way.behind_of kind.now ≡ None) (λ reach. way.behind_of kind.now ≡ Some (reach.now)) }
{
    match kind {
        Kind::Passing { behind, .. } => behind.as_ref(),
        _ => None,
    }
}

// An end itself, by no steps; a passing word by its reach ahead, or by that behind where it has no
// other.
fn anchor_of<'a>(f: &'a Typed, k: &Places, index: usize) -> Anchor<'a>
    requires atom { IsAtom f.now.element.shape f.now.element.rows f.now.quasi.basis.words k.now }
    requires index { index < length k.now }
    ensures { IsAnchor f.now k.now index result.end result.steps result.rest.now }
{
    f.keeps_kinds();
    let kind = f.kind(*k.at(index));
    if is_end(kind) {
        return Anchor {
            end: index,
            steps: 0,
            rest: &[],
        };
    }
    if let Some(reach) = reach_ahead(kind) {
        return reached(k, reach, reach.steps as i128);
    }
    let Some(reach) = reach_behind(kind) else {
        unreachable!()
    };
    reached(k, reach, -(reach.steps as i128))
}

// The direction in which a word is on the way to its anchor: ahead where it stays ahead.
fn direction_of(kind: &Kind) -> Direction {
    match kind {
        Kind::Repeller { .. } => Direction::Behind,
        Kind::Passing { ahead: None, .. } => Direction::Behind,
        _ => Direction::Ahead,
    }
}

// Where one step on the way to the anchor leads.
fn next_from<'a>(f: &'a Typed, k: &Places, index: usize) -> Option<Next<'a>>
    requires atom { IsAtom f.now.element.shape f.now.element.rows f.now.quasi.basis.words k.now }
    requires index { index < length k.now }
    ensures { IfSome result (λ next. IsNext f.now k.now index next.direction next.to next.rest.now) }
{
    f.keeps_kinds();
    let place = *k.at(index);
    let direction = direction_of(f.kind(place));
    let Step::Leads { to, rest } = f.step_in(direction, place) else {
        return None;
    };
    let to = index_of(k, *to)?;
    Some(Next {
        direction,
        to,
        rest: rest.as_slice(),
    })
}

// How many words are on the way from a word to its anchor at most, or on the round of an end.
fn most_from(kind: &Kind) -> u128 {
    match kind {
        Kind::Attractor { m, .. } | Kind::Repeller { m, .. } => *m as u128,
        Kind::Passing {
            ahead: Some(reach),
            ..
        } => reach.steps.saturating_add(1),
        Kind::Passing {
            ahead: None,
            behind: Some(reach),
        } => reach.steps.saturating_add(1),
        _ => 1,
    }
}

// Whether there is a list at an index.
fn has_list(lists: &[Option<Image>], at: usize) -> bool
    requires { at < length lists.now }
    ensures { result ≡ false → slice_get lists.now at ≡ Some None }
{
    lists[at].is_some()
}

// The way of a word, by the indices of its words, up to one that has its list.
fn way_from(
    alloc: Global,
    f: &Typed,
    k: &Places,
    lists: &[Option<Image>],
    index: usize,
) -> Result<Vec<usize>, NoMemory>
    requires atom { IsAtom f.now.element.shape f.now.element.rows f.now.quasi.basis.words k.now }
    requires lists { length lists.now ≡ length k.now }
    requires index { index < length k.now }
    ensures { IfOk result (λ way. All (λ (i : ℕ). i < length k.now) way.items) }
{
    f.keeps_kinds();
    let mut way = Vec::new(alloc);
    let mut at = index;
    for _ in 0..most_from(f.kind(*k.at(index))) {
        if has_list(lists, at) {
            return Ok(way);
        }
        way.push(at)?;
        let Some(next) = next_from(f, k, at) else {
            return Ok(way);
        };
        at = next.to;
    }
    Ok(way)
}

// What is known at an end.
fn value_at(known: &[Option<Known>], end: usize) -> &Known
    requires { (value : Known) × (slice_get known.now end ≡ Some (Some value)) }
    ensures { slice_get known.now end ≡ Some (Some (result.now)) }
{
    let Some(Some(value)) = known.get(end) else {
        unreachable!()
    };
    value
}

// The list of a word from what is known at its anchor.
fn list_by_anchor(
    alloc: Global,
    f: &Typed,
    k: &Places,
    g: &Typed,
    known: &[Option<Known>],
    index: usize,
) -> Result<Image, NoMemory>
    requires posed { IsPosed f.now k.now g.now known.now }
    requires index { index < length k.now }
    ensures list { IfOk result (λ list. (place : ℕ) → slice_get k.now index ≡ Some place → IsListAt f.now k.now g.now known.now place list) }
    ensures cone { IfOk result (λ list. (value : Known) → slice_get known.now index ≡ Some (Some value) → value.power ≡ pos 0 → list ≡ record { letters = []; word = value.word } ∷ []) }
{
    f.keeps_kinds();
    g.keeps_kinds();
    let anchor = anchor_of(f, k, index);
    let value = value_at(known, anchor.end);
    let word = value.word.joined(alloc, anchor.rest)?;
    let cone = Image::cone(alloc, word)?;
    cone.steps(alloc, g.element(), value.power - anchor.steps)
}

// The list at an index, where it is there.
fn list_in(lists: &[Option<Image>], at: usize) -> Option<&Image>
    ensures { IfSome result (λ list. slice_get lists.now at ≡ Some (Some (list.now))) }
{
    match lists.get(at) {
        Some(Some(list)) => Some(list),
        _ => None,
    }
}

// The list of a word, from that of the next one where it is there.
fn list_of(
    alloc: Global,
    f: &Typed,
    k: &Places,
    g: &Typed,
    known: &[Option<Known>],
    lists: &[Option<Image>],
    index: usize,
) -> Result<Image, NoMemory>
    requires posed { IsPosed f.now k.now g.now known.now }
    requires lists { AreSlotsAt f.now k.now g.now known.now lists.now }
    requires index { index < length k.now }
    ensures { IfOk result (λ list. (place : ℕ) → slice_get k.now index ≡ Some place → IsListAt f.now k.now g.now known.now place list) }
{
    f.keeps_kinds();
    g.keeps_kinds();
    let Some(next) = next_from(f, k, index) else {
        return list_by_anchor(alloc, f, k, g, known, index);
    };
    let Some(list) = list_in(lists, next.to) else {
        return list_by_anchor(alloc, f, k, g, known, index);
    };
    let behind = list.behind(alloc, f.element().shape(), next.rest)?;
    behind.step(alloc, g.mover(next.direction.opposite()))
}

// Puts a list into its slot.
fn put(lists: &mut [Option<Image>], at: usize, list: Image)
    requires { at < length lists.old }
    ensures { lists.new ≡ slice_set lists.old at (Some list) }
{
    lists[at] = Some(list);
}

// Makes the list of a word, where it has none.
fn fill(
    alloc: Global,
    f: &Typed,
    k: &Places,
    g: &Typed,
    known: &[Option<Known>],
    lists: &mut [Option<Image>],
    at: usize,
) -> Result<(), NoMemory>
    requires posed { IsPosed f.now k.now g.now known.now }
    requires lists { AreSlotsAt f.now k.now g.now known.now lists.old }
    requires at { at < length k.now }
    ensures lists { OnOk result (AreSlotsAt f.now k.now g.now known.now lists.new) }
    ensures keeps { OnOk result (KeepsLists lists.old lists.new) }
{
    if has_list(lists, at) {
        return Ok(());
    }
    let list = list_of(alloc, f, k, g, known, lists, at)?;
    put(lists, at, list);
    Ok(())
}

// Makes the lists of the words on the way of a word that have none, from its end backwards.
fn fill_way(
    alloc: Global,
    f: &Typed,
    k: &Places,
    g: &Typed,
    known: &[Option<Known>],
    lists: &mut [Option<Image>],
    index: usize,
) -> Result<(), NoMemory>
    requires posed { IsPosed f.now k.now g.now known.now }
    requires lists { AreSlotsAt f.now k.now g.now known.now lists.old }
    requires index { index < length k.now }
    ensures lists { OnOk result (AreSlotsAt f.now k.now g.now known.now lists.new) }
    ensures keeps { OnOk result (KeepsLists lists.old lists.new) }
{
    let mut way = way_from(alloc, f, k, lists, index)?;
    while let Some(at) = way.pop() {
        fill(alloc, f, k, g, known, lists, at)?;
    }
    Ok(())
}

// No lists yet.
fn no_lists(alloc: Global, count: usize) -> Result<Vec<Option<Image>>, NoMemory>
    ensures { IfOk result (λ lists. lists.items ≡ replicate count None) }
{
    let mut lists = Vec::new(alloc);
    for _ in 0..count {
        lists.push(None)?;
    }
    Ok(lists)
}

// Makes a list for each word, one way after another.
fn fill_all(
    alloc: Global,
    f: &Typed,
    k: &Places,
    g: &Typed,
    known: &[Option<Known>],
    lists: &mut [Option<Image>],
) -> Result<(), NoMemory>
    requires posed { IsPosed f.now k.now g.now known.now }
    requires lists { AreSlotsAt f.now k.now g.now known.now lists.old }
    ensures lists { OnOk result (AreSlotsAt f.now k.now g.now known.now lists.new) }
    ensures keeps { OnOk result (KeepsLists lists.old lists.new) }
{
    for index in 0..k.len() {
        fill_way(alloc, f, k, g, known, lists, index)?;
    }
    Ok(())
}

// The list in the slot, or one made anew.
fn settled(
    alloc: Global,
    f: &Typed,
    k: &Places,
    g: &Typed,
    known: &[Option<Known>],
    index: usize,
    slot: Option<Image>,
) -> Result<Image, NoMemory>
    requires posed { IsPosed f.now k.now g.now known.now }
    requires index { index < length k.now }
    requires slot { (L : List Entry) (place : ℕ) → slot ≡ Some L → slice_get k.now index ≡ Some place → IsListAt f.now k.now g.now known.now place L }
    ensures list { IfOk result (λ list. (place : ℕ) → slice_get k.now index ≡ Some place → IsListAt f.now k.now g.now known.now place list) }
    ensures same { IfOk result (λ list. (L : List Entry) → slot ≡ Some L → list ≡ L) }
{
    if let Some(list) = slot {
        return Ok(list);
    }
    list_by_anchor(alloc, f, k, g, known, index)
}

// The lists in the slots.
fn all_settled(
    alloc: Global,
    f: &Typed,
    k: &Places,
    g: &Typed,
    known: &[Option<Known>],
    slots: Vec<Option<Image>>,
) -> Result<List<Image>, NoMemory>
    requires posed { IsPosed f.now k.now g.now known.now }
    requires slots { AreSlotsAt f.now k.now g.now known.now slots.items }
    ensures lists { IfOk result (AreListsAt f.now k.now g.now known.now) }
    ensures same { IfOk result (λ lists. (i : ℕ) (L : List Entry) → slice_get slots.items i ≡ Some (Some L) → slice_get lists i ≡ Some L) }
{
    let mut lists = List::new(alloc);
    for slot in slots {
        let list = settled(alloc, f, k, g, known, lists.len(), slot)?;
        lists.push(list)?;
    }
    Ok(lists)
}

// The value lists of the words at the places, in their order: for each round of ends one is made from
// what is known there, that at `start` for its round, and each other one by a single step from the
// next. O(N log N) comparisons of words for N entries of all lists and rows of the second element.
pub(crate) fn values_of(
    alloc: Global,
    f: &Typed,
    k: &Places,
    g: &Typed,
    known: &[Option<Known>],
    start: usize,
) -> Result<List<Image>, NoMemory>
    requires posed { IsPosed f.now k.now g.now known.now }
    requires start { start < length k.now }
    ensures lists { IfOk result (AreListsAt f.now k.now g.now known.now) }
    ensures cone { IfOk result (λ lists. (value : Known) → slice_get known.now start ≡ Some (Some value) → value.power ≡ pos 0 → slice_get lists start ≡ Some (record { letters = []; word = value.word } ∷ [])) }
{
    let mut slots = no_lists(alloc, k.len())?;
    let seed = list_by_anchor(alloc, f, k, g, known, start)?;
    put(&mut slots, start, seed);
    fill_all(alloc, f, k, g, known, &mut slots)?;
    all_settled(alloc, f, k, g, known, slots)
}
