//! The steps of a basis after marked words gave way to their children, from those before. Only the
//! children, and words carried to or below a marked word, are looked up anew.
ghost use Rattle.std.specs.Prelude.{◌≡◌, ◌≢◌, ◌+◌, ◌<◌, ◌≤◌, ◌^◌, ◌∷◌, ◌++◌, [], ℕ, None, cond, length, IfOk, IfSome, OnOk};
ghost use Rattle.ht_quasi.specs.Kept.{place_after, ArePlacesAfter, IsStepInside, AreAllInside, StaysAs, IsRightAt, HaveRoundSteps, IsRenewed};

use crate::step::{Step, Steps, step_of};
use ht_pair::{Basis, Element};
use ht_word::{NoMemory, Shape};
use std::alloc::Global;

// How many words come from one, marked or not.
fn words_from(shape: Shape, mark: bool) -> usize
    ensures { result ≡ cond mark shape.n 1 }
{
    if mark { shape.n.into() } else { 1 }
}

// Where each word, or the first of its children, stands after. One pass.
fn places_after(alloc: Global, shape: Shape, marks: &[bool]) -> Result<Vec<usize>, NoMemory>
    requires { length marks.now < 2 ^ 32 }
    ensures { IfOk result (λ places. ArePlacesAfter shape.n marks.now places.items) }
{
    let mut places = Vec::new(alloc);
    let mut next = 0;
    for mark in marks {
        places.push(next)?;
        next += words_from(shape, *mark);
    }
    Ok(places)
}

// The step of a word that stays; `None` where it went to a marked word, or below one.
fn kept_step(step: Step, marks: &[bool], places: &[usize]) -> Option<Step>
    requires many { length places.now ≡ length marks.now }
    requires inside { IsStepInside step (length marks.now) }
    ensures { IfSome result (StaysAs marks.now places.now step) }
{
    match step {
        Step::Splits => Some(Step::Splits),
        Step::Next(place) if !marks[place] => Some(Step::Next(places[place])),
        Step::Descends(place) if !marks[place] => Some(Step::Descends(places[place])),
        Step::Next(_) | Step::Descends(_) => None,
    }
}

// Adds the step of the next word of the basis: the one that is known, or it is looked up.
fn add_step(
    alloc: Global,
    a: &Element,
    basis: &Basis,
    steps: &mut Steps,
    known: Option<Step>,
) -> Result<(), NoMemory>
    requires shape { basis.now.shape ≡ a.now.shape }
    requires room { length steps.old < length basis.now.words }
    ensures { OnOk result ((length steps.new ≡ length steps.old + 1) × (IsRightAt a.now.shape a.now.rows basis.now.words known (length steps.old) → HaveRoundSteps a.now.shape a.now.rows basis.now.words (length steps.old) steps.old → HaveRoundSteps a.now.shape a.now.rows basis.now.words (length steps.new) steps.new)) }
{
    let step = match known {
        Some(step) => step,
        None => step_of(alloc, a, basis, basis.words().at(steps.len()))?,
    };
    steps.push(step)
}

// Adds the steps of the next n words of the basis, the children of one word.
fn add_steps(alloc: Global, a: &Element, basis: &Basis, steps: &mut Steps) -> Result<(), NoMemory>
    requires shape { basis.now.shape ≡ a.now.shape }
    requires room { length steps.old + a.now.shape.n ≤ length basis.now.words }
    ensures { OnOk result ((length steps.new ≡ length steps.old + a.now.shape.n) × (HaveRoundSteps a.now.shape a.now.rows basis.now.words (length steps.old) steps.old → HaveRoundSteps a.now.shape a.now.rows basis.now.words (length steps.new) steps.new)) }
{
    for _ in 0..a.shape().n {
        add_step(alloc, a, basis, steps, None)?;
    }
    Ok(())
}

// The steps of the words of a basis that came from another with these steps, the marked words of
// which gave way to their children. One pass, and O(log N) comparisons of words for each word that
// is looked up.
pub(crate) fn steps_after(
    alloc: Global,
    a: &Element,
    basis: &Basis,
    old: &[Step],
    marks: &[bool],
) -> Result<Steps, NoMemory>
    requires shape { basis.now.shape ≡ a.now.shape }
    requires many { length marks.now ≡ length old.now }
    requires short { length marks.now < 2 ^ 32 }
    requires inside { AreAllInside old.now (length marks.now) }
    requires long { length basis.now.words ≡ place_after a.now.shape.n marks.now (length marks.now) }
    ensures { IfOk result (IsRenewed a.now.shape a.now.rows old.now marks.now basis.now.words) }
{
    let places = places_after(alloc, a.shape(), marks)?;
    let mut steps = Steps::new(alloc);
    for (place, mark) in marks.iter().enumerate() {
        if *mark {
            add_steps(alloc, a, basis, &mut steps)?;
            continue;
        }
        let known = kept_step(old[place], marks, &places);
        add_step(alloc, a, basis, &mut steps, known)?;
    }
    Ok(steps)
}
