//! What an element does next with the words of a basis.
ghost use Rattle.std.specs.Prelude.{◌≡◌, length, Some, slice_get, IfOk};
ghost use Rattle.ht_word.specs.Words.{IsWordOf};
ghost use Rattle.ht_pair.specs.Bases.{IsBasis};
ghost use Rattle.ht_quasi.specs.Rounds.{HasRoundStep, AreRoundSteps};

use ht_pair::{Basis, Element};
use ht_word::{List, NoMemory, Word};
use std::alloc::Global;

// What an element does with a word of a basis.
#[derive(Clone, Copy, Debug, PartialEq, Eq)]
pub(crate) enum Step {
    // it carries the word to no word under the basis
    Splits,
    // it carries it to the word of the basis at this place, counted from 0
    Next(usize),
    // it carries it to a longer word under the word of the basis at this place
    Descends(usize),
}

// The steps of the words of a basis, in their order.
pub(crate) type Steps = List<Step>;

// The step of one word: two binary searches.
pub(crate) fn step_of(
    alloc: Global,
    a: &Element,
    basis: &Basis,
    word: &Word,
) -> Result<Step, NoMemory>
    requires { IsWordOf a.now.shape word.now }
    ensures { IfOk result (HasRoundStep a.now.shape a.now.rows basis.now.words word.now) }
{
    a.keeps_limits();
    let Some(moved) = a.move_word(alloc, word)? else {
        return Ok(Step::Splits);
    };
    let Some(place) = basis.find(&moved) else {
        return Ok(Step::Splits);
    };
    if basis.words().at(place).letters.len() == moved.letters.len() {
        Ok(Step::Next(place))
    } else {
        Ok(Step::Descends(place))
    }
}

// The step of each word of a basis. O(N log N) comparisons of words for N words and rows.
pub(crate) fn steps(alloc: Global, a: &Element, basis: &Basis) -> Result<Steps, NoMemory>
    requires { basis.now.shape ≡ a.now.shape }
    ensures { IfOk result (AreRoundSteps a.now.shape a.now.rows basis.now.words) }
{
    let mut steps = Steps::new(alloc);
    for word in basis.words().as_slice() {
        steps.push(step_of(alloc, a, basis, word)?)?;
    }
    Ok(steps)
}
