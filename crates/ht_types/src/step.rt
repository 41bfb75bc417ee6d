//! Where one step of an element leads from a word of a basis.
ghost use Rattle.std.specs.Prelude.{◌≡◌, pos, IfOk};
ghost use Rattle.ht_word.specs.Words.{IsWordOf, IsUnderSome};
ghost use Rattle.ht_pair.specs.SemiNormal.{IsQuasinormal};
ghost use Rattle.ht_types.specs.WordSteps.{HasStep, AreSteps};

use ht_pair::{Basis, Element};
use ht_word::{Letters, List, NoMemory, Word};
use std::alloc::Global;

/// Where one step leads from a word of a basis, or under one.
#[derive(Debug, Drop)]
pub enum Step {
    /// To no word.
    Splits,
    /// To the word of the basis at this place, from 0, with these letters behind it.
    Leads { to: usize, rest: Letters },
}

// The steps of the words of a basis, in their order.
pub(crate) type Steps = List<Step>;

// Where one step leads from the word, which is under the basis, the quasinormal one of the element: to
// a word under it, if to any. Two binary searches.
pub(crate) fn step_of(
    alloc: Global,
    a: &Element,
    basis: &Basis,
    word: &Word,
) -> Result<Step, NoMemory>
    requires basis { IsQuasinormal a.now.shape a.now.rows basis.now.words }
    requires word { IsWordOf a.now.shape word.now }
    requires under { IsUnderSome word.now basis.now.words }
    ensures { IfOk result (HasStep a.now.shape a.now.rows basis.now.words (pos 1) word.now) }
{
    a.keeps_limits();
    let Some(moved) = a.move_word(alloc, word)? else {
        return Ok(Step::Splits);
    };
    let Some(to) = basis.find(&moved) else {
        unreachable!()
    };
    let Some(letters) = moved.rest_after(basis.words().at(to)) else {
        unreachable!()
    };
    let rest = Letters::from_slice(alloc, letters)?;
    Ok(Step::Leads { to, rest })
}

// The steps of all words of the quasinormal basis. O(N log N) comparisons of words for N words and rows.
pub(crate) fn steps(alloc: Global, a: &Element, basis: &Basis) -> Result<Steps, NoMemory>
    requires shape { basis.now.shape ≡ a.now.shape }
    requires basis { IsQuasinormal a.now.shape a.now.rows basis.now.words }
    ensures { IfOk result (AreSteps a.now.shape a.now.rows basis.now.words (pos 1)) }
{
    let mut steps = Steps::new(alloc);
    for word in basis.words().as_slice() {
        steps.push(step_of(alloc, a, basis, word)?)?;
    }
    Ok(steps)
}
