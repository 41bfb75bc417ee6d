//! Walks: where the words under the infinite part are carried, step by step, under the words of the
//! basis.
ghost use Rattle.std.specs.Prelude.{◌≡◌, ◌<◌, ◌↔◌, ◌^◌, Some, length, slice_get, IsTrue, IfOk};
ghost use Rattle.ht_word.specs.Words.{◌·◌, IsUnderSome, IsWordOf};
ghost use Rattle.ht_types.specs.Flows.{power_in, IsUnderInfinite, IsWholeWalk, IsEndKind, IsPlaced};
ghost use Rattle.ht_types.specs.WordSteps.{HasStep};

use crate::direction::Direction;
use crate::kind::Kind;
use crate::step::{Step, step_of};
use crate::typed::Typed;
use ht_word::{Letters, NoMemory, Word};
use std::alloc::Global;

/// Where a walk has come: after so many steps, to the word of the basis at this place, from 0, with
/// these letters behind it.
#[derive(Debug, Drop)]
pub struct Walk {
    pub steps: u128,
    pub to: usize,
    pub rest: Letters,
}

/// The walk from a word under the infinite part, until it is under an attractor (ahead) or a
/// repeller (behind), or the next step carries it to no word under the basis. At most
/// N(l + 1) steps (`next_of`) for N words of the basis and l letters of the word.
pub fn walk_of(
    alloc: Global,
    t: &Typed,
    direction: Direction,
    word: &Word,
) -> Result<Walk, NoMemory>
    requires word { IsWordOf t.now.element.shape word.now }
    requires infinite { IsUnderInfinite t.now.element.shape t.now.element.rows t.now.quasi.basis.words word.now }
    ensures { IfOk result (IsWholeWalk t.now.element.shape t.now.element.rows t.now.quasi.basis.words direction word.now) }
{
    holds_few(word);
    let mut walk = placed(alloc, t, word)?;
    'walking: while !is_end(direction, t.kind(walk.to)) {
        let Step::Leads { to, rest } = next_of(alloc, t, direction, &walk)? else {
            return Ok(walk);
        };
        walk = Walk {
            steps: walk.steps + 1,
            to,
            rest,
        };
    }
    Ok(walk)
}

// No word in memory has 2^64 letters. Does nothing.
pub(crate) fn holds_few(word: &Word)
    ensures { length word.now.letters < 2 ^ 64 }
{
    let _ = word.letters.len();
}

/// Where one step leads from where the walk has come: a look-up, unless one step carries the word of
/// the basis there to no word under it; else two binary searches. Copies the letters.
pub fn next_of(
    alloc: Global,
    t: &Typed,
    direction: Direction,
    walk: &Walk,
) -> Result<Step, NoMemory>
    requires place { walk.now.to < length t.now.quasi.basis.words }
    requires word { (x : Word) → slice_get t.now.quasi.basis.words walk.now.to ≡ Some x → IsWordOf t.now.element.shape (x · walk.now.rest) }
    ensures { IfOk result (λ step. (x : Word) → slice_get t.now.quasi.basis.words walk.now.to ≡ Some x → HasStep t.now.element.shape t.now.element.rows t.now.quasi.basis.words (power_in direction 1) (x · walk.now.rest) step) }
{
    if let Step::Leads { to, rest } = t.step_in(direction, walk.to) {
        let mut letters = Letters::from_slice(alloc, rest.as_slice())?;
        letters.extend(walk.rest.as_slice())?;
        return Ok(Step::Leads {
            to: *to,
            rest: letters,
        });
    }
    let basis = &t.quasi().basis;
    let word = basis
        .words()
        .at(walk.to)
        .joined(alloc, walk.rest.as_slice())?;
    step_of(alloc, t.mover(direction), basis, &word)
}

/// The walk of no steps. A binary search.
pub fn placed(alloc: Global, t: &Typed, word: &Word) -> Result<Walk, NoMemory>
    requires { IsUnderSome word.now t.now.quasi.basis.words }
    ensures { IfOk result (IsPlaced t.now.quasi.basis.words word.now) }
{
    let basis = &t.quasi().basis;
    let Some(to) = basis.find(word) else {
        unreachable!()
    };
    let Some(letters) = word.rest_after(basis.words().at(to)) else {
        unreachable!()
    };
    let rest = Letters::from_slice(alloc, letters)?;
    Ok(Walk { steps: 0, to, rest })
}

// Whether a walk in the direction ends under a word of the kind.
pub(crate) fn is_end(direction: Direction, kind: &Kind) -> bool
    ensures { IsTrue result ↔ IsEndKind direction kind.now }
{
    match direction {
        Direction::Ahead => is_attractor(kind),
        Direction::Behind => is_repeller(kind),
    }
}

fn is_attractor(kind: &Kind) -> bool
    ensures { IsTrue result ↔ IsEndKind Direction.Ahead kind.now }
{
    match kind {
        Kind::Attractor { .. } => true,
        _ => false,
    }
}

fn is_repeller(kind: &Kind) -> bool
    ensures { IsTrue result ↔ IsEndKind Direction.Behind kind.now }
{
    match kind {
        Kind::Repeller { .. } => true,
        _ => false,
    }
}
