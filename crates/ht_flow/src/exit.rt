//! Letters behind a word with which it flows to an address.
ghost use Rattle.std.specs.Prelude.{List, ℕ, IfOk};
ghost use Rattle.ht_word.specs.Words.{◌·◌, IsLetters, IsWordOf};
ghost use Rattle.ht_types.specs.Flows.{IsUnderInfinite};
ghost use Rattle.ht_flow.specs.Flowing.{FlowsUnder};

use ht_types::{Direction, Exit, Typed, exit_of};
use ht_word::{Letters, NoMemory, Word};
use std::alloc::Global;

/// Letters behind a word under the infinite part such that the word with them, and each word under
/// that, flows to an address (this project's own). At most N(l + 2) steps for N words of the basis
/// and l letters, each a look-up or two binary searches.
pub fn exit_word(alloc: Global, t: &Typed, word: &Word) -> Result<Letters, NoMemory>
    requires word { IsWordOf t.now.element.shape word.now }
    requires infinite { IsUnderInfinite t.now.element.shape t.now.element.rows t.now.quasi.basis.words word.now }
    ensures letters { IfOk result (IsLetters t.now.element.shape) }
    ensures flows { IfOk result (λ letters. (z : List ℕ) → IsLetters t.now.element.shape z → FlowsUnder t.now.element.shape t.now.element.rows t.now.quasi.basis.words ((word.now · letters) · z)) }
{
    t.keeps_kinds();
    let Exit {
        letters,
        steps: _,
        to: _,
        rest: _,
    } = exit_of(alloc, t, Direction::Ahead, word)?;
    Ok(letters)
}
