//! Words under the periodic part that share an orbit.
ghost use Rattle.std.specs.Prelude.{IfOk};
ghost use Rattle.ht_word.specs.Words.{IsWordOf};
ghost use Rattle.ht_types.specs.CycleWords.{IsUnderCycle};
ghost use Rattle.ht_types.specs.Shares.{IsShare};

use ht_types::Typed;
use ht_word::{NoMemory, Word};
use std::alloc::Global;

// Goes round with the first word, which is under a cycle word that m steps lead back to, until it is the
// second: at most m steps, each of a binary search and a copy of the word.
pub(crate) fn share_periodic(
    alloc: Global,
    t: &Typed,
    u: &Word,
    v: &Word,
    m: u64,
) -> Result<Option<i128>, NoMemory>
    requires word { IsWordOf t.now.element.shape u.now }
    requires cycle { IsUnderCycle t.now.element.shape t.now.element.rows t.now.quasi.basis.words u.now m }
    ensures { IfOk result (IsShare t.now.element.shape t.now.element.rows t.now.quasi.basis.words u.now v.now) }
{
    t.keeps_kinds();
    let mut word = u.copy(alloc)?;
    for steps in 0..m {
        if word.same(v) {
            return Ok(Some(steps as i128));
        }
        let Some(next) = t.element().move_word(alloc, &word)? else {
            unreachable!()
        };
        word = next;
    }
    Ok(None)
}
