//! Whether steps lead a word to a word under the basis, through a pond if there is one on the way.
ghost use Rattle.std.specs.Prelude.{◌≡◌, ◌≤◌, ◌<◌, ◌^◌, ◌↔◌, pos, Some, slice_get, IsTrue, IfOk};
ghost use Rattle.ht_word.specs.declared.word.Word.{Word as WordValue};
ghost use Rattle.ht_word.specs.Words.{◌·◌, IsUnderSome, IsWordOf};
ghost use Rattle.ht_pair.specs.SemiNormal.{CarriesUnder};
ghost use Rattle.ht_share.specs.PondWalks.{ComesTo, IsFurther};

use crate::search::pond_of;
use ht_types::{Direction, Step, Typed, Walk, next_of, placed};
use ht_word::{NoMemory, Word};
use std::alloc::Global;

// Whether so many steps carry the word to a word under the basis: looks the steps up, and goes over a
// pond in one leap.
pub(crate) fn leads_under(alloc: Global, t: &Typed, steps: u128, u: &Word) -> Result<bool, NoMemory>
    requires word { IsWordOf t.now.element.shape u.now }
    requires under { IsUnderSome u.now t.now.quasi.basis.words }
    requires few { steps ≤ 2 ^ 122 }
    ensures { IfOk result (λ yes. IsTrue yes ↔ CarriesUnder t.now.element.shape t.now.element.rows (pos steps) u.now t.now.quasi.basis.words) }
{
    t.keeps_kinds();
    let mut walk = placed(alloc, t, u)?;
    'walking: while walk.steps < steps {
        let Some(next) = further(alloc, t, u, &walk, steps)? else {
            return Ok(false);
        };
        walk = next;
    }
    Ok(true)
}

// One step further, or to the end of the pond that begins here; `None` where the word leaves the basis
// and isn't back by so many steps.
fn further(
    alloc: Global,
    t: &Typed,
    u: &Word,
    walk: &Walk,
    steps: u128,
) -> Result<Option<Walk>, NoMemory>
    requires there { ComesTo t.now.element.shape t.now.element.rows t.now.quasi.basis.words u.now walk.now }
    requires more { walk.now.steps < steps }
    requires few { steps ≤ 2 ^ 122 }
    ensures { IfOk result (IsFurther t.now.element.shape t.now.element.rows t.now.quasi.basis.words u.now walk.now.steps steps) }
{
    t.keeps_kinds();
    if let Step::Leads { to, rest } = next_of(alloc, t, Direction::Ahead, walk)? {
        return Ok(Some(Walk {
            steps: walk.steps + 1,
            to,
            rest,
        }));
    }
    let word = word_at(alloc, t, walk)?;
    let Some(pond) = pond_of(alloc, t, &word, &[], &[])? else {
        return Ok(None);
    };
    if pond.steps > steps - walk.steps {
        return Ok(None);
    }
    let Walk { to, rest, .. } = placed(alloc, t, &pond.to)?;
    Ok(Some(Walk {
        steps: walk.steps + pond.steps,
        to,
        rest,
    }))
}

// The word where the walk has come.
fn word_at(alloc: Global, t: &Typed, walk: &Walk) -> Result<Word, NoMemory>
    requires { (x : WordValue) × (slice_get t.now.quasi.basis.words walk.now.to ≡ Some x) }
    ensures { IfOk result (λ word. (x : WordValue) → slice_get t.now.quasi.basis.words walk.now.to ≡ Some x → word ≡ x · walk.now.rest) }
{
    t.quasi()
        .basis
        .words()
        .at(walk.to)
        .joined(alloc, walk.rest.as_slice())
}
