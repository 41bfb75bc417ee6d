//! The round that steps lead from an attractor: from the word of the basis above each word on the way
//! to the next, and so back under the attractor.
ghost use Rattle.std.specs.Prelude.{◌≡◌, ◌<◌, ◌+◌, ◌^◌, ℕ, List, Some, length, slice_get, pos, IfOk};
ghost use Rattle.ht_word.specs.declared.word.Word.{Word};
ghost use Rattle.ht_word.specs.Words.{◌·◌};
ghost use Rattle.ht_pair.specs.SemiNormal.{CarriesUnder};
ghost use Rattle.ht_pair.specs.Steps.{Carries};
ghost use Rattle.ht_flow.specs.Rounds.{IsAttractorAt, IsNextStage, IsHead, IsSooner};

use ht_types::{Direction, Step, Typed, Walk, next_of};
use ht_word::{Letters, NoMemory};
use std::alloc::Global;

// Where the round has come: after so many steps, to the word of the basis at this place, from 0, with
// so many letters behind it.
#[derive(Clone, Copy, Debug)]
pub(crate) struct Stage {
    pub(crate) steps: u64,
    pub(crate) at: usize,
    pub(crate) letters: usize,
}

// The stage with the least word of the basis on the round of an attractor: m steps.
pub(crate) fn head_of(
    alloc: Global,
    t: &Typed,
    at: usize,
    m: u64,
    by: &Letters,
) -> Result<Stage, NoMemory>
    requires { IsAttractorAt t.now.element.shape t.now.element.rows t.now.quasi.basis.words at m by.now }
    ensures { IfOk result (λ head. (x : Word) → slice_get t.now.quasi.basis.words at ≡ Some x → IsHead t.now.element.shape t.now.element.rows t.now.quasi.basis.words x m head) }
{
    t.keeps_kinds();
    // no word on the round has more letters behind it than these
    let _ = by.len();
    let mut stage = Stage {
        steps: 0,
        at,
        letters: 0,
    };
    let mut head = stage;
    for _step in 1..m {
        stage = next_stage(alloc, t, stage)?;
        head = sooner(head, stage);
    }
    Ok(head)
}

// One step on: a look-up.
fn next_stage(alloc: Global, t: &Typed, stage: Stage) -> Result<Stage, NoMemory>
    requires place { stage.at < length t.now.quasi.basis.words }
    requires ahead { (x : Word) → slice_get t.now.quasi.basis.words stage.at ≡ Some x → CarriesUnder t.now.element.shape t.now.element.rows (pos 1) x t.now.quasi.basis.words }
    requires steps { stage.steps + 1 < 2 ^ 64 }
    requires letters { (x y : Word) (place : ℕ) (rest : List ℕ) → slice_get t.now.quasi.basis.words stage.at ≡ Some x → slice_get t.now.quasi.basis.words place ≡ Some y → Carries t.now.element.shape t.now.element.rows (pos 1) x (y · rest) → stage.letters + length rest < 2 ^ 64 }
    ensures { IfOk result (λ next. (x : Word) → slice_get t.now.quasi.basis.words stage.at ≡ Some x → IsNextStage t.now.element.shape t.now.element.rows t.now.quasi.basis.words x stage next) }
{
    let top = Walk {
        steps: 0,
        to: stage.at,
        rest: Letters::new(alloc),
    };
    let Step::Leads { to, rest } = next_of(alloc, t, Direction::Ahead, &top)? else {
        unreachable!()
    };
    Ok(Stage {
        steps: stage.steps + 1,
        at: to,
        letters: stage.letters + rest.len(),
    })
}

// Of two stages the one at the earlier place.
fn sooner(first: Stage, second: Stage) -> Stage
    ensures { IsSooner first second result }
{
    if second.at < first.at { second } else { first }
}
