//! Walks of a given number of steps, with letters put behind the word where a step would split it.
ghost use Rattle.std.specs.Prelude.{◌≡◌, ◌<◌, ◌^◌, Some, length, nat_abs, slice_get, IfOk};
ghost use Rattle.ht_word.specs.declared.word.Word.{Word};
ghost use Rattle.ht_word.specs.Words.{◌·◌, IsUnderSome, IsWordOf};
ghost use Rattle.ht_types.specs.Flows.{power_in};
ghost use Rattle.ht_local.specs.Crossings.{IsLedBy, IsLedOn};

use ht_types::{Direction, Step, Typed, Walk, next_of, placed};
use ht_word::{Letters, NoMemory, Word};
use std::alloc::Global;

// Letters behind a word, and where the steps of the word with them have come.
#[derive(Debug, Drop)]
pub(crate) struct Led {
    pub(crate) letters: Letters,
    pub(crate) walk: Walk,
}

// The word led by the power. |power| steps, each a look-up or two binary searches (`next_of`), and one more
// for each letter put behind it.
pub(crate) fn led_by(alloc: Global, t: &Typed, power: i128, word: &Word) -> Result<Led, NoMemory>
    requires word { IsWordOf t.now.element.shape word.now }
    requires under { IsUnderSome word.now t.now.quasi.basis.words }
    requires few { nat_abs power < 2 ^ 126 }
    ensures { IfOk result (IsLedBy t.now power word.now) }
{
    if power < 0 {
        walked(alloc, t, Direction::Behind, power.unsigned_abs(), word)
    } else {
        walked(alloc, t, Direction::Ahead, power.unsigned_abs(), word)
    }
}

// The word led by so many steps in the direction.
fn walked(
    alloc: Global,
    t: &Typed,
    direction: Direction,
    steps: u128,
    word: &Word,
) -> Result<Led, NoMemory>
    requires word { IsWordOf t.now.element.shape word.now }
    requires under { IsUnderSome word.now t.now.quasi.basis.words }
    requires few { steps < 2 ^ 126 }
    ensures { IfOk result (IsLedBy t.now (power_in direction steps) word.now) }
{
    t.keeps_kinds();
    let mut way = Led {
        letters: Letters::new(alloc),
        walk: placed(alloc, t, word)?,
    };
    'walking: while way.walk.steps < steps {
        way = led_on(alloc, t, direction, way)?;
    }
    Ok(way)
}

// One step more.
fn led_on(alloc: Global, t: &Typed, direction: Direction, way: Led) -> Result<Led, NoMemory>
    requires place { way.walk.to < length t.now.quasi.basis.words }
    requires word { (x : Word) → slice_get t.now.quasi.basis.words way.walk.to ≡ Some x → IsWordOf t.now.element.shape (x · way.walk.rest) }
    requires few { way.walk.steps < 2 ^ 126 }
    ensures { IfOk result (IsLedOn t.now direction way) }
{
    t.keeps_kinds();
    let Led {
        mut letters,
        mut walk,
    } = way;
    'splitting: loop {
        if let Step::Leads { to, rest } = next_of(alloc, t, direction, &walk)? {
            let walk = Walk {
                steps: walk.steps + 1,
                to,
                rest,
            };
            return Ok(Led { letters, walk });
        }
        letters.push(1)?;
        walk.rest.push(1)?;
    }
}
