//! Where a word under the infinite part flows: to its address, or to where its way ends.
ghost use Rattle.std.specs.Prelude.{◌≡◌, ◌<◌, ◌≤◌, ◌*◌, ◌^◌, ◌+ℤ◌, ◌-ℤ◌, pos, nat_abs, Some, length, slice_get, IfOk};
ghost use Rattle.ht_word.specs.declared.word.Word.{Word};
ghost use Rattle.ht_word.specs.Words.{◌·◌, IsWordOf};
ghost use Rattle.ht_types.specs.Flows.{IsUnderInfinite, IsWalk};
ghost use Rattle.ht_types.specs.declared.direction.Direction.{Direction};
ghost use Rattle.ht_flow.specs.Flowing.{IsFlowed};
ghost use Rattle.ht_flow.specs.declared.address.Flowed.{Flowed};
ghost use Rattle.ht_flow.specs.Rounds.{IsAttractorAt};

use crate::round::head_of;
use crate::strip::{last_letters, stripped};
use ht_types::{Direction, Kind, Typed, Walk, walk_of};
use ht_word::{Letters, NoMemory, Word};
use std::alloc::Global;

/// Where a word under the infinite part flows.
#[derive(Debug, Drop)]
pub enum Flowed {
    /// The word's address: the power by so many steps carries it to the attractor at this place of the
    /// basis, from 0, with the rest behind it. The attractor is the least of those that belong together,
    /// and the rest doesn't begin with its letters.
    Address {
        at: usize,
        rest: Letters,
        steps: i128,
    },
    /// So many steps, from 0 on, carry the word to this one, under words of the basis all the way and
    /// under no attractor. The next step carries it to no word under the basis.
    Stuck {
        word: Word,
        steps: i128,
    },
}

/// Where a word under the infinite part flows (this project's own): to its address exactly where
/// some power from 0 on carries it under an attractor, and all powers from 0 to that one carry it
/// under the basis. The steps are fewer than 2^121 in absolute value. At most N(l + 1) steps for N words
/// of the basis and l letters, and then one round of the attractor, at most N steps, each a look-up or two
/// binary searches, and one pass over the letters.
pub fn flow(alloc: Global, t: &Typed, word: &Word) -> Result<Flowed, NoMemory>
    requires word { IsWordOf t.now.element.shape word.now }
    requires infinite { IsUnderInfinite t.now.element.shape t.now.element.rows t.now.quasi.basis.words word.now }
    ensures { IfOk result (IsFlowed t.now.element.shape t.now.element.rows t.now.quasi.basis.words word.now) }
{
    t.keeps_kinds();
    let _ = word.letters.len();
    let way = walk_of(alloc, t, Direction::Ahead, word)?;
    match t.kind(way.to) {
        Kind::Attractor { m, by } => address_of(alloc, t, &way, *m, by),
        _ => stuck_at(alloc, t, &way),
    }
}

// The address of what the walk leads under the attractor.
fn address_of(
    alloc: Global,
    t: &Typed,
    way: &Walk,
    m: u64,
    by: &Letters,
) -> Result<Flowed, NoMemory>
    requires attractor { IsAttractorAt t.now.element.shape t.now.element.rows t.now.quasi.basis.words way.now.to m by.now }
    requires few { way.now.steps < 2 ^ 86 }
    ensures { IfOk result (λ flowed. (u x : Word) → IsWalk t.now.element.shape t.now.element.rows t.now.quasi.basis.words Direction.Ahead u x way.now → IsFlowed t.now.element.shape t.now.element.rows t.now.quasi.basis.words u flowed) }
{
    t.keeps_kinds();
    let head = head_of(alloc, t, way.to, m, by)?;
    let letters = last_letters(alloc, by, head.letters, &way.rest)?;
    let Kind::Attractor { m, by } = t.kind(head.at) else {
        unreachable!()
    };
    let (times, rest) = stripped(letters.as_slice(), by.as_slice());
    Ok(Flowed::Address {
        at: head.at,
        rest: Letters::from_slice(alloc, rest)?,
        steps: steps_left(way.steps, head.steps, times, *m),
    })
}

// The steps of the walk and the round, less those of the rounds that are stripped.
fn steps_left(walked: u128, round: u64, times: usize, m: u64) -> i128
    requires walked { walked < 2 ^ 86 }
    requires period { m ≤ 2 ^ 20 }
    ensures sum { result ≡ pos walked +ℤ pos round -ℤ pos (times * m) }
    ensures few { nat_abs result < 2 ^ 121 }
{
    (walked + round as u128) as i128 - (times as u128 * m as u128) as i128
}

// What the walk leads to, where no step leads on.
fn stuck_at(alloc: Global, t: &Typed, way: &Walk) -> Result<Flowed, NoMemory>
    requires place { way.now.to < length t.now.quasi.basis.words }
    requires few { way.now.steps < 2 ^ 86 }
    ensures { IfOk result (λ flowed. (x : Word) → slice_get t.now.quasi.basis.words way.now.to ≡ Some x → flowed ≡ Flowed.Stuck (x · way.now.rest) (pos way.now.steps)) }
{
    let word = t
        .quasi()
        .basis
        .words()
        .at(way.to)
        .joined(alloc, way.rest.as_slice())?;
    Ok(Flowed::Stuck {
        word,
        steps: way.steps as i128,
    })
}
