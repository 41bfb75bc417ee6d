//! Exits: letters behind a word under the infinite part with which its walk ends.
ghost use Rattle.std.specs.Prelude.{◌≡◌, ◌≤◌, ◌<◌, ◌≢◌, length, ◌^◌, Some, slice_get, IfOk};
ghost use Rattle.ht_word.specs.Words.{◌·◌, child, IsWordOf};
ghost use Rattle.ht_types.specs.Flows.{IsUnderInfinite, LeadsAway, IsExit, IsContinuedWith};

use crate::direction::Direction;
use crate::kind::Kind;
use crate::typed::Typed;
use crate::walk::{Walk, holds_few, is_end, walk_of};
use ht_word::{Letters, NoMemory, Word};
use std::alloc::Global;

/// Letters, and the walk of a word with these letters behind it: after so many steps it ends, under
/// the word of the basis at this place, from 0, with the rest behind it.
#[derive(Debug, Drop)]
pub struct Exit {
    pub letters: Letters,
    pub steps: u128,
    pub to: usize,
    pub rest: Letters,
}

/// Letters behind a word under the infinite part such that the word with them is carried, step by
/// step under words of the basis, under an attractor (ahead) or a repeller (behind), and this walk.
/// Puts a letter behind the word where a step carries it to no word under the basis: at most
/// N(l + 2) steps for N words of the basis and l letters of the word, without those put behind it.
pub fn exit_of(
    alloc: Global,
    t: &Typed,
    direction: Direction,
    word: &Word,
) -> Result<Exit, NoMemory>
    requires word { IsWordOf t.now.element.shape word.now }
    requires infinite { IsUnderInfinite t.now.element.shape t.now.element.rows t.now.quasi.basis.words word.now }
    ensures { IfOk result (IsExit t.now.element.shape t.now.element.rows t.now.quasi.basis.words direction word.now) }
{
    t.keeps_kinds();
    holds_few(word);
    let mut letters = Letters::new(alloc);
    let mut way = walk_of(alloc, t, direction, word)?;
    'leaving: while !is_end(direction, t.kind(way.to)) {
        let letter = letter_away(direction, t.kind(way.to), way.rest.len());
        letters.push(letter)?;
        way = further(alloc, t, direction, way, letter)?;
    }
    let Walk { steps, to, rest } = way;
    Ok(Exit {
        letters,
        steps,
        to,
        rest,
    })
}

// The walk with the letter behind its word.
fn further(
    alloc: Global,
    t: &Typed,
    direction: Direction,
    way: Walk,
    letter: u8,
) -> Result<Walk, NoMemory>
    requires place { way.to < length t.now.quasi.basis.words }
    requires further { (x : Word) → slice_get t.now.quasi.basis.words way.to ≡ Some x → IsWordOf t.now.element.shape (child (x · way.rest) letter) × IsUnderInfinite t.now.element.shape t.now.element.rows t.now.quasi.basis.words (child (x · way.rest) letter) }
    requires few { way.steps < 2 ^ 121 }
    ensures { IfOk result (IsContinuedWith t.now.element.shape t.now.element.rows t.now.quasi.basis.words direction way letter) }
{
    let mut word = t
        .quasi()
        .basis
        .words()
        .at(way.to)
        .joined(alloc, way.rest.as_slice())?;
    word.push(letter)?;
    let more = walk_of(alloc, t, direction, &word)?;
    Ok(Walk {
        steps: way.steps + more.steps,
        to: more.to,
        rest: more.rest,
    })
}

// A letter that leads away from a word of the kind, put behind so many letters behind the word.
fn letter_away(direction: Direction, kind: &Kind, place: usize) -> u8
    ensures letter { (1 ≤ result) × (result ≤ 2) }
    ensures away { LeadsAway direction kind.now place result }
{
    match direction {
        Direction::Ahead => match kind {
            Kind::Repeller { by, .. } => other_letter(by, place),
            _ => 1,
        },
        Direction::Behind => match kind {
            Kind::Attractor { by, .. } => other_letter(by, place),
            _ => 1,
        },
    }
}

// A letter that doesn't stand at the place, from 0.
fn other_letter(letters: &Letters, place: usize) -> u8
    ensures letter { (1 ≤ result) × (result ≤ 2) }
    ensures other { slice_get letters.now place ≢ Some result }
{
    if place < letters.len() && *letters.at(place) == 1 {
        2
    } else {
        1
    }
}
