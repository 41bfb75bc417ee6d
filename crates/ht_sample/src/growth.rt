//! Bases that grow by random expansions.
ghost use Rattle.std.specs.Prelude.{◌≡◌, ◌<◌, ◌≤◌, length, IfOk, OnOk, IfSome};
ghost use Rattle.std.specs.List.{position};
ghost use Rattle.ht_pair.specs.Bases.{roots};
ghost use Rattle.ht_sample.specs.Rooms.{has_room, room_from, IsWhole};
ghost use Rattle.ht_sample.specs.Growth.{IsGrownOnce, IsGrown};
ghost use Rattle.ht_sample.specs.Samples.{IsSampleBasis};

use crate::draws::Draws;
use ht_pair::Basis;
use ht_word::{NoMemory, Shape, Word};
use std::alloc::Global;

// The most letters of a word.
const MOST_LETTERS: usize = 64;

// How often a word gives way to its children.
const EXPANSIONS: usize = 3_999;

// A basis of 4,000 words that grew from the root.
pub(crate) fn grown(alloc: Global, shape: Shape, draws: &mut Draws) -> Result<Basis, NoMemory>
    requires letters { shape.n ≡ 2 }
    requires roots { shape.r ≡ 1 }
    ensures shape { IfOk result (λ basis. basis.shape ≡ shape) }
    ensures grown { IfOk result (λ basis. IsGrown shape 3999 draws.old.state (roots shape) draws.new.state basis.words) }
    ensures basis { IfOk result (λ basis. IsSampleBasis shape basis.words) }
{
    let mut basis = Basis::roots(alloc, shape)?;
    for _ in 0..EXPANSIONS {
        grow(alloc, draws, &mut basis)?;
    }
    Ok(basis)
}

// One expansion at a place that is drawn.
fn grow(alloc: Global, draws: &mut Draws, basis: &mut Basis) -> Result<(), NoMemory>
    requires whole { IsWhole basis.old.words }
    requires some { 0 < length basis.old.words }
    requires few { length basis.old.words ≤ 3999 }
    ensures shape { OnOk result (basis.new.shape ≡ basis.old.shape) }
    ensures grown { OnOk result (IsGrownOnce basis.old.shape draws.old.state basis.old.words draws.new.state basis.new.words) }
{
    let place = draws.draw(basis.words().len());
    let Some(place) = room_at(basis.words().as_slice(), place) else {
        unreachable!()
    };
    basis.expand(alloc, place)
}

// The first place at the given one or behind it, going round, whose word has room for a letter.
fn room_at(words: &[Word], from: usize) -> Option<usize>
    requires { from ≤ length words.now }
    ensures room { result ≡ room_from words.now from }
    ensures within { IfSome result (λ place. place < length words.now) }
{
    match first_room(&words[from..]) {
        Some(behind) => Some(from + behind),
        None => first_room(&words[..from]),
    }
}

// The first place whose word has room for a letter.
fn first_room(words: &[Word]) -> Option<usize>
    ensures { result ≡ position has_room words.now }
{
    words
        .iter()
        .position(|word| word.letters.len() < MOST_LETTERS)
}
