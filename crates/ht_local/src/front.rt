//! Fronts of letters by which they are turned into others.
ghost use Rattle.std.specs.Prelude.{◌≡◌, ◌+◌, ◌<◌, ◌++◌, List, ℕ, Some, IfOk};
ghost use Rattle.ht_local.specs.Crossings.{AreRoundsApart, IsFoundTurn, IsFoundFront, letters_of};

use ht_types::Kind;
use ht_word::{Letters, NoMemory};
use std::alloc::Global;

// The front of the letters of an attractor or a repeller by which they are turned into those of another one
// of the same kind and period; the number of its letters is told but for a multiple of that of all of them: it
// is i less j. One pass over the letters.
pub(crate) fn turned_front(
    alloc: Global,
    kind: &Kind,
    other: &Kind,
    i: u128,
    j: u128,
) -> Result<Option<Letters>, NoMemory>
    ensures front { IfOk result (λ found. (front : List ℕ) → found ≡ Some front → (back : List ℕ) × (letters_of kind.now ≡ front ++ back)) }
    ensures found { IfOk result (IsFoundFront kind.now other.now i j) }
{
    match kind {
        Kind::Attractor { m, by } => match other {
            Kind::Attractor { m: k, by: of } if *m == *k => front_of(alloc, by, of, i, j),
            _ => Ok(None),
        },
        Kind::Repeller { m, by } => match other {
            Kind::Repeller { m: k, by: of } if *m == *k => front_of(alloc, by, of, i, j),
            _ => Ok(None),
        },
        _ => Ok(None),
    }
}

// The front by which the letters are turned into the others.
fn front_of(
    alloc: Global,
    letters: &Letters,
    others: &Letters,
    i: u128,
    j: u128,
) -> Result<Option<Letters>, NoMemory>
    ensures front { IfOk result (λ found. (front : List ℕ) → found ≡ Some front → (back : List ℕ) × (letters.now ≡ front ++ back)) }
    ensures found { IfOk result (IsFoundTurn letters.now others.now i j) }
{
    if letters.len() == 0 || others.len() != letters.len() {
        return Ok(None);
    }
    let (front, back) = letters.as_slice().split_at(difference(i, j, letters.len()));
    let (first, second) = others.as_slice().split_at(back.len());
    if first != back || second != front {
        return Ok(None);
    }
    Ok(Some(Letters::from_slice(alloc, front)?))
}

// i less j, but for a multiple of the count.
fn difference(i: u128, j: u128, count: usize) -> usize
    requires { 0 < count }
    ensures less { result < count }
    ensures apart { (s : ℕ) → s < count → AreRoundsApart count i (s + j) → result ≡ s }
{
    let count = count as u128;
    ((i % count + count - j % count) % count) as usize
}
