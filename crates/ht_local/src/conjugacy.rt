//! Conjugacy on one atom.
ghost use Rattle.std.specs.Prelude.{◌≡◌, ◌<◌, ℕ, pos, All, Contains, Some, length, slice_get, IfOk};
ghost use Rattle.ht_word.specs.declared.word.Word.{Word};
ghost use Rattle.ht_word.specs.Words.{IsUnderSome};
ghost use Rattle.ht_pair.specs.Atoms.{IsAtom, words_at};
ghost use Rattle.ht_pair.specs.NormalConjugators.{IsLeastAttractor};
ghost use Rattle.ht_types.specs.Links.{IsLink, ConnectEnds, IsEndAt};
ghost use Rattle.ht_local.specs.Candidates.{IsWordAt};
ghost use Rattle.ht_local.specs.KnownValues.{IsHeld};
ghost use Rattle.ht_local.specs.LocalAnswers.{TellsLocal};
ghost use Rattle.ht_local.specs.LocalTrials.{TellsWith};

use crate::candidates::{candidates, known_of};
use crate::known::Known;
use crate::propagation::known_ends;
use crate::rows::rows_of;
use ht_pair::Rows;
use ht_types::{Kind, Links, Places, Sharing, Typed};
use ht_word::NoMemory;
use std::alloc::Global;

/// Rows that conjugate f on an atom into g on an atom: k are the places of the one in the basis of f, l
/// of the other in that of g. They carry the least attractor of the atom to an attractor of the other
/// and a proper front of its letters. `None` exactly where no rows of any number conjugate. The links are
/// those of f, or the ones whose cones are under k alone. Conjugators with values at all ends of an atom
/// are this project's own.
///
/// Tries at most as many first values as g has rounds of attractors at l, times the letters of one: each by
/// one walk, one exit and one question of `share` for each further end of k, and then by the value lists of
/// the words of k: one power of g for each round of ends, and O(N log (N + M)) comparisons of words for N
/// entries of all lists and M rows of g, whatever the size of the bases. The word of one first value is made
/// at a time; the others take two numbers each. Where no first value is to be tried, O(k + l log l) for k
/// and l places, and one pass over the letters of an attractor for each round.
pub fn local<S: Sharing>(
    alloc: Global,
    f: &Typed,
    k: &Places,
    links: &Links,
    g: &Typed,
    l: &Places,
    share: &S,
) -> Result<Option<Rows>, NoMemory>
    requires shape { g.now.element.shape ≡ f.now.element.shape }
    requires first { IsAtom f.now.element.shape f.now.element.rows f.now.quasi.basis.words k.now }
    requires second { IsAtom g.now.element.shape g.now.element.rows g.now.quasi.basis.words l.now }
    requires links { All (IsLink f.now) links.now }
    requires connected { ConnectEnds f.now k.now links.now }
    requires share { S.typed share.now ≡ g.now }
    ensures { IfOk result (TellsLocal f.now k.now g.now l.now) }
{
    f.keeps_kinds();
    g.keeps_kinds();
    let start = first_attractor(f, k);
    let Kind::Attractor { m, by } = f.kind(*k.at(start)) else {
        unreachable!()
    };
    let firsts = candidates(alloc, g, l, *m, by)?;
    for index in 0..firsts.len() {
        let first = known_of(alloc, g, firsts.at(index))?;
        if let Some(rows) = with_first(alloc, f, k, links, g, l, share, start, first)? {
            return Ok(Some(rows));
        }
    }
    Ok(None)
}

// Rows that conjugate, where the first value stands at the place at the start; `None` only where no
// conjugator has it there.
fn with_first<S: Sharing>(
    alloc: Global,
    f: &Typed,
    k: &Places,
    links: &Links,
    g: &Typed,
    l: &Places,
    share: &S,
    start: usize,
    first: Known,
) -> Result<Option<Rows>, NoMemory>
    requires shape { g.now.element.shape ≡ f.now.element.shape }
    requires first { IsAtom f.now.element.shape f.now.element.rows f.now.quasi.basis.words k.now }
    requires second { IsAtom g.now.element.shape g.now.element.rows g.now.quasi.basis.words l.now }
    requires links { All (IsLink f.now) links.now }
    requires connected { ConnectEnds f.now k.now links.now }
    requires share { S.typed share.now ≡ g.now }
    requires start { (place : ℕ) × (slice_get k.now start ≡ Some place) × IsEndAt f.now k.now place }
    requires held { IsHeld g.now first }
    requires inside { (first.power ≡ pos 0) × IsUnderSome first.word (words_at g.now.quasi.basis.words l.now) }
    ensures { IfOk result (λ found. (x : Word) → IsWordAt f.now k.now start x → TellsWith f.now k.now g.now l.now x first found) }
{
    let Some(known) = known_ends(alloc, f, k, links, g, share, start, first)? else {
        return Ok(None);
    };
    rows_of(alloc, f, k, g, l, known.as_slice(), start)
}

// The index of the least attractor of an atom in its places.
fn first_attractor(f: &Typed, k: &Places) -> usize
    requires { IsAtom f.now.element.shape f.now.element.rows f.now.quasi.basis.words k.now }
    ensures within { result < length k.now }
    ensures least { (x : Word) → IsWordAt f.now k.now result x → IsLeastAttractor f.now.element.shape f.now.element.rows f.now.quasi.basis.words k.now x }
{
    f.keeps_kinds();
    for index in 0..k.len() {
        if let Kind::Attractor { .. } = f.kind(*k.at(index)) {
            return index;
        }
    }
    unreachable!()
}
