//! Candidates for the values of conjugators at an attractor.
ghost use Rattle.std.specs.Prelude.{◌≡◌, ◌≢◌, ◌<◌, ◌+◌, ◌++◌, ℕ, List, [], All, Contains, length, map, IfOk, OnOk};
ghost use Rattle.ht_word.specs.declared.word.Word.{Word};
ghost use Rattle.ht_pair.specs.Atoms.{IsAtom, words_at};
ghost use Rattle.ht_pair.specs.Kinds.{IsAttractor};
ghost use Rattle.ht_local.specs.declared.candidates.Candidate.{Candidate};
ghost use Rattle.ht_local.specs.Candidates.{AreFound, AreTried, IsFront, known_of};
ghost use Rattle.ht_local.specs.KnownValues.{IsCandidate, IsHeld};

use crate::known::Known;
use crate::marks::mark_round;
use crate::turns::turns;
use ht_types::{Kind, Places, Typed};
use ht_word::{Letters, List, NoMemory};
use std::alloc::Global;

// A candidate: no steps from the word of the basis at the place, an attractor, and so many of its letters.
#[derive(Debug, Drop)]
pub(crate) struct Candidate {
    pub place: usize,
    pub front: usize,
}

// For one attractor of each round of attractors at the places of an atom that have the period and as
// many letters as `by`: each front of its letters that turns them into `by`, by its length alone. Each
// place is looked at once; each round with the period is walked once, by a look-up and a binary search in
// the places for a step, and the letters of one attractor of it are passed over. No words are made, and
// nothing of the size of the basis.
pub(crate) fn candidates(
    alloc: Global,
    g: &Typed,
    l: &Places,
    m: u64,
    by: &Letters,
) -> Result<List<Candidate>, NoMemory>
    requires { IsAtom g.now.element.shape g.now.element.rows g.now.quasi.basis.words l.now }
    ensures fronts { IfOk result (All (IsFront g.now)) }
    ensures each { IfOk result (All (λ (c : Candidate). IsCandidate g.now l.now m by.now (known_of g.now c))) }
    ensures held { IfOk result (All (λ (c : Candidate). IsHeld g.now (known_of g.now c))) }
    ensures all { IfOk result (λ found. (end : Word) → Contains (words_at g.now.quasi.basis.words l.now) end → AreFound g.now m by.now end found) }
{
    let mut marks = vec![in alloc; false; l.len()]?;
    let mut found = List::new(alloc);
    for index in 0..l.len() {
        add_at(alloc, g, l, index, m, by, &mut marks, &mut found)?;
    }
    Ok(found)
}

// Adds the candidates at the attractor at one of the places, unless its round is marked, and marks that.
fn add_at(
    alloc: Global,
    g: &Typed,
    l: &Places,
    index: usize,
    m: u64,
    by: &Letters,
    marks: &mut [bool],
    found: &mut List<Candidate>,
) -> Result<(), NoMemory>
    requires atom { IsAtom g.now.element.shape g.now.element.rows g.now.quasi.basis.words l.now }
    requires index { index < length l.now }
    requires tried { AreTried g.now l.now m by.now index marks.old found.old }
    ensures { OnOk result (AreTried g.now l.now m by.now (index + 1) marks.new found.new) }
{
    g.keeps_kinds();
    let place = *l.at(index);
    let Kind::Attractor {
        m: period,
        by: letters,
    } = g.kind(place)
    else {
        return Ok(());
    };
    if marks[index] || *period != m {
        return Ok(());
    }
    let places = turns(alloc, letters.as_slice(), by.as_slice())?;
    add_fronts(place, &places, found)?;
    mark_round(g, l, place, m, marks);
    Ok(())
}

// Adds the fronts of the letters of the attractor at a place, by their lengths.
fn add_fronts(place: usize, fronts: &[usize], found: &mut List<Candidate>) -> Result<(), NoMemory>
    ensures { OnOk result (found.new ≡ found.old ++ map (λ (front : ℕ). record { place = place; front = front }) fronts.now) }
{
    for front in fronts {
        found.push(Candidate {
            place,
            front: *front,
        })?;
    }
    Ok(())
}

// The value that a candidate is. Its word alone is made.
pub(crate) fn known_of(alloc: Global, g: &Typed, candidate: &Candidate) -> Result<Known, NoMemory>
    requires { IsFront g.now candidate.now }
    ensures { IfOk result (λ known. known ≡ known_of g.now candidate.now) }
{
    g.keeps_kinds();
    let Kind::Attractor { by, .. } = g.kind(candidate.place) else {
        unreachable!()
    };
    let end = g.quasi().basis.words().at(candidate.place);
    let word = end.joined(alloc, &by.as_slice()[..candidate.front])?;
    Ok(Known { word, power: 0 })
}
