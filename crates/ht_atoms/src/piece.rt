//! The marked places of each label, in order of their first places, and the atoms.
ghost use Rattle.std.specs.Prelude.{◌≡◌, ◌+◌, ◌<◌, ◌∷◌, ◌++◌, [], length, IfOk, OnOk};
ghost use Rattle.ht_atoms.specs.AtomLists.{AreAtoms};
ghost use Rattle.ht_atoms.specs.Pieces.{HaveFirsts, ArePieces, ArePiecesBelow};

use crate::join::{infinite_marks, joins};
use crate::tree::labels;
use ht_types::{Atoms, Places, Typed};
use ht_word::NoMemory;
use std::alloc::Global;

// Adds a piece of one place.
fn begin(alloc: Global, pieces: &mut Vec<Places>, place: usize) -> Result<(), NoMemory>
    ensures { OnOk result (pieces.new.items ≡ pieces.old.items ++ (place ∷ []) ∷ []) }
{
    let mut piece = Places::new(alloc);
    piece.push(place)?;
    pieces.push(piece)?;
    Ok(())
}

// Adds a place, where it is marked, to the piece of its label, or begins that where the label is the
// place itself. Constant time.
fn add_place(
    alloc: Global,
    marks: &[bool],
    labels: &[usize],
    place: usize,
    slots: &mut [usize],
    pieces: &mut Vec<Places>,
) -> Result<(), NoMemory>
    requires place { place < length marks.now }
    requires many { length labels.now ≡ length marks.now }
    requires firsts { HaveFirsts marks.now labels.now }
    requires before { ArePiecesBelow marks.now labels.now place slots.old pieces.old.items }
    ensures { OnOk result (ArePiecesBelow marks.now labels.now (place + 1) slots.new pieces.new.items) }
{
    if !marks[place] {
        return Ok(());
    }
    let label = labels[place];
    if label == place {
        slots[place] = pieces.len();
        return begin(alloc, pieces, place);
    }
    pieces[slots[label]].push(place)
}

// The pieces. One pass.
fn pieces(alloc: Global, marks: &[bool], labels: &[usize]) -> Result<Atoms, NoMemory>
    requires many { length labels.now ≡ length marks.now }
    requires firsts { HaveFirsts marks.now labels.now }
    ensures { IfOk result (ArePieces marks.now labels.now) }
{
    let mut slots = vec![in alloc; 0; marks.len()]?;
    let mut pieces = Vec::new(alloc);
    for place in 0..marks.len() {
        add_place(alloc, marks, labels, place, &mut slots, &mut pieces)?;
    }
    Ok(Atoms::from_vec(pieces))
}

/// The atoms of the element: the finest pieces of the infinite part that it keeps, for each the
/// places of its words in ascending order, in order of their first places. This project's own.
/// O((M + N) log N) for N words of the basis and M rows of what one step carries under it: two binary
/// searches for each row, and steps through trees of places.
pub fn atoms(alloc: Global, t: &Typed) -> Result<Atoms, NoMemory>
    ensures { IfOk result (AreAtoms t.now.element.shape t.now.element.rows t.now.quasi.basis.words) }
{
    t.keeps_kinds();
    let marks = infinite_marks(alloc, t)?;
    let joins = joins(alloc, t)?;
    let labels = labels(alloc, marks.len(), joins.as_slice())?;
    pieces(alloc, &marks, &labels)
}
