//! Atoms of one element matched with conjugate atoms of another.
ghost use Rattle.std.specs.Prelude.{◌≡◌, ◌-◌, List, length, take, All, IfOk};
ghost use Rattle.ht_pair.specs.declared.row.Row.{Row};
ghost use Rattle.ht_cycles.specs.Matches.{IsMatch};
ghost use Rattle.ht_conj.specs.LinkedAtoms.{IsLinkedAtom};
ghost use Rattle.ht_conj.specs.Classes.{IsClass};
ghost use Rattle.ht_conj.specs.Matchings.{TellsIn, TellsCounterpart};
ghost use Rattle.ht_conj.specs.Stages.{IsStageOf, TellsStage, TellsWhole};

use crate::classes::{Class, classes_of};
use crate::ends::are_equal;
use crate::linked::{LinkedAtom, linked_atoms};
use ht_local::local;
use ht_pair::{Row, Rows};
use ht_types::{Sharing, Typed};
use ht_word::NoMemory;
use std::alloc::Global;
use std::mem;

// Takes the last atom, if there is one, out of a class. Constant time; takes no memory.
fn drop_last(alloc: Global, class: &mut Class)
    ensures { class.new ≡ take (length class.old - 1) class.old }
{
    let mut atoms = mem::replace(class, Class::new(alloc)).into_vec();
    atoms.pop();
    *class = Class::from_vec(atoms);
}

// Takes the last atom of a class out of it, if the atom is conjugate to that, with rows that conjugate;
// `None` only where the atom is conjugate to none of the class, as where the last has other ends.
fn take_from<S: Sharing>(
    alloc: Global,
    f: &Typed,
    atom: &LinkedAtom,
    g: &Typed,
    class: &mut Class,
    share: &S,
) -> Result<Option<Rows>, NoMemory>
    requires shape { g.now.element.shape ≡ f.now.element.shape }
    requires atom { IsLinkedAtom f.now atom.now }
    requires class { IsClass g.now class.old }
    requires share { S.typed share.now ≡ g.now }
    ensures { IfOk result (TellsIn f.now atom.now g.now class.old class.new) }
{
    f.keeps_kinds();
    g.keeps_kinds();
    let Some(last) = class.as_slice().last() else {
        return Ok(None);
    };
    if !are_equal(&atom.ends, &last.ends) {
        return Ok(None);
    }
    let Some(rows) = local(alloc, f, &atom.places, &atom.links, g, &last.places, share)? else {
        return Ok(None);
    };
    drop_last(alloc, class);
    Ok(Some(rows))
}

// Takes an atom that the atom is conjugate to out of its class, with rows that conjugate; `None` only
// where it is conjugate to none. One atom is tried of each class that has its ends.
fn take_counterpart<S: Sharing>(
    alloc: Global,
    f: &Typed,
    atom: &LinkedAtom,
    g: &Typed,
    classes: &mut [Class],
    share: &S,
) -> Result<Option<Rows>, NoMemory>
    requires shape { g.now.element.shape ≡ f.now.element.shape }
    requires atom { IsLinkedAtom f.now atom.now }
    requires classes { All (IsClass g.now) classes.old }
    requires share { S.typed share.now ≡ g.now }
    ensures { IfOk result (TellsCounterpart f.now atom.now g.now classes.old classes.new) }
{
    for index in 0..classes.len() {
        if let Some(rows) = take_from(alloc, f, atom, g, &mut classes[index], share)? {
            return Ok(Some(rows));
        }
    }
    Ok(None)
}

// Adds rows that conjugate on each of the atoms, and takes their counterparts out of the classes; false
// only where the elements aren't conjugate.
fn add_matches<S: Sharing>(
    alloc: Global,
    f: &Typed,
    atoms: &[LinkedAtom],
    g: &Typed,
    classes: &mut [Class],
    share: &S,
    rows: &mut Vec<Row>,
) -> Result<bool, NoMemory>
    requires shape { g.now.element.shape ≡ f.now.element.shape }
    requires atoms { All (IsLinkedAtom f.now) atoms.now }
    requires classes { All (IsClass g.now) classes.old }
    requires share { S.typed share.now ≡ g.now }
    ensures { IfOk result (λ yes. (cycles : List Row) → IsStageOf f.now g.now cycles atoms.now classes.old rows.old.items → TellsStage f.now g.now cycles classes.new rows.new.items yes) }
{
    f.keeps_kinds();
    g.keeps_kinds();
    for atom in atoms {
        let Some(more) = take_counterpart(alloc, f, atom, g, classes, share)? else {
            return Ok(false);
        };
        rows.append(&mut more.into_vec())?;
    }
    Ok(true)
}

// The rows for the cycles, with rows for all atoms behind them; `None` only where the elements aren't
// conjugate.
pub(crate) fn with_atoms<S: Sharing>(
    alloc: Global,
    f: &Typed,
    g: &Typed,
    share: &S,
    cycles: Rows,
) -> Result<Option<Rows>, NoMemory>
    requires shape { g.now.element.shape ≡ f.now.element.shape }
    requires share { S.typed share.now ≡ g.now }
    requires cycles { IsMatch f.now.element.shape f.now.element.rows f.now.quasi.basis.words g.now.element.rows g.now.quasi.basis.words cycles }
    ensures { IfOk result (TellsWhole f.now g.now cycles) }
{
    f.keeps_kinds();
    g.keeps_kinds();
    let first = linked_atoms(alloc, f)?;
    let second = linked_atoms(alloc, g)?;
    if first.len() != second.len() {
        return Ok(None);
    }
    let mut classes = classes_of(alloc, g, second, share)?;
    let mut rows = cycles.into_vec();
    if !add_matches(
        alloc,
        f,
        first.as_slice(),
        g,
        &mut classes,
        share,
        &mut rows,
    )? {
        return Ok(None);
    }
    Ok(Some(Rows::from_vec(rows)))
}
