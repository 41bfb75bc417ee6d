//! Classes of conjugate atoms of one element.
ghost use Rattle.std.specs.Prelude.{◌≡◌, ◌++◌, All, IfOk, OnOk, IsTrue};
ghost use Rattle.ht_conj.specs.LinkedAtoms.{IsLinkedAtom};
ghost use Rattle.ht_conj.specs.Classes.{IsClass, AreInClass, TellsClass, AreClasses};
ghost use Rattle.ht_conj.specs.ClassChanges.{IsAddedTo};

use crate::ends::are_equal;
use crate::linked::LinkedAtom;
use ht_local::local;
use ht_types::{Sharing, Typed};
use ht_word::{List, NoMemory};
use std::alloc::Global;

// Atoms of one element of which any two are conjugate.
pub(crate) type Class = List<LinkedAtom>;

// Whether an atom is conjugate to the first one of a class, so to all of it. `local` is asked only where
// their ends are equal.
fn is_in_class<S: Sharing>(
    alloc: Global,
    t: &Typed,
    atom: &LinkedAtom,
    class: &Class,
    share: &S,
) -> Result<bool, NoMemory>
    requires atom { IsLinkedAtom t.now atom.now }
    requires class { IsClass t.now class.now }
    requires share { S.typed share.now ≡ t.now }
    ensures { IfOk result (λ yes. IsTrue yes → AreInClass t.now atom.now class.now) }
{
    t.keeps_kinds();
    let Some(first) = class.as_slice().first() else {
        return Ok(false);
    };
    if !are_equal(&atom.ends, &first.ends) {
        return Ok(false);
    }
    let found = local(
        alloc,
        t,
        &first.places,
        &first.links,
        t,
        &atom.places,
        share,
    )?;
    Ok(found.is_some())
}

// The index of the first class that the atom is in.
fn class_of<S: Sharing>(
    alloc: Global,
    t: &Typed,
    atom: &LinkedAtom,
    classes: &[Class],
    share: &S,
) -> Result<Option<usize>, NoMemory>
    requires atom { IsLinkedAtom t.now atom.now }
    requires classes { All (IsClass t.now) classes.now }
    requires share { S.typed share.now ≡ t.now }
    ensures { IfOk result (TellsClass t.now atom.now classes.now) }
{
    for (index, class) in classes.iter().enumerate() {
        if is_in_class(alloc, t, atom, class, share)? {
            return Ok(Some(index));
        }
    }
    Ok(None)
}

// Adds an atom to the first class that it is in, or makes a class of it.
fn add_atom<S: Sharing>(
    alloc: Global,
    t: &Typed,
    atom: LinkedAtom,
    classes: &mut Vec<Class>,
    share: &S,
) -> Result<(), NoMemory>
    requires atom { IsLinkedAtom t.now atom }
    requires classes { All (IsClass t.now) classes.old.items }
    requires share { S.typed share.now ≡ t.now }
    ensures { OnOk result (IsAddedTo t.now atom classes.old.items classes.new.items) }
{
    let Some(index) = class_of(alloc, t, &atom, classes.as_slice(), share)? else {
        let mut class = Class::new(alloc);
        class.push(atom)?;
        classes.push(class)?;
        return Ok(());
    };
    classes[index].push(atom)
}

// The classes of the atoms. Each atom is compared with one of each class that has its ends.
pub(crate) fn classes_of<S: Sharing>(
    alloc: Global,
    t: &Typed,
    atoms: List<LinkedAtom>,
    share: &S,
) -> Result<Vec<Class>, NoMemory>
    requires atoms { All (IsLinkedAtom t.now) atoms }
    requires share { S.typed share.now ≡ t.now }
    ensures { IfOk result (λ classes. AreClasses t.now atoms classes.items) }
{
    let mut classes = Vec::new(alloc);
    for atom in atoms.into_vec() {
        add_atom(alloc, t, atom, &mut classes, share)?;
    }
    Ok(classes)
}
