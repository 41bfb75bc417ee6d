//! Atoms with their ends and the links inside them.
ghost use Rattle.std.specs.Prelude.{◌≡◌, ◌<◌, ◌⊎◌, ℕ, length, map, All, Contains, slice_index, IfOk, OnOk};
ghost use Rattle.ht_pair.specs.Atoms.{IsAtom};
ghost use Rattle.ht_types.specs.Links.{IsLink};
ghost use Rattle.ht_conj.specs.LinkedAtoms.{AreLinkedAtoms, AreOwners, HaveOwners, IsLinkAdded, IsPreparedAtom, ArePrepared, AreDealt, places_of};

use crate::ends::{Ends, ends_of};
use ht_atoms::atoms;
use ht_links::links;
use ht_types::{Atoms, Link, Links, Places, Typed};
use ht_word::{List, NoMemory};
use std::alloc::Global;

// An atom by its places, with its ends, and links that connect these.
#[derive(Debug, Drop)]
pub(crate) struct LinkedAtom {
    pub(crate) places: Places,
    pub(crate) ends: Ends,
    pub(crate) links: Links,
}

// Makes the index of an atom the owner of each of its places.
fn own(owners: &mut [usize], places: &Places, index: usize)
    requires { All (λ place. place < length owners.old) places.now }
    ensures many { length owners.new ≡ length owners.old }
    ensures own { All (λ place. slice_index owners.new place ≡ index) places.now }
    ensures other { (place : ℕ) → (slice_index owners.new place ≡ slice_index owners.old place) ⊎ (Contains places.now place × (slice_index owners.new place ≡ index)) }
{
    for place in places.as_slice() {
        owners[*place] = index;
    }
}

// For each place of an atom the index of that atom. One pass.
fn owners(alloc: Global, t: &Typed, atoms: &Atoms) -> Result<Vec<usize>, NoMemory>
    requires { All (IsAtom t.now.element.shape t.now.element.rows t.now.quasi.basis.words) atoms.now }
    ensures { IfOk result (λ owners. AreOwners atoms.now owners.items) }
{
    let mut owners = vec![in alloc; 0; t.quasi().basis.words().len()]?;
    for (index, places) in atoms.as_slice().iter().enumerate() {
        own(&mut owners, places, index);
    }
    Ok(owners)
}

// The atoms with their ends, as yet without links.
fn without_links(alloc: Global, t: &Typed, atoms: Atoms) -> Result<Vec<LinkedAtom>, NoMemory>
    requires { All (IsAtom t.now.element.shape t.now.element.rows t.now.quasi.basis.words) atoms }
    ensures { IfOk result (λ linked. ArePrepared t.now atoms linked.items) }
{
    let mut linked = Vec::new(alloc);
    for places in atoms.into_vec() {
        let ends = ends_of(alloc, t, &places)?;
        let links = Links::new(alloc);
        linked.push(LinkedAtom {
            places,
            ends,
            links,
        })?;
    }
    Ok(linked)
}

// Adds the link to the atom that its cone is under. A binary search.
fn add_link(
    t: &Typed,
    owners: &[usize],
    link: Link,
    atoms: &mut [LinkedAtom],
) -> Result<(), NoMemory>
    requires link { IsLink t.now link }
    requires owners { HaveOwners t.now (map places_of atoms.old) owners.now }
    ensures { OnOk result (IsLinkAdded t.now link atoms.old atoms.new) }
{
    let Some(place) = t.quasi().basis.find(&link.cone) else {
        unreachable!()
    };
    atoms[owners[place]].links.push(link)
}

// Adds each link to the atom that its cone is under.
fn deal(t: &Typed, owners: &[usize], links: Links, atoms: &mut [LinkedAtom]) -> Result<(), NoMemory>
    requires links { All (IsLink t.now) links }
    requires owners { HaveOwners t.now (map places_of atoms.old) owners.now }
    requires before { All (IsPreparedAtom t.now) atoms.old }
    ensures { OnOk result (AreDealt t.now links atoms.old atoms.new) }
{
    for link in links.into_vec() {
        add_link(t, owners, link, atoms)?;
    }
    Ok(())
}

// The atoms of the element with their ends, and with its links, each link at the atom that its cone is
// under. The links are made and moved once: a binary search for each.
pub(crate) fn linked_atoms(alloc: Global, t: &Typed) -> Result<List<LinkedAtom>, NoMemory>
    ensures { IfOk result (AreLinkedAtoms t.now) }
{
    t.keeps_kinds();
    let atoms = atoms(alloc, t)?;
    let owners = owners(alloc, t, &atoms)?;
    let mut linked = without_links(alloc, t, atoms)?;
    let links = links(alloc, t)?;
    deal(t, &owners, links, &mut linked)?;
    Ok(List::from_vec(linked))
}
