//! Links inside an atom, with the places of their ends.
ghost use Rattle.std.specs.Prelude.{◌≡◌, ◌<◌, ◌↔◌, All, Contains, IfOk, Some, length, slice_get, AllPairs, IsTrue};
ghost use Rattle.ht_word.specs.Words.{IsUnderSome};
ghost use Rattle.ht_pair.specs.Atoms.{IsAtom, words_at};
ghost use Rattle.ht_types.specs.Links.{IsLink};
ghost use Rattle.ht_local.specs.Propagations.{AreCrossings};

use crate::places::index_of;
use ht_types::{Link, Links, Places, Typed};
use ht_word::{List, NoMemory};
use std::alloc::Global;

// A link by its place, and the places among those of an atom at which its ends stand.
#[derive(Clone, Copy, Debug)]
pub(crate) struct Crossing {
    pub(crate) link: usize,
    pub(crate) ahead: usize,
    pub(crate) behind: usize,
}

// The crossings of the links inside the atom. Four binary searches for each link.
pub(crate) fn crossings(
    alloc: Global,
    f: &Typed,
    k: &Places,
    links: &Links,
) -> Result<List<Crossing>, NoMemory>
    requires atom { IsAtom f.now.element.shape f.now.element.rows f.now.quasi.basis.words k.now }
    requires links { All (IsLink f.now) links.now }
    ensures { IfOk result (AreCrossings f.now k.now links.now) }
{
    f.keeps_kinds();
    let mut found = List::new(alloc);
    'links: for (place, link) in links.as_slice().iter().enumerate() {
        if is_inside(f, k, link) {
            found.push(with_ends(k, place, link))?;
        }
    }
    Ok(found)
}

// Whether the link is inside the atom.
fn is_inside(f: &Typed, k: &Places, link: &Link) -> bool
    requires atom { IsAtom f.now.element.shape f.now.element.rows f.now.quasi.basis.words k.now }
    requires link { IsLink f.now link.now }
    ensures { IsTrue result ↔ IsUnderSome link.now.cone (words_at f.now.quasi.basis.words k.now) }
{
    let Some(place) = f.quasi().basis.find(&link.cone) else {
        return false;
    };
    index_of(k, place).is_some()
}

// The crossing of a link inside the atom.
fn with_ends(k: &Places, place: usize, link: &Link) -> Crossing
    requires ascending { AllPairs (λ i j. i < j) k.now }
    requires ahead { Contains k.now link.now.ahead.to }
    requires behind { Contains k.now link.now.behind.to }
    ensures link { result.link ≡ place }
    ensures ahead { slice_get k.now result.ahead ≡ Some (link.now.ahead.to) }
    ensures behind { slice_get k.now result.behind ≡ Some (link.now.behind.to) }
{
    let Some(ahead) = index_of(k, link.ahead.to) else {
        unreachable!()
    };
    let Some(behind) = index_of(k, link.behind.to) else {
        unreachable!()
    };
    Crossing {
        link: place,
        ahead,
        behind,
    }
}
