//! All links that are listed.
ghost use Rattle.std.specs.Prelude.{◌≤◌, ◌+◌, ◌*◌, ℕ, List, length, All, IfOk};
ghost use Rattle.ht_pair.specs.Atoms.{IsAtom};
ghost use Rattle.ht_types.specs.Links.{IsLink, ConnectEnds};

use crate::ends::add_end_links;
use crate::rows::add_row_links;
use ht_types::{Links, Typed};
use ht_word::NoMemory;
use std::alloc::Global;

/// Links such that, in each atom, those whose cones are under the atom connect all its attractors and
/// repellers (this project's own). At most one for each row of what one step carries under the basis,
/// and two for each word of the basis. For each of them at most N(l + 2) steps ahead and as many
/// behind, for N words of the basis and l letters of its cone: no pair of words is looked at.
pub fn links(alloc: Global, t: &Typed) -> Result<Links, NoMemory>
    ensures links { IfOk result (All (IsLink t.now)) }
    ensures connected { IfOk result (λ links. (places : List ℕ) → IsAtom t.now.element.shape t.now.element.rows t.now.quasi.basis.words places → ConnectEnds t.now places links) }
    ensures few { IfOk result (λ links. length links ≤ length t.now.quasi.y + 2 * length t.now.quasi.basis.words) }
{
    t.keeps_kinds();
    let mut links = Links::new(alloc);
    add_row_links(alloc, t, &mut links)?;
    add_end_links(alloc, t, &mut links)?;
    Ok(links)
}
