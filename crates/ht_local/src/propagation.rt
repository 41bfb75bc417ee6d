//! Values of conjugators at all ends of an atom, from that at one of them.
ghost use Rattle.std.specs.Prelude.{◌≡◌, ◌<◌, ℕ, List, All, IfOk, OnOk, Option, None, Some, replicate, set, slice_get};
ghost use Rattle.ht_pair.specs.Atoms.{IsAtom};
ghost use Rattle.ht_types.specs.Links.{IsEndAt, IsLink, ConnectEnds};
ghost use Rattle.ht_local.specs.KnownValues.{IsHeld};
ghost use Rattle.ht_local.specs.Propagations.{IsCrossing, AreAllKnown, AreAllRight, AreCrossings, AreHeldAt, StayKnown, StayRight, TellsPass, TellsStep, end_of};
ghost use Rattle.ht_types.specs.Flows.{opposite};

use crate::across::across;
use crate::crossing::{Crossing, crossings};
use crate::known::Known;
use ht_types::{Direction, Links, Places, Sharing, Typed};
use ht_word::{List, NoMemory};
use std::alloc::Global;

/// For each place of an atom the value at its word, where this is an attractor or a repeller and the value is known.
pub type KnownValues = List<Option<Known>>;

// The values at all ends of the atom, from that at the place `start` of its places; `None` only where no
// conjugator has that value. One walk over a link (`across`) for each end, and a pass over the links inside
// the atom for each pass in which some value is found; these are found by binary searches.
pub(crate) fn known_ends<S: Sharing>(
    alloc: Global,
    f: &Typed,
    k: &Places,
    links: &Links,
    g: &Typed,
    share: &S,
    start: usize,
    first: Known,
) -> Result<Option<KnownValues>, NoMemory>
    requires shape { g.now.element.shape ≡ f.now.element.shape }
    requires share { S.typed share.now ≡ g.now }
    requires atom { IsAtom f.now.element.shape f.now.element.rows f.now.quasi.basis.words k.now }
    requires links { All (IsLink f.now) links.now }
    requires connected { ConnectEnds f.now k.now links.now }
    requires start { (place : ℕ) × (slice_get k.now start ≡ Some place) × IsEndAt f.now k.now place }
    requires first { IsHeld g.now first }
    ensures known { IfOk result (λ found. (known : List (Option Known)) → found ≡ Some known → AreAllKnown f.now g.now k.now start first known) }
    ensures right { IfOk result (AreAllRight f.now g.now k.now start first) }
{
    let crossings = crossings(alloc, f, k, links)?;
    let mut known = with_first(alloc, k.len(), start, first)?;
    'passing: loop {
        let Some(found) = pass_over(alloc, f, k, links, g, share, &crossings, &mut known)? else {
            return Ok(None);
        };
        if !found {
            return Ok(Some(List::from_vec(known)));
        }
    }
}

// The first value alone.
fn with_first(
    alloc: Global,
    count: usize,
    start: usize,
    first: Known,
) -> Result<Vec<Option<Known>>, NoMemory>
    requires { start < count }
    ensures { IfOk result (λ known. known.items ≡ set (replicate count None) start (Some first)) }
{
    let mut known = Vec::new(alloc);
    'places: for _ in 0..count {
        known.push(None)?;
    }
    known[start] = Some(first);
    Ok(known)
}

// One pass over the crossings: whether some value was found; `None` only where no conjugator has the values.
fn pass_over<S: Sharing>(
    alloc: Global,
    f: &Typed,
    k: &Places,
    links: &Links,
    g: &Typed,
    share: &S,
    crossings: &List<Crossing>,
    known: &mut Vec<Option<Known>>,
) -> Result<Option<bool>, NoMemory>
    requires shape { g.now.element.shape ≡ f.now.element.shape }
    requires share { S.typed share.now ≡ g.now }
    requires links { All (IsLink f.now) links.now }
    requires crossings { All (IsCrossing f.now k.now links.now) crossings.now }
    requires known { AreHeldAt f.now g.now k.now known.old.items }
    ensures held { OnOk result (AreHeldAt f.now g.now k.now known.new.items) }
    ensures stay { OnOk result (StayKnown known.old.items known.new.items) }
    ensures right { IfOk result (StayRight f.now g.now k.now known.old.items known.new.items) }
    ensures told { IfOk result (TellsPass crossings.now known.old.items known.new.items) }
{
    let mut found = false;
    'crossings: for crossing in crossings.as_slice() {
        let Some(more) = step_over(alloc, f, k, links, g, share, crossing, known)? else {
            return Ok(None);
        };
        found = found || more;
    }
    Ok(Some(found))
}

// The value at the unknown end of the crossing's link, where the other one is known: whether there is one so;
// `None` only where no conjugator has the known one.
fn step_over<S: Sharing>(
    alloc: Global,
    f: &Typed,
    k: &Places,
    links: &Links,
    g: &Typed,
    share: &S,
    crossing: &Crossing,
    known: &mut Vec<Option<Known>>,
) -> Result<Option<bool>, NoMemory>
    requires shape { g.now.element.shape ≡ f.now.element.shape }
    requires share { S.typed share.now ≡ g.now }
    requires links { All (IsLink f.now) links.now }
    requires crossing { IsCrossing f.now k.now links.now crossing.now }
    requires known { AreHeldAt f.now g.now k.now known.old.items }
    ensures held { OnOk result (AreHeldAt f.now g.now k.now known.new.items) }
    ensures stay { OnOk result (StayKnown known.old.items known.new.items) }
    ensures right { IfOk result (StayRight f.now g.now k.now known.old.items known.new.items) }
    ensures told { IfOk result (TellsStep crossing.now known.old.items known.new.items) }
{
    let ahead = known[crossing.ahead].is_some();
    let behind = known[crossing.behind].is_some();
    if ahead == behind {
        return Ok(Some(false));
    }
    let direction = if ahead {
        Direction::Ahead
    } else {
        Direction::Behind
    };
    carry(alloc, f, k, links, g, share, crossing, direction, known)
}

// The value at the crossing's end against the direction, from that at its end in the direction.
fn carry<S: Sharing>(
    alloc: Global,
    f: &Typed,
    k: &Places,
    links: &Links,
    g: &Typed,
    share: &S,
    crossing: &Crossing,
    direction: Direction,
    known: &mut Vec<Option<Known>>,
) -> Result<Option<bool>, NoMemory>
    requires shape { g.now.element.shape ≡ f.now.element.shape }
    requires share { S.typed share.now ≡ g.now }
    requires links { All (IsLink f.now) links.now }
    requires crossing { IsCrossing f.now k.now links.now crossing.now }
    requires known { AreHeldAt f.now g.now k.now known.old.items }
    requires near { (value : Known) × (slice_get known.old.items (end_of direction crossing.now) ≡ Some (Some value)) }
    requires far { slice_get known.old.items (end_of (opposite direction) crossing.now) ≡ Some None }
    ensures held { OnOk result (AreHeldAt f.now g.now k.now known.new.items) }
    ensures stay { OnOk result (StayKnown known.old.items known.new.items) }
    ensures right { IfOk result (StayRight f.now g.now k.now known.old.items known.new.items) }
    ensures told { IfOk result (TellsStep crossing.now known.old.items known.new.items) }
{
    let (from, to) = ends_in(crossing, direction);
    let Some(near) = &known[from] else {
        unreachable!()
    };
    let link = links.at(crossing.link);
    let Some(value) = across(alloc, f, g, share, link, direction, near)? else {
        return Ok(None);
    };
    known[to] = Some(value);
    Ok(Some(true))
}

// The places of the crossing's ends in the direction and against it.
fn ends_in(crossing: &Crossing, direction: Direction) -> (usize, usize)
    ensures from { result.0 ≡ end_of direction crossing.now }
    ensures to { result.1 ≡ end_of (opposite direction) crossing.now }
{
    match direction {
        Direction::Ahead => (crossing.ahead, crossing.behind),
        Direction::Behind => (crossing.behind, crossing.ahead),
    }
}
