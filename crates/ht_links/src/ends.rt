//! The links of the attractors and repellers.
ghost use Rattle.std.specs.Prelude.{◌≡◌, ◌<◌, ◌+◌, Some, length, slice_get, IfOk, OnOk};
ghost use Rattle.ht_word.specs.declared.word.Word.{Word as WordValue};
ghost use Rattle.ht_word.specs.Words.{IsLetters};
ghost use Rattle.ht_types.specs.Flows.{IsEndIn};
ghost use Rattle.ht_links.specs.Listing.{IsEndLink, IsStepFrom, AddsEndLinks};

use ht_types::{Direction, Exit, Kind, Link, Links, Reach, Step, Typed, exit_of};
use ht_word::{Letters, NoMemory, Word};
use std::alloc::Global;

// Adds two links for each attractor and each repeller.
pub(crate) fn add_end_links(alloc: Global, t: &Typed, links: &mut Links) -> Result<(), NoMemory>
    ensures { OnOk result (AddsEndLinks t.now 0 (length t.now.quasi.basis.words) links.old links.new) }
{
    for place in 0..t.quasi().basis.words().len() {
        add_links_at(alloc, t, place, links)?;
    }
    Ok(())
}

// Adds two links if the word of the basis at the place is an attractor or a repeller.
fn add_links_at(alloc: Global, t: &Typed, place: usize, links: &mut Links) -> Result<(), NoMemory>
    requires { place < length t.now.quasi.basis.words }
    ensures { OnOk result (AddsEndLinks t.now place (place + 1) links.old links.new) }
{
    match t.kind(place) {
        Kind::Attractor { .. } => add_links_of(alloc, t, Direction::Ahead, place, links),
        Kind::Repeller { .. } => add_links_of(alloc, t, Direction::Behind, place, links),
        _ => Ok(()),
    }
}

// Adds two links of the end of walks in the direction, with one cone: letters behind the end that lead
// in the other direction to an end there. In the direction the cone is under the end itself, and after
// one step under the next end on the round.
fn add_links_of(
    alloc: Global,
    t: &Typed,
    direction: Direction,
    place: usize,
    links: &mut Links,
) -> Result<(), NoMemory>
    requires place { place < length t.now.quasi.basis.words }
    requires end { (x : WordValue) → slice_get t.now.quasi.basis.words place ≡ Some x → IsEndIn direction t.now.element.shape t.now.element.rows x }
    ensures { OnOk result (AddsEndLinks t.now place (place + 1) links.old links.new) }
{
    let word = t.quasi().basis.words().at(place);
    let exit = exit_of(alloc, t, direction.opposite(), word)?;
    let itself = Reach {
        steps: 0,
        to: place,
        rest: Letters::from_slice(alloc, exit.letters.as_slice())?,
    };
    let next = next_reach(alloc, t, direction, place, &exit.letters)?;
    links.push(end_link(alloc, direction, word, &exit, itself)?)?;
    links.push(end_link(alloc, direction, word, &exit, next)?)
}

// Where one step in the direction leads from the end at the place with the letters behind it.
fn next_reach(
    alloc: Global,
    t: &Typed,
    direction: Direction,
    place: usize,
    letters: &Letters,
) -> Result<Reach, NoMemory>
    requires place { place < length t.now.quasi.basis.words }
    requires end { (x : WordValue) → slice_get t.now.quasi.basis.words place ≡ Some x → IsEndIn direction t.now.element.shape t.now.element.rows x }
    requires letters { IsLetters t.now.element.shape letters.now }
    ensures { IfOk result (λ reach. (x : WordValue) → slice_get t.now.quasi.basis.words place ≡ Some x → IsStepFrom t.now direction x letters.now reach) }
{
    t.keeps_kinds();
    let Step::Leads { to, rest } = t.step_in(direction, place) else {
        unreachable!()
    };
    let mut behind = Letters::from_slice(alloc, rest.as_slice())?;
    behind.extend(letters.as_slice())?;
    Ok(Reach {
        steps: 1,
        to: *to,
        rest: behind,
    })
}

// The link of the end's word with the exit's letters, with this reach in the direction.
fn end_link(
    alloc: Global,
    direction: Direction,
    word: &Word,
    exit: &Exit,
    own: Reach,
) -> Result<Link, NoMemory>
    ensures { IfOk result (IsEndLink direction word.now exit.now own) }
{
    let cone = word.joined(alloc, exit.letters.as_slice())?;
    let other = Reach {
        steps: exit.steps,
        to: exit.to,
        rest: Letters::from_slice(alloc, exit.rest.as_slice())?,
    };
    Ok(match direction {
        Direction::Ahead => Link {
            cone,
            ahead: own,
            behind: other,
        },
        Direction::Behind => Link {
            cone,
            ahead: other,
            behind: own,
        },
    })
}
