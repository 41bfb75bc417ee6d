//! Ends of atoms: conjugate atoms have equal ones, which cost one pass to read.
ghost use Rattle.std.specs.Prelude.{◌≡◌, ◌++◌, IfOk, IsTrue, OnOk};
ghost use Rattle.ht_counterparts.specs.Ends.{end_cmp, end_of, way_number};
ghost use Rattle.ht_pair.specs.Atoms.{IsAtom};
ghost use Rattle.ht_conj.specs.OrderedEnds.{AreEndsAt};

use ht_types::{Direction, Kind, Places, Typed};
use ht_word::{List, NoMemory};
use std::alloc::Global;
use std::cmp::Ordering;
use std::marker::Model;

// An attractor or a repeller of an atom, without its letters.
#[derive(Clone, Copy, Debug, PartialEq, Eq)]
pub(crate) struct End {
    // that of the walks that end there
    direction: Direction,
    period: u64,
    // how many a period brings
    letters: usize,
}

impl Model for End {
    ghost use Rattle.ht_counterparts.specs.Ends as ends;

    ghost Value = { ends.End };

    ghost view = { λ end. record { direction = end.direction; period = end.period; letters = end.letters } };

    ghost inverse = { λ end. record { direction = end.direction; period = end.period; letters = end.letters } };
}

// The ends of an atom: those ahead before those behind, then by period, then by number of letters.
pub(crate) type Ends = List<End>;

// The place of a direction in the order of ends.
fn way_number(direction: Direction) -> u8
    ensures { result ≡ way_number direction }
{
    match direction {
        Direction::Ahead => 0,
        Direction::Behind => 1,
    }
}

// How two ends compare.
fn compare(first: &End, second: &End) -> Ordering
    ensures { result ≡ end_cmp first.now second.now }
{
    let by_way = way_number(first.direction).cmp(&way_number(second.direction));
    let by_period = first.period.cmp(&second.period);
    let by_letters = first.letters.cmp(&second.letters);
    by_way.then(by_period.then(by_letters))
}

// Adds the end that a word of this kind is, if it is one.
fn add_end(ends: &mut Vec<End>, kind: &Kind) -> Result<(), NoMemory>
    ensures { OnOk result (ends.new.items ≡ ends.old.items ++ end_of kind.now) }
{
    match kind {
        Kind::Attractor { m, by } => ends.push(End {
            direction: Direction::Ahead,
            period: *m,
            letters: by.len(),
        })?,
        Kind::Repeller { m, by } => ends.push(End {
            direction: Direction::Behind,
            period: *m,
            letters: by.len(),
        })?,
        Kind::Cycle { .. } | Kind::Passing { .. } => {}
    }
    Ok(())
}

// The ends of an atom, in order. One pass, and O(E log E) comparisons of numbers for E ends.
pub(crate) fn ends_of(alloc: Global, t: &Typed, places: &Places) -> Result<Ends, NoMemory>
    requires { IsAtom t.now.element.shape t.now.element.rows t.now.quasi.basis.words places.now }
    ensures { IfOk result (AreEndsAt t.now places.now) }
{
    let mut ends = Vec::new(alloc);
    for place in places.as_slice() {
        add_end(&mut ends, t.kind(*place))?;
    }
    ends.sort_unstable_by(
        |a: &End, b: &End| -> Ordering
            ensures { result ≡ end_cmp a.now b.now }
        { compare(a, b) },
    );
    Ok(Ends::from_vec(ends))
}

// Whether atoms have equal ends: true wherever they have. One pass over them; takes no memory.
pub(crate) fn are_equal(first: &Ends, second: &Ends) -> bool
    ensures { first.now ≡ second.now → IsTrue result }
{
    first.as_slice() == second.as_slice()
}
