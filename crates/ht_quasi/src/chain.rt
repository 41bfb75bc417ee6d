//! The words of the bad chains of a basis, by the steps of its words.
ghost use Rattle.std.specs.Prelude.{◌≡◌, ◌<◌, ◌⊎◌, ℕ, true, false, length, slice_get, Some, IfOk, MatchOption};
ghost use Rattle.ht_quasi.specs.Rounds.{IsMarked};
ghost use Rattle.ht_quasi.specs.Walks.{StayInside, SplitsAfter, IsOnWalk, IsBadPlace, AreBadPlaces};
ghost use Rattle.ht_quasi.specs.declared.step.Step.TheVariants as step;

use crate::step::Step;
use ht_word::NoMemory;
use std::alloc::Global;

// How many steps lead from a place to a word that splits; `None` exactly where no steps do, of
// which there are fewer than words.
fn steps_to_split(steps: &[Step], start: usize) -> Option<usize>
    requires inside { StayInside steps.now }
    requires start { start < length steps.now }
    ensures { MatchOption result ((k : ℕ) → k < length steps.now → ¬ SplitsAfter steps.now k start) (λ k. SplitsAfter steps.now k start) }
{
    let mut place = start;
    for count in 0..steps.len() {
        match steps[place] {
            Step::Splits => return Some(count),
            Step::Next(next) => place = next,
            Step::Descends(_) => return None,
        }
    }
    None
}

// Marks the places of a walk of so many steps to a word that splits.
fn mark_walk(steps: &[Step], start: usize, count: usize, marks: &mut [bool])
    requires many { length marks.old ≡ length steps.now }
    requires leads { SplitsAfter steps.now count start }
    ensures start { IsMarked marks.new start }
    ensures kept { (place : ℕ) → IsMarked marks.old place → IsMarked marks.new place }
    ensures only { (place : ℕ) → IsMarked marks.new place → IsMarked marks.old place ⊎ IsOnWalk steps.now count start place }
{
    let mut place = start;
    for _ in 0..count {
        marks[place] = true;
        let Step::Next(next) = steps[place] else {
            unreachable!()
        };
        place = next;
    }
    marks[place] = true;
}

// Marks the walk from a place to a word that splits, where the place splits by the steps back and
// there is such a walk.
fn mark_from(ahead: &[Step], behind: &[Step], start: usize, marks: &mut [bool])
    requires inside { StayInside ahead.now }
    requires many { length marks.old ≡ length ahead.now }
    requires back { length behind.now ≡ length ahead.now }
    requires start { start < length ahead.now }
    ensures all { (k : ℕ) → slice_get behind.now start ≡ Some step.Splits → k < length ahead.now → SplitsAfter ahead.now k start → IsMarked marks.new start }
    ensures kept { (place : ℕ) → IsMarked marks.old place → IsMarked marks.new place }
    ensures only { (place : ℕ) → IsMarked marks.new place → IsMarked marks.old place ⊎ IsBadPlace ahead.now behind.now place }
{
    let Step::Splits = behind[start] else {
        return;
    };
    let Some(count) = steps_to_split(ahead, start) else {
        return;
    };
    mark_walk(ahead, start, count, marks);
}

// Marks for the words of the bad chains: those on a walk from a joined word, which splits by the
// steps back, to a word that splits. Walks from different joined words never meet, so all walks
// together have at most as many steps as there are words, and each is taken twice at most.
pub(crate) fn bad_places(
    alloc: Global,
    ahead: &[Step],
    behind: &[Step],
) -> Result<Vec<bool>, NoMemory>
    requires inside { StayInside ahead.now }
    requires back { length behind.now ≡ length ahead.now }
    ensures { IfOk result (λ marks. AreBadPlaces ahead.now behind.now marks.items) }
{
    let mut marks = vec![in alloc; false; ahead.len()]?;
    for start in 0..ahead.len() {
        mark_from(ahead, behind, start, &mut marks);
    }
    Ok(marks)
}
