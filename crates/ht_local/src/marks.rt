//! Marks at the places of an atom for what stands on a round.
ghost use Rattle.std.specs.Prelude.{◌≡◌, ◌<◌, ◌⊎◌, ℕ, Some, length, slice_get};
ghost use Rattle.ht_word.specs.declared.word.Word.{Word};
ghost use Rattle.ht_quasi.specs.Rounds.{IsMarked};
ghost use Rattle.ht_local.specs.Candidates.{IsMetAhead};

use ht_types::{Direction, Places, Step, Typed};

// Marks those places where the words stand to which so many steps lead from the word of the basis at
// the start: a look-up and a binary search for each step.
pub(crate) fn mark_round(g: &Typed, l: &Places, start: usize, steps: u64, marks: &mut [bool])
    requires many { length marks.old ≡ length l.now }
    requires start { start < length g.now.quasi.basis.words }
    ensures { (x : Word) (i : ℕ) → slice_get g.now.quasi.basis.words start ≡ Some x → IsMarked marks.new i → IsMarked marks.old i ⊎ IsMetAhead g.now l.now x i }
{
    g.keeps_kinds();
    let mut place = start;
    for _step in 0..steps {
        mark(l, place, marks);
        let Step::Leads { to, .. } = g.step_in(Direction::Ahead, place) else {
            return;
        };
        place = *to;
    }
}

// Marks the place, if it is one of those in the list.
fn mark(l: &Places, place: usize, marks: &mut [bool])
    requires { length marks.old ≡ length l.now }
    ensures { (i : ℕ) → IsMarked marks.new i → IsMarked marks.old i ⊎ (slice_get l.now i ≡ Some place) }
{
    if let Ok(index) = l.as_slice().binary_search(&place) {
        marks[index] = true;
    }
}
