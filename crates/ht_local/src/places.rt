//! Where a place stands among those of an atom.
ghost use Rattle.std.specs.Prelude.{◌≡◌, ◌<◌, ℕ, Some, slice_get, AllPairs, Contains, MatchOption};

use ht_types::Places;

// The index of a place. A binary search.
pub(crate) fn index_of(places: &Places, place: usize) -> Option<usize>
    requires { AllPairs (λ (i : ℕ) (j : ℕ). i < j) places.now }
    ensures { MatchOption result (¬ Contains places.now place) (λ index. slice_get places.now index ≡ Some place) }
{
    places.as_slice().binary_search(&place).ok()
}
