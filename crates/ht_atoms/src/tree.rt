//! Trees of places, in which each place has a parent that is no later place, and the labels that
//! they tell: places that joins tie have one label.
ghost use Rattle.std.specs.Prelude.{◌≡◌, ◌<◌, ◌++◌, ◌∷◌, [], ℕ, List, length, All, slice_index, IfOk};
ghost use Rattle.ht_atoms.specs.declared.join.Join.{Join};
ghost use Rattle.ht_atoms.specs.Trees.{IsForest, IsForestOf, IsShortened, IsRootOf, AreLabels};

use crate::join::Join;
use ht_word::NoMemory;
use std::alloc::Global;

// The root of the tree of a place. On the way up the parent of each place that is passed gives way to
// its own parent: so K calls for N places take O((N + K) log N) steps.
fn root(parents: &mut [usize], start: usize) -> usize
    requires forest { IsForest parents.old }
    requires start { start < length parents.old }
    ensures shortened { IsShortened parents.old parents.new }
    ensures root { IsRootOf parents.old parents.new start result }
{
    let mut place = start;
    while parents[place] != place {
        let above = parents[parents[place]];
        parents[place] = above;
        place = above;
    }
    place
}

// Puts the trees of the two places of a join together, under the lesser root.
fn tie(parents: &mut [usize], join: Join)
    requires forest { IsForest parents.old }
    requires first { join.first < length parents.old }
    requires second { join.second < length parents.old }
    ensures { (joins : List Join) → IsForestOf joins parents.old → IsForestOf (joins ++ join ∷ []) parents.new }
{
    let one = root(parents, join.first);
    let other = root(parents, join.second);
    if one < other {
        parents[other] = one;
    } else {
        parents[one] = other;
    }
}

// Makes the root of its tree the parent of each place. One pass.
fn settle(parents: &mut [usize])
    requires { IsForest parents.old }
    ensures shortened { IsShortened parents.old parents.new }
    ensures settled { (i : ℕ) → i < length parents.new → slice_index parents.new (slice_index parents.new i) ≡ slice_index parents.new i }
{
    for place in 0..parents.len() {
        parents[place] = parents[parents[place]];
    }
}

// Each place as its own parent.
fn own_parents(alloc: Global, count: usize) -> Result<Vec<usize>, NoMemory>
    ensures many { IfOk result (λ parents. length parents.items ≡ count) }
    ensures own { IfOk result (λ parents. (i : ℕ) → i < count → slice_index parents.items i ≡ i) }
{
    let mut parents = Vec::new(alloc);
    for place in 0..count {
        parents.push(place)?;
    }
    Ok(parents)
}

// Makes parents that are their own places the labels that the joins tell.
fn tie_all(parents: &mut [usize], joins: &[Join])
    requires own { (i : ℕ) → i < length parents.old → slice_index parents.old i ≡ i }
    requires inside { All (λ join. (join.first < length parents.old) × (join.second < length parents.old)) joins.now }
    ensures { AreLabels joins.now (length parents.old) parents.new }
{
    for join in joins {
        tie(parents, *join);
    }
    settle(parents);
}

// The labels of the places below a number. O((N + K) log N) steps for N places and K joins.
pub(crate) fn labels(alloc: Global, count: usize, joins: &[Join]) -> Result<Vec<usize>, NoMemory>
    requires { All (λ join. (join.first < count) × (join.second < count)) joins.now }
    ensures { IfOk result (λ labels. AreLabels joins.now count labels.items) }
{
    let mut parents = own_parents(alloc, count)?;
    tie_all(&mut parents, joins);
    Ok(parents)
}
