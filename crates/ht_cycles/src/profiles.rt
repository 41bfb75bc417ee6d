//! The profile of an element: the lengths of its cycles and the numbers of their cycles.
ghost use Rattle.std.specs.Prelude.{◌≡◌, ◌+◌, ◌<◌, ◌≤◌, ◌++◌, IsTrue, ◌↔◌, length, slice_index, All, IfOk, OnOk};
ghost use Rattle.ht_pair.specs.Profiles.{IsProfile};
ghost use Rattle.ht_cycles.specs.Runs.{length_of, lengths_of, EndsRun, runs};

use ht_types::{Kind, Profile, Typed};
use ht_word::NoMemory;
use std::alloc::Global;

// Adds the length of the cycle of a cycle word of this kind.
fn add_length(lengths: &mut Vec<u64>, kind: &Kind) -> Result<(), NoMemory>
    ensures { OnOk result (lengths.new.items ≡ lengths.old.items ++ length_of kind.now) }
{
    if let Kind::Cycle { m } = kind {
        lengths.push(*m)?;
    }
    Ok(())
}

// The lengths of the cycles of the cycle words, in the order of the words. One pass.
fn cycle_lengths(alloc: Global, t: &Typed) -> Result<Vec<u64>, NoMemory>
    ensures { IfOk result (λ lengths. lengths.items ≡ lengths_of t.now.kinds) }
{
    t.keeps_kinds();
    let mut lengths = Vec::new(alloc);
    for place in 0..t.quasi().basis.words().len() {
        add_length(&mut lengths, t.kind(place))?;
    }
    Ok(lengths)
}

// Whether the number at the place is the last of its run.
fn ends_run(sorted: &[u64], place: usize) -> bool
    requires { place < length sorted.now }
    ensures { IsTrue result ↔ EndsRun sorted.now place }
{
    place + 1 == sorted.len() || sorted[place + 1] != sorted[place]
}

// Each number with its count divided by it, modulo n-1. One pass.
fn profile_of(alloc: Global, n: u8, sorted: &[u64]) -> Result<Profile, NoMemory>
    requires letters { 2 ≤ n }
    requires positive { All (λ m. 1 ≤ m) sorted.now }
    ensures { IfOk result (λ profile. profile ≡ runs n 0 sorted.now) }
{
    let mut profile = Profile::new(alloc);
    let mut count: u64 = 0;
    for (place, m) in sorted.iter().enumerate() {
        count += 1;
        if ends_run(sorted, place) {
            profile.push((*m, count / *m % (n as u64 - 1)))?;
            count = 0;
        }
    }
    Ok(profile)
}

/// The profile: each length of a cycle with the number of its cycles modulo n-1, in ascending order
/// of the lengths (Higman 1974). Sorts the lengths of N words by O(N log N) comparisons, and goes
/// over them once.
pub fn profile(alloc: Global, t: &Typed) -> Result<Profile, NoMemory>
    ensures { IfOk result (IsProfile t.now.element.shape t.now.element.rows t.now.quasi.basis.words) }
{
    t.keeps_kinds();
    let mut lengths = cycle_lengths(alloc, t)?;
    lengths.sort_unstable();
    profile_of(alloc, t.element().shape().n, lengths.as_slice())
}
