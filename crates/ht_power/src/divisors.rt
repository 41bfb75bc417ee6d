//! The divisors of the orders that are tried.
ghost use Rattle.std.specs.Prelude.{◌≡◌, ◌≤◌, ◌<◌, ◌↔◌, ℕ, AllPairs, Contains, IfOk};
ghost use Rattle.std.specs.Int.{◌∣◌};
ghost use Rattle.ht_power.specs.Cycles.{IsLongest};

use ht_types::{Kind, Typed};
use ht_word::NoMemory;
use std::alloc::Global;

// The length of the longest cycle, 0 where there is none. One pass; takes no memory.
pub(crate) fn longest_cycle(t: &Typed) -> u64
    ensures { IsLongest t.now.element.shape t.now.element.rows t.now.quasi.basis.words result }
{
    t.keeps_kinds();
    let mut longest = 0;
    for place in 0..t.quasi().basis.words().len() {
        if let Kind::Cycle { m } = t.kind(place) {
            longest = longest.max(*m);
        }
    }
    longest
}

// The divisors of a number from 2 to the most, in ascending order. A division for each number.
pub(crate) fn divisors(alloc: Global, number: u128, most: u64) -> Result<Vec<u128>, NoMemory>
    requires { 1 ≤ number }
    ensures ascending { IfOk result (λ ds. AllPairs (λ (c : ℕ) (d : ℕ). c < d) ds.items) }
    ensures each { IfOk result (λ ds. (d : ℕ) → Contains ds.items d ↔ ((2 ≤ d) × (d ≤ most) × (d ∣ number))) }
{
    let mut divisors = Vec::new(alloc);
    for d in 2..u128::from(most) + 1 {
        if number % d == 0 {
            divisors.push(d)?;
        }
    }
    Ok(divisors)
}
