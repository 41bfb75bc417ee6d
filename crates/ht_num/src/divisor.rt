//! The greatest common divisor and the least common multiple of two numbers.
ghost use Rattle.std.specs.Prelude.{ℕ, ◌≤◌, ◌<◌, ◌^◌, MatchOption};
ghost use Rattle.std.specs.Int.{IsGcd};
ghost use Rattle.ht_num.specs.Numbers.{IsLcm, IsWide};

use crate::exact::times;

/// The greatest common divisor, by Euclid's divisions: at most 185; takes no memory. That of 0 and 0 is 0.
pub fn gcd(a: u128, b: u128) -> u128
    requires first { a < 2 ^ 127 }
    requires second { b < 2 ^ 127 }
    ensures { IsGcd a b result }
{
    let mut divided = a;
    let mut divisor = b;
    while divisor != 0 {
        let rest = divided % divisor;
        divided = divisor;
        divisor = rest;
    }
    divided
}

/// The least common multiple; `None` exactly where it exceeds 2^127-1. As long as `gcd`.
pub fn lcm(a: u128, b: u128) -> Option<u128>
    requires first { (1 ≤ a) × (a < 2 ^ 127) }
    requires second { (1 ≤ b) × (b < 2 ^ 127) }
    ensures { MatchOption result ((k : ℕ) × IsLcm a b k × IsWide k) (λ k. IsLcm a b k × (k < 2 ^ 127)) }
{
    times(a / gcd(a, b), b)
}
