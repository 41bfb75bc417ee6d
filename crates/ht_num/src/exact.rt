//! Products, sums and fractions.
ghost use Rattle.std.specs.Prelude.{◌≡◌, ◌≤◌, ◌<◌, ◌+◌, ◌*◌, ◌^◌, MatchOption};
ghost use Rattle.ht_num.specs.Numbers.{IsRatio, IsWide};

use crate::divisor::gcd;

// The largest number that isn't wide.
const MOST: u128 = 0x7fff_ffff_ffff_ffff_ffff_ffff_ffff_ffff;

/// The product; `None` exactly where it exceeds 2^127-1. One division; takes no memory.
pub fn times(a: u128, b: u128) -> Option<u128>
    requires first { a < 2 ^ 127 }
    requires second { b < 2 ^ 127 }
    ensures { MatchOption result (IsWide (a * b)) (λ k. (k ≡ a * b) × (k < 2 ^ 127)) }
{
    if b > 0 && a > MOST / b {
        return None;
    }
    Some(a * b)
}

/// The sum; `None` exactly where it exceeds 2^127-1. Takes no memory.
pub fn plus(a: u128, b: u128) -> Option<u128>
    requires first { a < 2 ^ 127 }
    requires second { b < 2 ^ 127 }
    ensures { MatchOption result (IsWide (a + b)) (λ k. (k ≡ a + b) × (k < 2 ^ 127)) }
{
    let sum = a + b;
    if sum > MOST {
        return None;
    }
    Some(sum)
}

/// a/b in lowest terms, the numerator first. As long as `gcd`.
pub fn ratio(a: u128, b: u128) -> (u128, u128)
    requires first { a < 2 ^ 127 }
    requires second { (1 ≤ b) × (b < 2 ^ 127) }
    ensures lowest { IsRatio a b result.0 result.1 }
    ensures small { (result.0 ≤ a) × (result.1 ≤ b) }
{
    let divisor = gcd(a, b);
    (a / divisor, b / divisor)
}
