//! Exact numbers for orders and exponents, up to 2^127 - 1.
//!
//! `chain_at(6, 2)` is 3: the power 6 is made over the powers 1, 2, 3. `lcm(4, 6)` is `Some(12)`, and
//! `ratio(4, 6)` is (2, 3).
//!
//! - `chain`: the exponents that a power is made over
//! - `divisor`: the greatest common divisor and the least common multiple of two numbers
//! - `exact`: products, sums and fractions
#![tactic(auto)]

mod chain;
mod divisor;
mod exact;

pub use chain::{chain_at, chain_len};
pub use divisor::{gcd, lcm};
pub use exact::{plus, ratio, times};
