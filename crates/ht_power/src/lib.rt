//! Power conjugacy in the group G(n, r): whether two elements have conjugate powers that aren't the identity.
//!
//! `power_conjugate(alloc, &a, &b, &decider)?` names such powers and an element that conjugates them, by a
//! rule that stops at the first number or element past the limits; what decides conjugacy is the decider.
//!
//! - `fault`: why it isn't told
//! - `trial`: two powers made and compared
//! - `cycles`: powers of elements of finite order, read off their cycles
//! - `divisors`: the divisors of the orders that are tried
//! - `finite`: powers of elements of finite order
//! - `rates`: the common period of the ends, and how fast an element draws words to them
//! - `signs`: powers of infinite parts, with the sign plus and with minus
//! - `power`: whether two elements have conjugate powers
#![tactic(auto)]

mod cycles;
mod divisors;
mod fault;
mod finite;
mod power;
mod rates;
mod signs;
mod trial;

pub use fault::PowerFault;
pub use power::power_conjugate;
