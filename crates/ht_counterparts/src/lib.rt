//! Laws of conjugators between whole elements: they send each atom to an atom, its counterpart, and the
//! periodic part to the periodic part, and what they do there conjugates there. Each law is the contract
//! of a function that does nothing; the program calls none of them.
//!
//! - `laws`: what conjugate elements have in common
#![tactic(auto)]

pub mod laws;
