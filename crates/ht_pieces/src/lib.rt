//! Laws of pieces of the words that an element keeps: its atoms are the least ones of the infinite
//! part, conjugators on an atom are rigid, and some of them are normal. Each law is the contract of a
//! function that does nothing; the program calls none of them.
//!
//! - `laws`: what holds of atoms and of conjugators on them
#![tactic(auto)]

pub mod laws;
