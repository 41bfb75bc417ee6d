//! The cycles of the cycle words of an element's quasinormal basis, by which its periodic part is
//! known up to conjugacy.
//!
//! `profile(alloc, &types(alloc, &a, quasinormal(alloc, &a, 2000)?)?)?` has each length of a cycle with
//! the number of its cycles modulo n-1. `match_cycles(alloc, &f, &g)?` has rows that conjugate the
//! periodic part of f into that of g.
//!
//! - `profiles`: the lengths of cycles and the numbers of their cycles
//! - `representatives`: one word of each cycle
//! - `matches`: rows that send the cycles of one element to those of another
#![tactic(auto)]

mod matches;
mod profiles;
mod representatives;

pub use matches::match_cycles;
pub use profiles::profile;
