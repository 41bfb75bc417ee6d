//! Conjugacy on one atom: whether some rows, of any number, conjugate an element on an atom into
//! another one on an atom, complete both ways.
//!
//! `local(alloc, &f, &k, &links, &g, &l, &share)?` holds rows that do, or tells that none do.
//!
//! - `conjugacy`: rows that conjugate, or none
//! - `known`: what is known of conjugators at the ends of an atom
//! - `candidates`: candidates for the values at an attractor
//! - `marks`: marks for what stands on a round
//! - `turns`: letters turned into others
//! - `borders`: fronts of letters that others end with
//! - `propagation`: the values at all ends of an atom, from that at one of them
//! - `crossing`: links inside an atom, with the places of their ends
//! - `places`: where a place stands among those of an atom
//! - `across`: the value at one end of a link, from that at its other end
//! - `front`: the front of letters by which they are turned into others
//! - `led`: walks of a given number of steps
//! - `rows`: rows that have the values at all ends
//! - `values`: value lists at the words of an atom, from what is known at its ends
//! - `tests`: whether rows commute, and go to words that are apart
#![tactic(auto)]

mod across;
mod borders;
mod candidates;
mod conjugacy;
mod crossing;
mod front;
mod known;
mod led;
mod marks;
mod places;
mod propagation;
mod rows;
mod tests;
mod turns;
mod values;

pub use conjugacy::local;
pub use known::Known;
