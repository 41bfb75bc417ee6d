//! Addresses of the words under the infinite part of an element, by which their orbits are told apart.
//!
//! `flow(alloc, &t, &word)?` is the address of the word, or the word where its way ends.
//!
//! - `address`: where a word flows
//! - `exit`: letters behind a word with which it flows to an address
//! - `round`: the round that steps lead from an attractor
//! - `strip`: letters behind attractors
//! - `laws`: what holds of addresses
#![tactic(auto)]

mod address;
mod exit;
pub mod laws;
mod round;
mod strip;

pub use address::{Flowed, flow};
pub use exit::exit_word;
