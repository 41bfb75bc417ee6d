//! The quasinormal basis of an element of the group G(n, r): the least semi-normal basis, from
//! which orbit types, parts, orders and conjugacy are told.
//!
//! `quasinormal(alloc, &a, 2000)?.basis` has its words, in order. It is found in rounds, from the
//! roots on: all words of bad chains are in no semi-normal basis, so they give way to their children.
//!
//! - `quasi`: the quasinormal basis, with its rows and classes
//! - `least`: rounds until no bad chain is left
//! - `chain`: the words of the bad chains of a basis, by the steps of its words
//! - `step`: what an element does next with the words of a basis
//! - `kept`: the steps of a basis after a round, from those before
//! - `y`: the rows of what one step carries under a basis
//! - `class`: the classes of the words of a basis
//! - `fault`: why no basis was found
//! - `laws`: the laws that show the definitions right
#![tactic(auto)]

mod chain;
mod class;
mod fault;
mod kept;
pub mod laws;
mod least;
mod quasi;
mod step;
mod y;

pub use fault::QuasiFault;
pub use quasi::{Class, Classes, Quasi, quasinormal};
