//! The atoms of an element: the finest pieces of its infinite part that it keeps.
//!
//! `atoms(alloc, &types(alloc, &a, quasinormal(alloc, &a, 2000)?)?)?.at(0)` has the places of the words
//! of the first atom.
//!
//! - `join`: the places of words that one step joins
//! - `tree`: trees of places, and labels that tell which places are tied
//! - `piece`: the places of each label, and the atoms
#![tactic(auto)]

mod join;
mod piece;
mod tree;

pub use piece::atoms;
