//! Whether elements of the group G(n, r) are conjugate, with an element that conjugates where they are.
//!
//! `conjugate(alloc, &f, &g, &Sharer::new(&g))?` tells it, from the quasinormal bases of `f` and `g`, the
//! kinds of their words, and what tells whether words share an orbit of `g`.
//!
//! - `conjugacy`: whether elements are conjugate
//! - `ends`: the ends of atoms, as conjugate atoms have them in common
//! - `linked`: atoms with the links inside them
//! - `classes`: classes of conjugate atoms of one element
//! - `matching`: atoms of one element matched with conjugate atoms of another
#![tactic(auto)]

mod classes;
mod conjugacy;
mod ends;
mod linked;
mod matching;

pub use conjugacy::conjugate;
