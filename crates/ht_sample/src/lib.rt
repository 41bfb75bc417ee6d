//! Samples: three elements of G(2, 1) made from one number, a large job that anyone can make again.
//!
//! `sample(alloc, 1)?` has elements a, h and c, where h conjugates a into c.
//!
//! - `draws`: the numbers that are drawn
//! - `growth`: bases that grow by random expansions
//! - `order`: places in a random order
//! - `groups`: the rows that move groups of words within themselves
//! - `elements`: the three elements
//! - `tests`: the sizes of a sample
#![tactic(auto)]

mod draws;
mod elements;
mod groups;
mod growth;
mod order;
#[cfg(test)]
mod tests;

pub use elements::{SampleElements, sample};
