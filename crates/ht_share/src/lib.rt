//! Which words share an orbit of an element, and its ponds.
//!
//! `Sharer::new(&t).share(alloc, &u, &v)?` is a number of steps that lead from the one word to the
//! other. `ponds(alloc, &t)?` lists all ponds of the element of `t`.
//!
//! - `sharer`: the answers for words under the basis
//! - `periodic`: those for words under the periodic part
//! - `infinite`: those for words under the infinite part
//! - `carried`: whether a power carries a word to a word
//! - `inner`: the words that one step carries to no word under the basis
//! - `pond`: the ponds
//! - `search`: the pond of one word
//! - `follow`: whether steps lead a word to a word, through a pond if there is one on the way
//! - `found`: whether steps carry a word to a word, where some ponds are known
#![tactic(auto)]

mod carried;
mod follow;
mod found;
mod infinite;
mod inner;
mod periodic;
mod pond;
mod search;
mod sharer;

pub use pond::ponds;
pub use sharer::Sharer;
