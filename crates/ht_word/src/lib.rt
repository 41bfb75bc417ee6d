//! Words over the roots and letters of a group G(n, r), and the shapes that they belong to.
//!
//! A word is a root with letters after it, and stands for the cone of all infinite words that
//! begin with it. `Word::new(alloc, 1).child(alloc, 2)?` is the word that scripts write `x1.2`.
//!
//! - `word`: words, their prefixes and their order
//! - `letters`: the letters of a word, the first 24 without an allocation
//! - `shape`: the two numbers n and r, within their limits
//! - `list`: the list type of the product
//! - `name`: names, which scripts give to elements
//! - `memory`: want of memory
#![tactic(auto)]

mod letters;
mod list;
mod memory;
mod name;
mod shape;
mod word;

pub use letters::Letters;
pub use list::List;
pub use memory::NoMemory;
pub use name::Name;
pub use shape::{BadShape, Shape};
pub use word::{Word, Words};
