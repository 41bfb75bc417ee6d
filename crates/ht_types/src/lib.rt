//! The kinds of the words of an element's quasinormal basis: which cycle, attract, repel or pass.
//!
//! `types(alloc, &a, quasinormal(alloc, &a, 2000)?)?.kind(0)` is the kind of the first word.
//!
//! - `kind`: kinds of words, and reaches
//! - `order`: orders and profiles
//! - `typed`: elements with their quasinormal basis and the kinds of its words
//! - `direction`: the two directions of walks
//! - `walk`: walks of words, step by step under words of the basis
//! - `exit`: letters behind a word with which its walk ends
//! - `link`: links, and the places of atoms
//! - `laws`: what holds of every such element, and of words that share an orbit
//! - `sharing`: what tells whether words share an orbit; ponds
//! - `step`: where one step of an element leads from a word of a basis
//! - `course`: where the steps lead, one after another
//! - `told`: the kinds that they tell
#![tactic(auto)]

mod course;
mod direction;
mod exit;
mod kind;
pub mod laws;
mod link;
mod order;
mod sharing;
mod step;
mod told;
mod typed;
mod walk;

pub use direction::Direction;
pub use exit::{Exit, exit_of};
pub use kind::{Kind, Kinds, Reach};
pub use link::{Atoms, Link, Links, Places};
pub use order::{Order, Profile};
pub use sharing::{Pond, Ponds, Sharing};
pub use step::Step;
pub use typed::{Typed, typed_within, types};
pub use walk::{Walk, next_of, placed, walk_of};
