//! The periodic and the infinite part of an element of the group G(n, r), and its order.
//!
//! `parts(alloc, &t)?` are the element on the words under cycle words, and on the other words, each
//! with the identity elsewhere. `order(&t)` is finite where there are no other words, so where
//! `is_periodic(&t)`.
//!
//! - `part`: the two parts
//! - `orders`: whether an element is periodic; its order, and that of its periodic part
#![tactic(auto)]

mod orders;
mod part;

pub use orders::{is_periodic, order, periodic_order};
pub use part::parts;
