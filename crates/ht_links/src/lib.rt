//! Links of an element: words of its infinite part that come under an attractor by steps ahead, and
//! under a repeller by steps behind.
//!
//! `links(alloc, &types(alloc, &a, quasinormal(alloc, &a, 2000)?)?)?` connects all attractors and
//! repellers of each atom of the element.
//!
//! - `listing`: all links that are listed
//! - `rows`: those of the rows of what one step carries under the basis
//! - `ends`: those of the attractors and repellers
#![tactic(auto)]

mod ends;
mod listing;
mod rows;

pub use listing::links;
