//! What elements of the group G(n, r) answer.
//!
//! `answer_of(alloc, Question::Basis, &element, 2000)?` holds the words of the element's quasinormal
//! basis, where that takes at most 2000 expansions of the roots. An element knows no name: whoever
//! asks it tells by names which element was over the budget.
//!
//! - `question`: what an element is asked
//! - `typed`: questions that take the kinds of words
//! - `parts`: the two parts of an element
//! - `share`: whether two words share an orbit
//! - `verdict`: whether two elements are conjugate
#![tactic(auto)]

mod parts;
mod question;
mod share;
mod typed;
mod verdict;

pub use parts::{PartsFault, parts_of};
pub use question::{Question, answer_of, image_rows};
pub use share::share_of;
pub use verdict::verdict_of;
