//! Elements of the group G(n, r): pairs of bases, and the one reduced pair of each element.
//!
//! A pair sends the cone of each `from` word to the cone of the `to` word beside it.
//! `Element::of_rows(alloc, shape, rows)?.rows(alloc)?` gives the reduced rows, in order.
//!
//! - `row`: rows and lists of rows
//! - `element`: elements, made from rows
//! - `basis`: bases in ascending order, and the test whether words are a basis
//! - `decider`: what decides whether elements are conjugate
//! - `fault`: why rows are no element, and why elements have no product
//! - `reduce`: the reduced rows of a pair, and of a table
//! - `moves`: how rows move words
//! - `headed`: items in order of a word each, and the searches for those above and below a word
//! - `pair`: the test whether rows are a pair, and the rows of a pair in order
//! - `tiling`: the test whether sorted words are a basis
//! - `side`: the `from` words or the `to` words of rows
//! - `sorted`: items sorted by a word each
//! - `verdict`: whether elements, or powers of them, are conjugate
#![tactic(auto)]

mod basis;
mod decider;
mod element;
mod fault;
mod headed;
mod moves;
mod pair;
mod reduce;
mod row;
mod side;
mod sorted;
mod tiling;
mod verdict;

pub use basis::{Basis, is_basis};
pub use decider::{DecideFault, Decider, Which};
pub use element::{Element, copy_rows};
pub use fault::{OpFault, RowsFault};
pub use headed::first_under;
pub use moves::{are_same_rows, place_of};
pub use pair::sort_pair;
pub use reduce::{merge_table, reduce_rows};
pub use row::{Row, Rows};
pub use side::Side;
pub use verdict::{PowerVerdict, Verdict};
