//! Products, inverses and powers of elements of the group G(n, r). Elements act on the right: in a
//! product the first element comes first.
//!
//! `product(alloc, &a, &power(alloc, &a, -1)?)?` is the identity.
//!
//! - `image`: where powers of elements, one after another, send the words under a word
//! - `inverses`: inverses
//! - `products`: products
//! - `powers`: powers
//! - `full`: the product of pairs that moves all that it can
//! - `block`: the rows that rows give with an element: a block for each row
//! - `run`: the rows below a word
#![tactic(auto)]

mod block;
mod full;
mod image;
mod inverses;
mod powers;
mod products;
mod run;

pub use full::full_product;
pub use image::Image;
pub use inverses::inverse;
pub use powers::power;
pub use products::product;
