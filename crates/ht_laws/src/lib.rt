//! Laws of the definitions of the group G(n, r), each the contract of a function that does nothing:
//! words, bases, pairs, powers, conjugacy, kinds, parts and orbits are what a group theorist means by
//! them. The program calls none of them.
//!
//! `pairs::each_element_has_one_canonical_pair` says that two canonical pairs are equal lists exactly
//! where they move words alike: so an element may be told by the pair that is printed.
//!
//! - `pairs`: bases and their expansions, pairs, the canonical pair and the size of an element
//! - `group`: products, the identity and inverses
//! - `powers`: powers, what they carry, and the images of words under them
//! - `kinds`: semi-normal bases, the kinds of words and their reaches, profiles and orders
//! - `parts`: the periodic and the infinite part, and what the order is
//! - `classes`: which words of a basis split or are joined
//! - `orbits`: orbits of words, by addresses, ponds and atoms
//! - `conjugacy`: conjugators, conjugacy and power conjugacy
//! - `alike`: what is said of a pair is said of each pair that moves words alike
//! - `power_rule`: what the power rule prints, that it gives one answer, and that it speaks of elements
#![tactic(auto)]

pub mod alike;
pub mod classes;
pub mod conjugacy;
pub mod group;
pub mod kinds;
pub mod orbits;
pub mod pairs;
pub mod parts;
pub mod power_rule;
pub mod powers;
