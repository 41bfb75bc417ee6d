//! Tests of the calls that no script of the examples makes: that they succeed where there is memory,
//! and what they give then.
//!
//! - `texts`: the texts that are compared
//! - `atoms`: atoms, and links of their ends
//! - `bases`: expansions of bases, and which words are a basis
//! - `files`: element files
//! - `images`: images under many steps, and behind letters
//! - `local`: conjugacy on the atoms of two elements
//! - `rows`: places in the rows of an element
//! - `told`: what is told of elements with their kinds
//! - `walks`: walks and exits behind
#![tactic(auto)]

#[cfg(test)]
mod atoms;
#[cfg(test)]
mod bases;
#[cfg(test)]
mod files;
#[cfg(test)]
mod images;
#[cfg(test)]
mod local;
#[cfg(test)]
mod rows;
#[cfg(test)]
mod texts;
#[cfg(test)]
mod told;
#[cfg(test)]
mod walks;
