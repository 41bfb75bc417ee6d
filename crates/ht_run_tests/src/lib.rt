//! Tests of the calculator over objects in memory: what no clause says of it, and no example reaches.
//!
//! - `outside`: what a run stands on, and one run over it
//! - `faults`: faults at each byte and at each line of a summary, a sink with little room, a library that fails once, pieces of any size, bad words
//! - `files`: a file that is cut at each byte
//! - `sessions`: refusals, each with the session as before
#![tactic(auto)]

#[cfg(test)]
mod faults;
#[cfg(test)]
mod files;
#[cfg(test)]
mod outside;
#[cfg(test)]
mod sessions;
