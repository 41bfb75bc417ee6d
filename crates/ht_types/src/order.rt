//! Orders and profiles.

use ht_word::List;

/// The order of an element.
#[derive(Clone, Copy, Debug, PartialEq, Eq)]
pub enum Order {
    /// The least number from 1 on, at most 2^127-1, such that the power is the identity.
    Finite(u128),
    /// No power from 1 on is the identity.
    Infinite,
    /// The order is finite and exceeds 2^127-1.
    Wide,
}

/// Each length of a cycle with the number of its cycles modulo n-1, in ascending order.
pub type Profile = List<(u64, u64)>;
