//! Whether elements, or powers of them, are conjugate.

use crate::Rows;

/// Whether two elements are conjugate, with rows that conjugate where they are.
#[derive(Debug, Drop)]
pub enum Verdict {
    /// The rows of a normal conjugator, in canonical form.
    Conjugate(Rows),
    /// No element conjugates.
    NotConjugate,
}

/// Whether two elements have powers that are conjugate and not the identity.
#[derive(Debug, Drop)]
pub enum PowerVerdict {
    /// `by` conjugates the i-th power of the first into the j-th power of the second; i is above 0.
    Powers { i: i128, j: i128, by: Rows },
    /// No powers that aren't the identity are conjugate.
    None,
}
