//! Laws of power conjugacy: where some powers of two elements that aren't the identity are conjugate,
//! and that the power rule finds such powers where there are any. Each law is the contract of a function
//! that does nothing; the program calls none of them.
//!
//! - `laws`: orders, rates and roots of conjugate powers, what fits a budget, and what the rule's none says
#![tactic(auto)]

pub mod laws;
