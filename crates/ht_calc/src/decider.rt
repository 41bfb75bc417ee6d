//! What decides conjugacy by quasinormal bases.
ghost use Rattle.std.specs.Prelude.{◌≤◌};

use ht_ask::verdict_of;
use ht_pair::{DecideFault, Decider, Element, Verdict};
use std::alloc::Global;

/// Decides whether elements are conjugate, by their quasinormal bases and the kinds of the words
/// of these.
#[derive(Clone, Copy, Debug)]
pub struct BasisDecider {
    /// The budget: from 1 to 65,536 expansions of the roots for each basis.
    pub budget: u32,
    pub ghost low: { 1 ≤ budget },
    pub ghost high: { budget ≤ 65536 },
}

impl Decider for BasisDecider {
    ghost expansions = { λ decider. decider.budget };

    fn budget(&self) -> u32 {
        self.budget
    }

    fn decide(&self, alloc: Global, a: &Element, b: &Element) -> Result<Verdict, DecideFault> {
        verdict_of(alloc, a, b, self.budget)
    }
}
