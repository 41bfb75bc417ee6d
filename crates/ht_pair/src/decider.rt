//! What decides whether elements are conjugate.
ghost use Rattle.std.specs.Prelude.{ℕ, ◌≡◌, ◌≤◌, IfOk, IsErrOf};
ghost use Rattle.ht_pair.specs.declared.decider.DecideFault.TheVariants.{Budget};
ghost use Rattle.ht_pair.specs.declared.decider.Which.TheVariants.{First, Second};
ghost use Rattle.ht_pair.specs.Budgets.{FitsBudget, IsOverBudget};
ghost use Rattle.ht_pair.specs.Decisions.{IsDecided};

use crate::{Element, Verdict};
use ht_word::NoMemory;
use std::alloc::Global;
use thiserror::Error;

/// Which of two elements.
#[derive(Clone, Copy, Debug, PartialEq, Eq)]
pub enum Which {
    First,
    Second,
}

/// Why it isn't decided whether two elements are conjugate.
#[derive(Clone, Copy, Debug, PartialEq, Eq, Error)]
pub enum DecideFault {
    /// The quasinormal basis of this one takes more expansions of the roots than the budget has; of two
    /// such the first is named.
    #[error("a quasinormal basis takes more expansions than the budget")]
    Budget(Which),
    /// No memory was found.
    #[error("out of memory")]
    NoMemory,
}

impl From<NoMemory> for DecideFault {
    ghost use Rattle.std.specs.Prelude.{◌≡◌};
    ghost use Rattle.ht_pair.specs.declared.decider.DecideFault.TheVariants.{NoMemory};

    ghost from_gives = { λ _ fault. fault ≡ NoMemory };

    fn from(_: NoMemory) -> DecideFault {
        DecideFault::NoMemory
    }
}

/// What decides whether elements are conjugate, where both quasinormal bases fit its budget.
pub trait Decider {
    /// The budget, in expansions of the roots.
    ghost expansions: { Self → ℕ };

    /// The budget: from 1 to 65,536 expansions of the roots.
    fn budget(&self) -> u32
        ensures budget { result ≡ expansions self.now }
        ensures low { 1 ≤ result }
        ensures high { result ≤ 65536 };

    /// Whether two elements of one shape are conjugate, with the canonical rows of a normal conjugator
    /// where they are.
    fn decide(&self, alloc: Global, a: &Element, b: &Element) -> Result<Verdict, DecideFault>
        requires shape { b.now.shape ≡ a.now.shape }
        ensures decided { IfOk result (IsDecided a.now.shape (expansions self.now) a.now.rows b.now.rows) }
        ensures first { IsErrOf result (Budget First) → IsOverBudget a.now.shape (expansions self.now) a.now.rows }
        ensures second { IsErrOf result (Budget Second) → FitsBudget a.now.shape (expansions self.now) a.now.rows × IsOverBudget a.now.shape (expansions self.now) b.now.rows };
}
