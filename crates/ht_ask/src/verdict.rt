//! Whether two elements are conjugate.
ghost use Rattle.std.specs.Prelude.{◌≡◌, ◌≤◌, IfOk, IsErrOf};
ghost use Rattle.ht_pair.specs.Bases.{TakesAtMost};
ghost use Rattle.ht_pair.specs.Budgets.{FitsBudget, IsOverBudget};
ghost use Rattle.ht_pair.specs.Decisions.{IsDecided};
ghost use Rattle.ht_pair.specs.declared.decider.DecideFault.TheVariants.{Budget};
ghost use Rattle.ht_pair.specs.declared.decider.Which.TheVariants.{First, Second};

use ht_conj::conjugate;
use ht_pair::{DecideFault, Element, Verdict, Which};
use ht_quasi::QuasiFault;
use ht_share::Sharer;
use ht_types::{Typed, typed_within};
use std::alloc::Global;

/// Whether two elements of one shape are conjugate, with the canonical rows of a normal conjugator where
/// they are. The budget is in expansions of the roots. Takes as long as finding both quasinormal bases
/// (`quasinormal`) and the kinds of their words (`types`), and the verdict on them (`conjugate`).
pub fn verdict_of(
    alloc: Global,
    a: &Element,
    b: &Element,
    budget: u32,
) -> Result<Verdict, DecideFault>
    requires budget { budget ≤ 65536 }
    requires shape { b.now.shape ≡ a.now.shape }
    ensures decided { IfOk result (IsDecided a.now.shape budget a.now.rows b.now.rows) }
    ensures first { IsErrOf result (Budget First) → IsOverBudget a.now.shape budget a.now.rows }
    ensures second { IsErrOf result (Budget Second) → FitsBudget a.now.shape budget a.now.rows × IsOverBudget a.now.shape budget b.now.rows }
{
    match typed_within(alloc, a, budget) {
        Ok(f) => match verdict_with(alloc, &f, b, budget) {
            Ok(verdict) => Ok(verdict),
            Err(QuasiFault::Budget) => Err(DecideFault::Budget(Which::Second)),
            Err(QuasiFault::NoMemory) => Err(DecideFault::NoMemory),
        },
        Err(QuasiFault::Budget) => Err(DecideFault::Budget(Which::First)),
        Err(QuasiFault::NoMemory) => Err(DecideFault::NoMemory),
    }
}

// The same where the kinds of the first are known.
fn verdict_with(alloc: Global, f: &Typed, b: &Element, budget: u32) -> Result<Verdict, QuasiFault>
    requires budget { budget ≤ 65536 }
    requires shape { b.now.shape ≡ f.now.element.shape }
    requires within { TakesAtMost f.now.element.shape f.now.quasi.basis.words budget }
    ensures decided { IfOk result (IsDecided f.now.element.shape budget f.now.element.rows b.now.rows) }
    ensures over { IsErrOf result QuasiFault.Budget → IsOverBudget f.now.element.shape budget b.now.rows }
{
    f.keeps_kinds();
    let g = typed_within(alloc, b, budget)?;
    let verdict = conjugate(alloc, f, &g, &Sharer::new(&g))?;
    Ok(verdict)
}
