//! The two parts of an element.
ghost use Rattle.std.specs.Prelude.{◌≡◌, ◌≤◌, ℕ, IfOk, IsErrOf};
ghost use Rattle.ht_ask.specs.declared.parts.PartsFault.TheVariants as fault;
ghost use Rattle.ht_pair.specs.Budgets.{IsOverBudget};
ghost use Rattle.ht_ask.specs.PartAnswers.{ArePartsOf, HasLargePart};

use ht_pair::{Element, OpFault};
use ht_parts::parts;
use ht_quasi::QuasiFault;
use ht_types::typed_within;
use std::alloc::Global;
use thiserror::Error;

/// Why an element's parts were not made.
#[derive(Clone, Copy, Debug, PartialEq, Eq, Error)]
pub enum PartsFault {
    /// Its quasinormal basis takes more expansions than the budget has.
    #[error("the quasinormal basis takes more expansions than the budget")]
    Budget,
    /// One of them is large: the first such one's number of rows, and the letters of its longest
    /// word.
    #[error("a part has {rows} rows and words of {letters} letters")]
    Large { rows: usize, letters: usize },
    /// No memory was found.
    #[error("out of memory")]
    NoMemory,
}

/// The periodic and the infinite part of the element. The budget is in expansions of the roots. Takes
/// as long as finding the quasinormal basis (`quasinormal`) and the kinds of its words (`types`), and
/// the sorting of the rows of both parts.
pub fn parts_of(
    alloc: Global,
    element: &Element,
    budget: u32,
) -> Result<(Element, Element), PartsFault>
    requires { budget ≤ 65536 }
    ensures shapes { IfOk result (λ both. (both.0.shape ≡ element.now.shape) × (both.1.shape ≡ element.now.shape)) }
    ensures parts { IfOk result (λ both. ArePartsOf element.now.shape budget element.now.rows both.0.rows both.1.rows) }
    ensures over { IsErrOf result fault.Budget → IsOverBudget element.now.shape budget element.now.rows }
    ensures large { (rows letters : ℕ) → IsErrOf result (fault.Large rows letters) → HasLargePart element.now.shape budget element.now.rows rows letters }
{
    match typed_within(alloc, element, budget) {
        Ok(typed) => match parts(alloc, &typed) {
            Ok((first, second)) => {
                first.keeps_limits();
                second.keeps_limits();
                Ok((first, second))
            }
            Err(OpFault::Large { rows, letters }) => Err(PartsFault::Large { rows, letters }),
            Err(OpFault::NoMemory) => Err(PartsFault::NoMemory),
        },
        Err(QuasiFault::Budget) => Err(PartsFault::Budget),
        Err(QuasiFault::NoMemory) => Err(PartsFault::NoMemory),
    }
}
