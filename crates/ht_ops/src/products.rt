//! Products.
ghost use Rattle.std.specs.Prelude.{◌≡◌, ℕ, List, IfOk, OnOk, IsErrOf};
ghost use Rattle.ht_pair.specs.declared.row.Row.{Row};
ghost use Rattle.ht_pair.specs.Pairs.{IsPair};
ghost use Rattle.ht_pair.specs.Sizes.{IsLarge};
ghost use Rattle.ht_pair.specs.Products.{IsProduct};
ghost use Rattle.ht_pair.specs.declared.fault.OpFault.TheVariants as op_fault;
ghost use Rattle.ht_ops.specs.Blocks.{IsFullProduct};

use crate::full::full_product;
use ht_pair::{Element, OpFault, Rows};
use ht_word::NoMemory;
use std::alloc::Global;

/// The product: the first element, and then the second. `Large` comes where its canonical pair is
/// larger than an element may be. From M and N rows it makes at most M + N rows by O(M log N + N)
/// comparisons of words, in order, and goes over their letters once.
pub fn product(alloc: Global, a: &Element, b: &Element) -> Result<Element, OpFault>
    requires { a.now.shape ≡ b.now.shape }
    ensures product { IfOk result (λ s. (s.shape ≡ a.now.shape) × IsProduct a.now.shape a.now.rows b.now.rows s.rows) }
    ensures kept { OnOk result ((s : List Row) (rows letters : ℕ) → IsProduct a.now.shape a.now.rows b.now.rows s → ¬ IsLarge a.now.shape s rows letters) }
    ensures large { (rows letters : ℕ) → IsErrOf result (op_fault.Large rows letters) → (s : List Row) × IsProduct a.now.shape a.now.rows b.now.rows s × IsLarge a.now.shape s rows letters }
{
    let rows = product_rows(alloc, a, b)?;
    Element::of_pair(alloc, a.shape(), rows)
}

// Rows of the product, in order and not reduced.
fn product_rows(alloc: Global, a: &Element, b: &Element) -> Result<Rows, NoMemory>
    requires { a.now.shape ≡ b.now.shape }
    ensures product { IfOk result (IsFullProduct a.now.shape a.now.rows b.now.rows) }
    ensures first { OnOk result (IsPair a.now.shape a.now.rows) }
    ensures second { OnOk result (IsPair a.now.shape b.now.rows) }
{
    a.keeps_limits();
    b.keeps_limits();
    full_product(alloc, a.shape(), a.as_rows(), b.as_rows())
}
