//! Inverses.
ghost use Rattle.std.specs.Prelude.{◌≡◌, pos, neg_ℤ, IfOk};
ghost use Rattle.ht_pair.specs.Pairs.{turned};
ghost use Rattle.ht_pair.specs.Products.{IsPower};
ghost use Rattle.ht_pair.specs.declared.fault.OpFault.TheVariants as op_fault;

use ht_pair::{Element, OpFault, Row, Rows, sort_pair};
use ht_word::NoMemory;
use std::alloc::Global;

/// The inverse. It has as many rows as the element, and as long words. Copies the N rows, and sorts
/// them by O(N log N) comparisons of words.
pub fn inverse(alloc: Global, a: &Element) -> Result<Element, NoMemory>
    ensures { IfOk result (λ s. (s.shape ≡ a.now.shape) × IsPower a.now.shape a.now.rows (neg_ℤ (pos 1)) s.rows) }
{
    let shape = a.shape();
    let rows = turned_rows(alloc, a.rows(alloc)?)?;
    let sorted = sort_pair(shape, rows)?;
    match Element::of_pair(alloc, shape, sorted) {
        Ok(element) => Ok(element),
        Err(fault) => Err(no_memory(fault)),
    }
}

// Each row turned round. One pass over the rows; no word is copied.
fn turned_rows(alloc: Global, rows: Rows) -> Result<Rows, NoMemory>
    ensures { IfOk result (λ t. t ≡ turned rows) }
{
    let mut turned = Rows::new(alloc);
    for row in rows.into_vec() {
        let Row { from, to } = row;
        turned.push(Row { from: to, to: from })?;
    }
    Ok(turned)
}

// The turned rows of an element are a pair within the limits, so only memory can be wanting.
fn no_memory(fault: OpFault) -> NoMemory
    requires { fault ≡ op_fault.NoMemory }
{
    match fault {
        OpFault::NoMemory => NoMemory,
        OpFault::Large { .. } => unreachable!(),
    }
}
