//! The rows of what one step of an element carries under a basis.
ghost use Rattle.std.specs.Prelude.{◌≡◌, IfOk};
ghost use Rattle.ht_pair.specs.HeldBases.{IsHeldBasis};
ghost use Rattle.ht_quasi.specs.Quasis.{kept, IsYOf};

use ht_ops::full_product;
use ht_pair::{Basis, Element, Row, Rows};
use ht_word::NoMemory;
use std::alloc::Global;

// The rows from each word of the basis to itself. One pass, which copies the words twice.
fn kept_rows(alloc: Global, basis: &Basis) -> Result<Rows, NoMemory>
    ensures rows { IfOk result (λ rows. rows ≡ kept basis.now.words) }
    ensures held { IsHeldBasis basis.now.shape basis.now.words }
{
    let mut rows = Rows::new(alloc);
    for word in basis.words().as_slice() {
        let from = word.copy(alloc)?;
        let to = word.copy(alloc)?;
        rows.push(Row { from, to })?;
    }
    Ok(rows)
}

// The rows of the element under the basis on both sides: the words of the basis kept, then the
// element, then the words kept again. From N words and M rows at most 2 N + M rows, by
// O((N + M) log(N + M)) comparisons of words.
pub(crate) fn y_rows(alloc: Global, a: &Element, basis: &Basis) -> Result<Rows, NoMemory>
    requires { a.now.shape ≡ basis.now.shape }
    ensures { IfOk result (IsYOf basis.now.shape a.now.rows basis.now.words) }
{
    a.keeps_limits();
    let kept = kept_rows(alloc, basis)?;
    let common = full_product(alloc, basis.shape(), kept.as_slice(), a.as_rows())?;
    full_product(alloc, basis.shape(), common.as_slice(), kept.as_slice())
}
