//! The quasinormal basis of an element, with what one step does to its words.
ghost use Rattle.std.specs.Prelude.{◌≡◌, ◌≤◌, ◌<◌, ◌+◌, ◌-◌, ◌*◌, ◌^◌, ℕ, List, length, IfOk, IsErrOf};
ghost use Rattle.ht_word.specs.declared.word.Word.{Word};
ghost use Rattle.ht_pair.specs.Bases.{TakesAtMost};
ghost use Rattle.ht_pair.specs.SemiNormal.{IsQuasinormal};
ghost use Rattle.ht_quasi.specs.Quasis.{IsQuasi};

use crate::QuasiFault;
use crate::class::classes_of;
use crate::least::least_basis;
use crate::y::y_rows;
use ht_pair::{Basis, Element, Rows};
use ht_word::List;
use std::alloc::Global;

/// What one step does to a word of a basis.
#[derive(Clone, Copy, Debug, PartialEq, Eq)]
pub enum Class {
    /// The element carries the word to no word under the basis.
    Splits,
    /// The inverse carries the word to no word under the basis.
    Joined,
    /// The element and the inverse carry the word to words under the basis.
    Plain,
}

/// The classes of the words of a basis, in their order.
pub type Classes = List<Class>;

/// A basis, the rows of what one step carries under it, and the classes of its words.
#[derive(Debug, Drop)]
pub struct Quasi {
    pub basis: Basis,
    pub y: Rows,
    pub class: Classes,
}

/// The quasinormal basis of an element, which is the least semi-normal one (Higman 1974, Barker,
/// Duncan and Robertson 2016), the rows of what one step carries under it, and the classes of its
/// words. The budget is in expansions of the roots; `Budget` comes exactly where the basis takes
/// more. A budget of at least (r n^d - r) / (n - 1) is always enough, d the inner nodes of the
/// rows' `from` forest. In rounds, of which there are at most d: each takes O(N log N) comparisons
/// of words for N words and rows, and expands all bad chains at once.
pub fn quasinormal(alloc: Global, a: &Element, budget: u32) -> Result<Quasi, QuasiFault>
    requires { budget ≤ 65536 }
    ensures quasi { IfOk result (λ quasi. (quasi.basis.shape ≡ a.now.shape) × IsQuasi a.now.shape a.now.rows quasi.basis.words quasi.y quasi.class) }
    ensures within { IfOk result (λ quasi. TakesAtMost a.now.shape quasi.basis.words budget) }
    ensures budget { IsErrOf result QuasiFault.Budget → (X : List Word) × IsQuasinormal a.now.shape a.now.rows X × ¬ TakesAtMost a.now.shape X budget }
    ensures enough { IsErrOf result QuasiFault.Budget → (d : ℕ) → length a.now.rows ≡ a.now.shape.r + d * (a.now.shape.n - 1) → budget * (a.now.shape.n - 1) + a.now.shape.r < a.now.shape.r * a.now.shape.n ^ d }
{
    a.keeps_limits();
    let basis = least_basis(alloc, a, budget)?;
    let y = y_rows(alloc, a, &basis)?;
    let class = classes_of(alloc, &basis, y.as_slice())?;
    Ok(Quasi { basis, y, class })
}
