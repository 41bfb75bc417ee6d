//! Rounds until no bad chain is left.
ghost use Rattle.std.specs.Prelude.{pos, neg_ℤ, ◌≡◌, ◌≤◌, ◌<◌, ◌+◌, ◌-◌, ◌*◌, ◌^◌, ℕ, List, length, IfOk, IsErrOf};
ghost use Rattle.std.specs.List.{count_by};
ghost use Rattle.ht_word.specs.declared.word.Word.{Word};
ghost use Rattle.ht_pair.specs.Bases.{TakesAtMost};
ghost use Rattle.ht_pair.specs.Products.{IsPower};
ghost use Rattle.ht_pair.specs.SemiNormal.{IsQuasinormal};

use crate::QuasiFault;
use crate::chain::bad_places;
use crate::kept::steps_after;
use crate::step::steps;
use ht_ops::inverse;
use ht_pair::{Basis, Element};
use std::alloc::Global;

// The least semi-normal basis, where it takes no more expansions of the roots than the budget. In
// rounds, from the roots on, all words of bad chains give way to their children: none of them is in
// a semi-normal basis. A word is joined exactly where it splits by the inverse. Budget comes exactly
// where the least semi-normal basis takes more, before the round that would take them is made. A
// round is one pass over the basis, and takes O(log N) comparisons of words for each word that is
// new or was carried to or below a word that gave way, for N words and rows; there are no more
// rounds than expansions.
pub(crate) fn least_basis(alloc: Global, a: &Element, budget: u32) -> Result<Basis, QuasiFault>
    requires { budget ≤ 65536 }
    ensures least { IfOk result (λ basis. (basis.shape ≡ a.now.shape) × IsQuasinormal a.now.shape a.now.rows basis.words) }
    ensures within { IfOk result (λ basis. TakesAtMost a.now.shape basis.words budget) }
    ensures budget { IsErrOf result QuasiFault.Budget → (X : List Word) × IsQuasinormal a.now.shape a.now.rows X × ¬ TakesAtMost a.now.shape X budget }
    ensures enough { IsErrOf result QuasiFault.Budget → (d : ℕ) → length a.now.rows ≡ a.now.shape.r + d * (a.now.shape.n - 1) → budget * (a.now.shape.n - 1) + a.now.shape.r < a.now.shape.r * a.now.shape.n ^ d }
{
    let back = inverse(alloc, a)?;
    rounds(alloc, a, &back, budget)
}

// The rounds, with the element and its inverse.
fn rounds(alloc: Global, a: &Element, back: &Element, budget: u32) -> Result<Basis, QuasiFault>
    requires budget { budget ≤ 65536 }
    requires shape { back.now.shape ≡ a.now.shape }
    requires inverse { IsPower a.now.shape a.now.rows (neg_ℤ (pos 1)) back.now.rows }
    ensures least { IfOk result (λ basis. (basis.shape ≡ a.now.shape) × IsQuasinormal a.now.shape a.now.rows basis.words) }
    ensures within { IfOk result (λ basis. TakesAtMost a.now.shape basis.words budget) }
    ensures budget { IsErrOf result QuasiFault.Budget → (X : List Word) × IsQuasinormal a.now.shape a.now.rows X × ¬ TakesAtMost a.now.shape X budget }
    ensures enough { IsErrOf result QuasiFault.Budget → (d : ℕ) → length a.now.rows ≡ a.now.shape.r + d * (a.now.shape.n - 1) → budget * (a.now.shape.n - 1) + a.now.shape.r < a.now.shape.r * a.now.shape.n ^ d }
{
    a.keeps_limits();
    let mut basis = Basis::roots(alloc, a.shape())?;
    let mut ahead = steps(alloc, a, &basis)?;
    let mut behind = steps(alloc, back, &basis)?;
    let mut left = budget as usize;
    'rounds: loop {
        let marks = bad_places(alloc, ahead.as_slice(), behind.as_slice())?;
        let count = count_marks(&marks);
        if count == 0 {
            return Ok(basis);
        }
        if count > left {
            return Err(QuasiFault::Budget);
        }
        basis.expand_all(alloc, &marks)?;
        ahead = steps_after(alloc, a, &basis, ahead.as_slice(), &marks)?;
        behind = steps_after(alloc, back, &basis, behind.as_slice(), &marks)?;
        left -= count;
    }
}

// How many marks are set.
fn count_marks(marks: &[bool]) -> usize
    ensures { result ≡ count_by (λ mark. mark) marks.now }
{
    marks.iter().filter(|mark| **mark).count()
}
