//! Powers.
ghost use Rattle.std.specs.Prelude.{◌≡◌, ◌≤◌, ◌/◌, ◌%◌, ℕ, pos, neg_ℤ, IfOk, OnOk, IsErrOf};
ghost use Rattle.ht_num.specs.Chains.{chain, doubled};
ghost use Rattle.ht_pair.specs.Elements.{IsElement};
ghost use Rattle.ht_pair.specs.PowerSizes.{Plus, Minus, IsFirstLarge, IsLargePower, NoneLarge};
ghost use Rattle.ht_pair.specs.Products.{IsPower};
ghost use Rattle.ht_pair.specs.declared.fault.OpFault.TheVariants as op_fault;

use crate::{inverse, product};
use ht_pair::{Element, OpFault};
use std::alloc::Global;

/// The k-th power: k times the element, for k below 0 the inverse, and for 0 the identity. It is
/// made over the powers by the chain of |k|: 1, and for each further binary digit twice the number
/// before and, with the digit 1, the number after that. `Large` comes where one of these powers is
/// larger than an element may be, with the numbers of the first such. One product for each number
/// of the chain behind 1, so at most 252.
pub fn power(alloc: Global, a: &Element, k: i128) -> Result<Element, OpFault>
    ensures power { IfOk result (λ s. (s.shape ≡ a.now.shape) × IsPower a.now.shape a.now.rows k s.rows) }
    ensures kept { OnOk result ((rows letters : ℕ) → ¬ IsLargePower a.now.shape a.now.rows k rows letters) }
    ensures large { (rows letters : ℕ) → IsErrOf result (op_fault.Large rows letters) → IsLargePower a.now.shape a.now.rows k rows letters }
{
    a.keeps_limits();
    if k < 0 {
        return power_down(alloc, a, k.unsigned_abs());
    }
    if k == 0 {
        return Ok(Element::identity(alloc, a.shape())?);
    }
    if k == 1 {
        return Ok(a.copy(alloc)?);
    }
    power_up(alloc, a, k as u128)
}

// The power -k.
fn power_down(alloc: Global, a: &Element, k: u128) -> Result<Element, OpFault>
    requires low { 1 ≤ k }
    requires element { IsElement a.now.shape a.now.rows }
    ensures power { IfOk result (λ s. (s.shape ≡ a.now.shape) × IsPower a.now.shape a.now.rows (neg_ℤ (pos k)) s.rows) }
    ensures kept { OnOk result (NoneLarge a.now.shape a.now.rows Minus k) }
    ensures large { (rows letters : ℕ) → IsErrOf result (op_fault.Large rows letters) → IsFirstLarge a.now.shape a.now.rows Minus (chain k) rows letters }
{
    let base = inverse(alloc, a)?;
    base.keeps_limits();
    if k == 1 {
        return Ok(base);
    }
    power_up(alloc, &base, k)
}

// The power k, over that of the half of k.
fn power_up(alloc: Global, a: &Element, k: u128) -> Result<Element, OpFault>
    requires low { 2 ≤ k }
    requires element { IsElement a.now.shape a.now.rows }
    ensures power { IfOk result (λ s. (s.shape ≡ a.now.shape) × IsPower a.now.shape a.now.rows (pos k) s.rows) }
    ensures kept { OnOk result (NoneLarge a.now.shape a.now.rows Plus k) }
    ensures large { (rows letters : ℕ) → IsErrOf result (op_fault.Large rows letters) → IsFirstLarge a.now.shape a.now.rows Plus (chain k) rows letters }
{
    if k < 4 {
        return power_over(alloc, a, a, k);
    }
    let half = power_up(alloc, a, k / 2)?;
    power_over(alloc, a, &half, k)
}

// The power k, from that of the half of k: the square, and where k is odd then the element.
fn power_over(alloc: Global, a: &Element, half: &Element, k: u128) -> Result<Element, OpFault>
    requires shape { a.now.shape ≡ half.now.shape }
    requires element { IsElement a.now.shape a.now.rows }
    requires half { IsPower a.now.shape a.now.rows (pos (k / 2)) half.now.rows }
    ensures power { IfOk result (λ s. (s.shape ≡ a.now.shape) × IsPower a.now.shape a.now.rows (pos k) s.rows) }
    ensures kept { OnOk result ((rows letters : ℕ) → ¬ IsFirstLarge a.now.shape a.now.rows Plus (doubled (k / 2) (k % 2)) rows letters) }
    ensures large { (rows letters : ℕ) → IsErrOf result (op_fault.Large rows letters) → IsFirstLarge a.now.shape a.now.rows Plus (doubled (k / 2) (k % 2)) rows letters }
{
    let twice = product(alloc, half, half)?;
    if k % 2 == 0 {
        return Ok(twice);
    }
    product(alloc, &twice, a)
}
