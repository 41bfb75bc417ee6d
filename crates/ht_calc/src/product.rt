//! Products of powers of bound elements.
ghost use Rattle.std.specs.Prelude.{◌≡◌, ◌↔◌, ℕ, List, IsTrue, IfOk, OnOk, IsErrOf, MatchOption};
ghost use Rattle.ht_word.specs.declared.shape.Shape.{Shape};
ghost use Rattle.ht_pair.specs.PowerSizes.{IsLargePower};
ghost use Rattle.ht_pair.specs.declared.fault.OpFault.TheVariants as op_fault;
ghost use Rattle.ht_script.specs.declared.factor.Exponent.TheVariants as exponent;
ghost use Rattle.ht_calc.specs.Names.{AreBound, IsFirstUnbound};
ghost use Rattle.ht_calc.specs.Products.{Term, names_of, HasWide, IsProductOf, IsLargeProduct};
ghost use Rattle.ht_calc.specs.Terms.{IsTermOf, AreTermsOf, HasTerm, IsRaised, IsRaisedBehind, IsLargeNext};

use crate::bindings::Bindings;
use ht_ops::{power, product};
use ht_pair::{Element, OpFault};
use ht_script::{Exponent, Factor};
use ht_word::{Name, Shape};
use std::alloc::Global;

// The name of the first factor whose name isn't bound. One look-up for each factor.
pub(crate) fn first_unbound<'a>(names: &Bindings, factors: &'a [Factor]) -> Option<&'a Name>
    ensures { MatchOption result (AreBound names.now (names_of factors.now)) (λ name. IsFirstUnbound names.now (names_of factors.now) name.now) }
{
    for factor in factors {
        if names.get(&factor.name).is_none() {
            return Some(&factor.name);
        }
    }
    None
}

// Whether an exponent is wide. One pass over the factors.
pub(crate) fn has_wide(factors: &[Factor]) -> bool
    ensures { IsTrue result ↔ HasWide factors.now }
{
    factors.iter().any(|factor| is_wide(factor))
}

fn is_wide(factor: &Factor) -> bool
    ensures { IsTrue result ↔ (factor.now.exponent ≡ exponent.Wide) }
{
    matches!(factor.exponent, Exponent::Wide)
}

/// The product of the factors' powers, from left to right; the identity where there are none.
/// `Large` comes where an element that is made on the way is large. Takes one power for each
/// factor, and one product for each factor but the first.
pub(crate) fn product_of(
    alloc: Global,
    shape: Shape,
    names: &Bindings,
    factors: &[Factor],
) -> Result<Element, OpFault>
    requires { (terms : List Term) × AreTermsOf shape names.now factors.now terms }
    ensures product { (terms : List Term) → AreTermsOf shape names.now factors.now terms → IfOk result (λ s. (s.shape ≡ shape) × IsProductOf shape terms s.rows) }
    ensures kept { (terms : List Term) → AreTermsOf shape names.now factors.now terms → OnOk result ((i j : ℕ) → ¬ IsLargeProduct shape terms i j) }
    ensures large { (terms : List Term) (rows letters : ℕ) → AreTermsOf shape names.now factors.now terms → IsErrOf result (op_fault.Large rows letters) → IsLargeProduct shape terms rows letters }
{
    let Some((first, others)) = factors.split_first() else {
        return Ok(Element::identity(alloc, shape)?);
    };
    let mut so_far = power_of(alloc, names, first)?;
    for factor in others {
        so_far = raised_behind(alloc, names, &so_far, factor)?;
    }
    Ok(so_far)
}

// The product so far, and then the factor's power.
fn raised_behind(
    alloc: Global,
    names: &Bindings,
    so_far: &Element,
    factor: &Factor,
) -> Result<Element, OpFault>
    requires { HasTerm so_far.now.shape names.now factor.now }
    ensures next { (term : Term) → IsTermOf so_far.now.shape names.now factor.now term → IfOk result (λ s. (s.shape ≡ so_far.now.shape) × IsRaisedBehind so_far.now.shape so_far.now.rows term s.rows) }
    ensures large { (term : Term) (rows letters : ℕ) → IsTermOf so_far.now.shape names.now factor.now term → IsErrOf result (op_fault.Large rows letters) → IsLargeNext so_far.now.shape so_far.now.rows term rows letters }
{
    let power = power_of(alloc, names, factor)?;
    product(alloc, so_far, &power)
}

// The power of the element that the factor's name is bound to.
fn power_of(alloc: Global, names: &Bindings, factor: &Factor) -> Result<Element, OpFault>
    requires { (shape : Shape) × HasTerm shape names.now factor.now }
    ensures power { (shape : Shape) (term : Term) → IsTermOf shape names.now factor.now term → IfOk result (λ s. (s.shape ≡ shape) × IsRaised shape term s.rows) }
    ensures large { (shape : Shape) (term : Term) (rows letters : ℕ) → IsTermOf shape names.now factor.now term → IsErrOf result (op_fault.Large rows letters) → IsLargePower shape term.rows term.exponent rows letters }
{
    let Some(element) = names.get(&factor.name) else {
        unreachable!()
    };
    let Exponent::Fits(k) = factor.exponent else {
        unreachable!()
    };
    power(alloc, element, k)
}
