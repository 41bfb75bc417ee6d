//! Powers of infinite parts, with the sign plus and with minus.
ghost use Rattle.std.specs.Prelude.{◌≡◌, ◌≤◌, ◌<◌, ◌^◌, IsTrue, IsFalse};
ghost use Rattle.ht_pair.specs.PowerRule.{BothInfinite};
ghost use Rattle.ht_power.specs.RatesTold.{AreRates};
ghost use Rattle.ht_power.specs.SignsTold.{HasFitParts, SomeRates, TellsRatio, TellsSign, TellsTried, TellsWhole, over_in, over_behind_in};
ghost use Rattle.ht_power.specs.Told.{sign_of, AnswersOf, Tells};

use crate::PowerFault;
use crate::rates::{Rates, rates_of};
use crate::trial::{Sign, trial};
use ht_num::{lcm, ratio, times};
use ht_pair::{Decider, PowerVerdict};
use ht_parts::{parts, periodic_order};
use ht_types::Typed;
use std::alloc::Global;

// Whether two elements of infinite order have conjugate powers.
pub(crate) fn infinite_powers<D: Decider>(
    alloc: Global,
    f: &Typed,
    g: &Typed,
    decider: &D,
) -> Result<PowerVerdict, PowerFault>
    requires shape { g.now.element.shape ≡ f.now.element.shape }
    requires infinite { BothInfinite f.now.element.shape f.now.element.rows g.now.element.rows f.now.quasi.basis.words g.now.quasi.basis.words }
    requires first_fits { HasFitParts (D.expansions decider.now) f.now }
    requires second_fits { HasFitParts (D.expansions decider.now) g.now }
    ensures { Tells (AnswersOf f.now g.now) result }
{
    let Some(rates) = rates_of(f, g) else {
        return Err(PowerFault::Wide);
    };
    if let Some(found) = sign_powers(alloc, f, g, Sign::Plus, &rates, decider)? {
        return Ok(found);
    }
    if let Some(found) = sign_powers(alloc, f, g, Sign::Minus, &rates, decider)? {
        return Ok(found);
    }
    Ok(PowerVerdict::None)
}

// The powers with the sign, where the rates of both have one ratio and the powers of the infinite parts by it
// are conjugate.
fn sign_powers<D: Decider>(
    alloc: Global,
    f: &Typed,
    g: &Typed,
    sign: Sign,
    rates: &Rates,
    decider: &D,
) -> Result<Option<PowerVerdict>, PowerFault>
    requires shape { g.now.element.shape ≡ f.now.element.shape }
    requires rates { AreRates f.now g.now rates.now }
    requires infinite { BothInfinite f.now.element.shape f.now.element.rows g.now.element.rows f.now.quasi.basis.words g.now.quasi.basis.words }
    requires first_fits { HasFitParts (D.expansions decider.now) f.now }
    requires second_fits { HasFitParts (D.expansions decider.now) g.now }
    ensures { TellsSign f.now g.now (sign_of sign) rates.now result }
{
    f.keeps_kinds();
    g.keeps_kinds();
    let Some((p, q)) = ratio_in(sign, rates) else {
        return Ok(None);
    };
    let Some(i) = times(p, rates.period) else {
        return Err(PowerFault::Wide);
    };
    let Some(j) = times(q, rates.period) else {
        return Err(PowerFault::Wide);
    };
    tried_powers(alloc, f, g, sign, i, j, decider)
}

// The ratio of the rates, in lowest terms: of the second at its attractors, or with the sign minus at its
// repellers, to the first at its attractors. `None` exactly where that at the first's repellers is another.
fn ratio_in(sign: Sign, rates: &Rates) -> Option<(u128, u128)>
    requires { SomeRates rates.now }
    ensures { TellsRatio (sign_of sign) rates.now result }
{
    let (ahead, behind) = over(sign, rates);
    let (p, q) = ratio(ahead, rates.first_ahead);
    let (other_p, other_q) = ratio(behind, rates.first_behind);
    if p == other_p && q == other_q {
        Some((p, q))
    } else {
        None
    }
}

// The rates of the second element at its attractors and at its repellers; with the sign minus the other way round.
fn over(sign: Sign, rates: &Rates) -> (u128, u128)
    ensures ahead { result.0 ≡ over_in (sign_of sign) rates.now }
    ensures behind { result.1 ≡ over_behind_in (sign_of sign) rates.now }
{
    match sign {
        Sign::Plus => (rates.second_ahead, rates.second_behind),
        Sign::Minus => (rates.second_behind, rates.second_ahead),
    }
}

// The powers of the infinite parts by i and by j, with the sign, are compared; where they are conjugate so are
// the powers of the elements by these numbers times the common order of the periodic parts.
fn tried_powers<D: Decider>(
    alloc: Global,
    f: &Typed,
    g: &Typed,
    sign: Sign,
    i: u128,
    j: u128,
    decider: &D,
) -> Result<Option<PowerVerdict>, PowerFault>
    requires shape { g.now.element.shape ≡ f.now.element.shape }
    requires first { (1 ≤ i) × (i < 2 ^ 127) }
    requires second { (1 ≤ j) × (j < 2 ^ 127) }
    requires first_fits { HasFitParts (D.expansions decider.now) f.now }
    requires second_fits { HasFitParts (D.expansions decider.now) g.now }
    ensures { TellsTried f.now g.now (sign_of sign) i j result }
{
    f.keeps_kinds();
    g.keeps_kinds();
    let (_, a) = parts(alloc, f)?;
    let (_, b) = parts(alloc, g)?;
    let Some(by) = trial(alloc, &a, &b, sign, i, j, decider)? else {
        return Ok(None);
    };
    let Some((i, j)) = whole(f, g, i, j) else {
        return Err(PowerFault::Wide);
    };
    let (i, j) = (i as i128, sign.of(j));
    Ok(Some(PowerVerdict::Powers { i, j, by }))
}

// Both numbers times the least common multiple of the two periodic orders; `None` exactly where that or a
// product exceeds 2^127-1.
fn whole(f: &Typed, g: &Typed, i: u128, j: u128) -> Option<(u128, u128)>
    requires shape { g.now.element.shape ≡ f.now.element.shape }
    requires first { i < 2 ^ 127 }
    requires second { j < 2 ^ 127 }
    ensures { TellsWhole f.now g.now i j result }
{
    let first = periodic_order(f);
    let second = periodic_order(g);
    let order = lcm(first?, second?)?;
    Some((times(i, order)?, times(j, order)?))
}
