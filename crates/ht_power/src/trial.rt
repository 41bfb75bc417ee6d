//! Two powers made and compared.
ghost use Rattle.std.specs.Prelude.{◌≡◌, ◌≤◌, ◌<◌, ◌^◌, ℕ, pos, IfOk, IsErrOf};
ghost use Rattle.ht_pair.specs.PowerSizes.{signed};
ghost use Rattle.ht_power.specs.Told.{sign_of, HasFitPowers, IsFit, TellsPowers, TellsConjugator, TellsTrial};

use crate::PowerFault;
use ht_ops::power;
use ht_pair::{DecideFault, Decider, Element, Rows, Verdict};
use ht_word::NoMemory;
use std::alloc::Global;

// Whether the exponent of the second element is taken as it is, or turned.
#[derive(Clone, Copy, Debug)]
pub(crate) enum Sign {
    Plus,
    Minus,
}

impl Sign {
    // The exponent with the sign.
    pub(crate) fn of(self, k: u128) -> i128
        requires { k < 2 ^ 127 }
        ensures { result ≡ signed (sign_of self) k }
    {
        match self {
            Sign::Plus => k as i128,
            Sign::Minus => -(k as i128),
        }
    }
}

// The i-th power of the one element and the j-th of the other, with the sign.
pub(crate) fn powers(
    alloc: Global,
    a: &Element,
    b: &Element,
    sign: Sign,
    i: u128,
    j: u128,
) -> Result<(Element, Element), PowerFault>
    requires shape { b.now.shape ≡ a.now.shape }
    requires first { (1 ≤ i) × (i < 2 ^ 127) }
    requires second { (1 ≤ j) × (j < 2 ^ 127) }
    ensures shapes { IfOk result (λ both. (both.0.shape ≡ a.now.shape) × (both.1.shape ≡ b.now.shape)) }
    ensures powers { TellsPowers a.now b.now (sign_of sign) i j result }
{
    let first = power(alloc, a, i as i128)?;
    let second = power(alloc, b, sign.of(j))?;
    Ok((first, second))
}

// The canonical rows of a normal conjugator of two elements that fit the decider's budget; `None` exactly
// where they aren't conjugate.
pub(crate) fn conjugator<D: Decider>(
    alloc: Global,
    a: &Element,
    b: &Element,
    decider: &D,
) -> Result<Option<Rows>, NoMemory>
    requires shape { b.now.shape ≡ a.now.shape }
    requires first { IsFit a.now.shape (D.expansions decider.now) a.now.rows }
    requires second { IsFit b.now.shape (D.expansions decider.now) b.now.rows }
    ensures { IfOk result (TellsConjugator a.now.shape a.now.rows b.now.rows) }
{
    match decider.decide(alloc, a, b) {
        Ok(Verdict::Conjugate(rows)) => Ok(Some(rows)),
        Ok(Verdict::NotConjugate) => Ok(None),
        Err(DecideFault::Budget(_)) => unreachable!(),
        Err(DecideFault::NoMemory) => Err(NoMemory),
    }
}

// The canonical rows of a normal conjugator of the i-th power of the one element into the j-th of the other,
// with the sign; `None` exactly where the powers aren't conjugate.
pub(crate) fn trial<D: Decider>(
    alloc: Global,
    a: &Element,
    b: &Element,
    sign: Sign,
    i: u128,
    j: u128,
    decider: &D,
) -> Result<Option<Rows>, PowerFault>
    requires shape { b.now.shape ≡ a.now.shape }
    requires first { (1 ≤ i) × (i < 2 ^ 127) }
    requires second { (1 ≤ j) × (j < 2 ^ 127) }
    requires first_fits { HasFitPowers a.now.shape (D.expansions decider.now) a.now.rows }
    requires second_fits { HasFitPowers b.now.shape (D.expansions decider.now) b.now.rows }
    ensures { TellsTrial a.now.shape a.now.rows b.now.rows (sign_of sign) i j result }
{
    let (first, second) = powers(alloc, a, b, sign, i, j)?;
    let rows = conjugator(alloc, &first, &second, decider)?;
    Ok(rows)
}
