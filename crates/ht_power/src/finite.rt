//! Powers of elements of finite order.
ghost use Rattle.std.specs.Prelude.{◌≡◌, ◌≤◌, ◌<◌, ◌^◌, ℕ, All, AllPairs, IsTrue, Contains};
ghost use Rattle.std.specs.Int.{◌∣◌};
ghost use Rattle.ht_pair.specs.FiniteTrials.{FiniteTrials};
ghost use Rattle.ht_power.specs.Told.{AnswersOf, HasFitPowers, Tells};
ghost use Rattle.ht_power.specs.CyclePowers.{IsFinite};
ghost use Rattle.ht_power.specs.FiniteOrders.{AreTrialDivisors};

use crate::PowerFault;
use crate::cycles::cycle_powers;
use crate::divisors::{divisors, longest_cycle};
use crate::trial::conjugator;
use ht_num::gcd;
use ht_pair::{Decider, PowerVerdict};
use ht_parts::periodic_order;
use ht_types::Typed;
use std::alloc::Global;

// Whether two elements of finite order have conjugate powers that aren't the identity.
pub(crate) fn finite_powers<D: Decider>(
    alloc: Global,
    f: &Typed,
    g: &Typed,
    decider: &D,
) -> Result<PowerVerdict, PowerFault>
    requires shape { g.now.element.shape ≡ f.now.element.shape }
    requires first { IsFinite f.now }
    requires second { IsFinite g.now }
    requires first_fits { HasFitPowers f.now.element.shape (D.expansions decider.now) f.now.element.rows }
    requires second_fits { HasFitPowers g.now.element.shape (D.expansions decider.now) g.now.element.rows }
    ensures { Tells (AnswersOf f.now g.now) result }
{
    f.keeps_kinds();
    g.keeps_kinds();
    let (Some(first), Some(second)) = (periodic_order(f), periodic_order(g)) else {
        return Err(PowerFault::Wide);
    };
    let most = longest_cycle(f).min(longest_cycle(g));
    let tried = divisors(alloc, gcd(first, second), most)?;
    trials(alloc, f, g, first, second, tried.as_slice(), decider)
}

// Tries the powers by the orders over each divisor. A power of powers that aren't conjugate is made, as it
// may be large, but not compared.
fn trials<D: Decider>(
    alloc: Global,
    f: &Typed,
    g: &Typed,
    first: u128,
    second: u128,
    tried: &[u128],
    decider: &D,
) -> Result<PowerVerdict, PowerFault>
    requires shape { g.now.element.shape ≡ f.now.element.shape }
    requires finite { IsFinite f.now × IsFinite g.now }
    requires orders { (1 ≤ first) × (first < 2 ^ 127) × (1 ≤ second) × (second < 2 ^ 127) }
    requires divide { AreTrialDivisors first second tried.now }
    requires first_fits { HasFitPowers f.now.element.shape (D.expansions decider.now) f.now.element.rows }
    requires second_fits { HasFitPowers g.now.element.shape (D.expansions decider.now) g.now.element.rows }
    ensures { Tells (FiniteTrials f.now.element.shape f.now.element.rows g.now.element.rows first second tried.now) result }
{
    f.keeps_kinds();
    g.keeps_kinds();
    for (index, d) in tried.iter().enumerate() {
        let i = first / *d;
        let j = second / *d;
        let (a, b) = cycle_powers(alloc, f, g, i, j)?;
        if some_divides(&tried[..index], *d) {
            continue;
        }
        if let Some(by) = conjugator(alloc, &a, &b, decider)? {
            let (i, j) = (i as i128, j as i128);
            return Ok(PowerVerdict::Powers { i, j, by });
        }
    }
    Ok(PowerVerdict::None)
}

// Whether one of the numbers divides k. One pass; takes no memory.
fn some_divides(numbers: &[u128], k: u128) -> bool
    requires { All (λ d. 1 ≤ d) numbers.now }
    ensures { IsTrue result → (d : ℕ) × Contains numbers.now d × (d ∣ k) }
{
    for d in numbers {
        if k % *d == 0 {
            return true;
        }
    }
    false
}
