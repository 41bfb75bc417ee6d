//! Whether two elements have conjugate powers.
ghost use Rattle.std.specs.Prelude.{◌≡◌, ◌≤◌, IfOk};
ghost use Rattle.ht_pair.specs.PowerRule.{PowerRule};
ghost use Rattle.ht_pair.specs.PowerVerdicts.{IsPowerVerdict};
ghost use Rattle.ht_power.specs.SignsTold.{HasFitParts};
ghost use Rattle.ht_power.specs.Told.{AnswersOf, HasFitPowers, Tells, TellsBasis};

use crate::PowerFault;
use crate::finite::finite_powers;
use crate::signs::infinite_powers;
use ht_pair::{Decider, Element, PowerVerdict, Which};
use ht_parts::is_periodic;
use ht_quasi::QuasiFault;
use ht_types::{Typed, typed_within};
use std::alloc::Global;

/// Whether two elements of one shape have conjugate powers that aren't the identity: such powers with the
/// canonical rows of a conjugator, or `None` exactly where there are none, of any exponents. The powers
/// are this project's own choice; the first refusal in the order of the steps ends them:
///
/// 1. The quasinormal basis of the first, then that of the second (`Budget`).
/// 2. Where one element has finite order and the other infinite, there are none.
/// 3. Where both have finite order, the orders over each d from 2 to the shorter of the two longest
///    cycles that divides both orders, in ascending order: `Wide` for the orders, `Large` for the powers.
/// 4. Where both have infinite order, first with the sign plus and then with minus: the ratio p/q of
///    their rates, where it is one at attractors and at repellers, times their common period (`Wide`),
///    as exponents of the infinite parts (`Large` for the parts, then the powers); where these powers are
///    conjugate, times the common order of the periodic parts (`Wide`).
///
/// Takes as long as finding both bases and the kinds of their words, the powers (`power`; for finite
/// orders a few passes over the words for each binary digit of an exponent), and a decision of the
/// decider for each prime d, or each of the two signs.
pub fn power_conjugate<D: Decider>(
    alloc: Global,
    a: &Element,
    b: &Element,
    decider: &D,
) -> Result<PowerVerdict, PowerFault>
    requires shape { b.now.shape ≡ a.now.shape }
    ensures rule { Tells (PowerRule a.now.shape a.now.rows b.now.rows (D.expansions decider.now)) result }
    ensures verdict { IfOk result (IsPowerVerdict a.now.shape a.now.rows b.now.rows) }
{
    let f = basis_of(alloc, a, decider.budget(), Which::First)?;
    let g = basis_of(alloc, b, decider.budget(), Which::Second)?;
    powers_by_bases(alloc, &f, &g, decider)
}

// Whether two elements have conjugate powers, once both bases are at hand.
fn powers_by_bases<D: Decider>(
    alloc: Global,
    f: &Typed,
    g: &Typed,
    decider: &D,
) -> Result<PowerVerdict, PowerFault>
    requires shape { g.now.element.shape ≡ f.now.element.shape }
    requires first { HasFitPowers f.now.element.shape (D.expansions decider.now) f.now.element.rows }
    requires first_parts { HasFitParts (D.expansions decider.now) f.now }
    requires second { HasFitPowers g.now.element.shape (D.expansions decider.now) g.now.element.rows }
    requires second_parts { HasFitParts (D.expansions decider.now) g.now }
    ensures { Tells (AnswersOf f.now g.now) result }
{
    if is_periodic(f) {
        if is_periodic(g) {
            finite_powers(alloc, f, g, decider)
        } else {
            Ok(PowerVerdict::None)
        }
    } else if is_periodic(g) {
        Ok(PowerVerdict::None)
    } else {
        infinite_powers(alloc, f, g, decider)
    }
}

// The element with its quasinormal basis and the kinds of its words.
fn basis_of(
    alloc: Global,
    element: &Element,
    budget: u32,
    which: Which,
) -> Result<Typed, PowerFault>
    requires { budget ≤ 65536 }
    ensures { TellsBasis element.now budget which result }
{
    match typed_within(alloc, element, budget) {
        Ok(typed) => Ok(typed),
        Err(QuasiFault::Budget) => Err(PowerFault::Budget(which)),
        Err(QuasiFault::NoMemory) => Err(PowerFault::NoMemory),
    }
}
