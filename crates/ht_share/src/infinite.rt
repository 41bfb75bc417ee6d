//! Words under the infinite part that share an orbit.
ghost use Rattle.std.specs.Prelude.{◌≡◌, ◌<◌, ◌^◌, ◌↔◌, ℕ, ℤ, List, nat_abs, IfOk, IsTrue, MatchOption};
ghost use Rattle.ht_word.specs.Words.{◌·◌, IsLetters, IsWordOf};
ghost use Rattle.ht_pair.specs.Orbits.{ShareOrbit};
ghost use Rattle.ht_types.specs.Flows.{IsUnderInfinite};
ghost use Rattle.ht_types.specs.Shares.{IsShare};
ghost use Rattle.ht_flow.specs.Flowing.{FlowsUnder, IsAddressed};
ghost use Rattle.ht_share.specs.Exits.{AreExits};

use crate::follow::leads_under;
use ht_flow::{Flowed, exit_word, flow};
use ht_types::Typed;
use ht_word::{Letters, NoMemory, Word};
use std::alloc::Global;

// Where a word flows.
#[derive(Drop)]
struct Address {
    at: usize,
    rest: Letters,
    steps: i128,
}

// Reads the one number of steps that can lead from the first word to the second from their addresses,
// and follows the whole first word by so many steps: under the basis they lead to no other word.
pub(crate) fn share_infinite(
    alloc: Global,
    t: &Typed,
    u: &Word,
    v: &Word,
) -> Result<Option<i128>, NoMemory>
    requires first { IsWordOf t.now.element.shape u.now × IsUnderInfinite t.now.element.shape t.now.element.rows t.now.quasi.basis.words u.now }
    requires second { IsWordOf t.now.element.shape v.now × IsUnderInfinite t.now.element.shape t.now.element.rows t.now.quasi.basis.words v.now }
    ensures { IfOk result (IsShare t.now.element.shape t.now.element.rows t.now.quasi.basis.words u.now v.now) }
{
    t.keeps_kinds();
    let Some(k) = only_power(alloc, t, u, v)? else {
        return Ok(None);
    };
    if is_shared(alloc, t, k, u, v)? {
        Ok(Some(k))
    } else {
        Ok(None)
    }
}

// Whether the k-th power, which carries the one word to the other with letters behind both, carries it
// there without them: steps ahead from the one, or from the other where the power is below 0.
fn is_shared(alloc: Global, t: &Typed, k: i128, u: &Word, v: &Word) -> Result<bool, NoMemory>
    requires first { IsWordOf t.now.element.shape u.now × IsUnderInfinite t.now.element.shape t.now.element.rows t.now.quasi.basis.words u.now }
    requires second { IsWordOf t.now.element.shape v.now × IsUnderInfinite t.now.element.shape t.now.element.rows t.now.quasi.basis.words v.now }
    requires few { nat_abs k < 2 ^ 122 }
    requires behind { (z : List ℕ) × ShareOrbit t.now.element.shape t.now.element.rows (u.now · z) (v.now · z) k }
    ensures { IfOk result (λ yes. IsTrue yes ↔ ShareOrbit t.now.element.shape t.now.element.rows u.now v.now k) }
{
    t.keeps_kinds();
    if k < 0 {
        leads_under(alloc, t, k.unsigned_abs(), v)
    } else {
        leads_under(alloc, t, k.unsigned_abs(), u)
    }
}

// The power that carries the first word to the second if any does, and does so with some letters
// behind both; `None` only where none does.
fn only_power(alloc: Global, t: &Typed, u: &Word, v: &Word) -> Result<Option<i128>, NoMemory>
    requires first { IsWordOf t.now.element.shape u.now × IsUnderInfinite t.now.element.shape t.now.element.rows t.now.quasi.basis.words u.now }
    requires second { IsWordOf t.now.element.shape v.now × IsUnderInfinite t.now.element.shape t.now.element.rows t.now.quasi.basis.words v.now }
    ensures { IfOk result (λ found. MatchOption found ((j : ℤ) → ¬ ShareOrbit t.now.element.shape t.now.element.rows u.now v.now j) (λ k. (nat_abs k < 2 ^ 122) × ((j : ℤ) → ShareOrbit t.now.element.shape t.now.element.rows u.now v.now j → j ≡ k) × (z : List ℕ) × ShareOrbit t.now.element.shape t.now.element.rows (u.now · z) (v.now · z) k)) }
{
    t.keeps_kinds();
    let exit = exit_of_both(alloc, t, u, v)?;
    let first = address_behind(alloc, t, u, &exit)?;
    let second = address_behind(alloc, t, v, &exit)?;
    if first.at != second.at || first.rest.as_slice() != second.rest.as_slice() {
        return Ok(None);
    }
    Ok(Some(first.steps - second.steps))
}

// Letters with which both words flow to addresses.
fn exit_of_both(alloc: Global, t: &Typed, u: &Word, v: &Word) -> Result<Letters, NoMemory>
    requires first { IsWordOf t.now.element.shape u.now × IsUnderInfinite t.now.element.shape t.now.element.rows t.now.quasi.basis.words u.now }
    requires second { IsWordOf t.now.element.shape v.now × IsUnderInfinite t.now.element.shape t.now.element.rows t.now.quasi.basis.words v.now }
    ensures { IfOk result (AreExits t.now.element.shape t.now.element.rows t.now.quasi.basis.words u.now v.now) }
{
    let mut exit = exit_word(alloc, t, u)?;
    let longer = v.joined(alloc, exit.as_slice())?;
    let more = exit_word(alloc, t, &longer)?;
    exit.extend(more.as_slice())?;
    Ok(exit)
}

// The address of the word with the letters behind it.
fn address_behind(
    alloc: Global,
    t: &Typed,
    word: &Word,
    exit: &Letters,
) -> Result<Address, NoMemory>
    requires word { IsWordOf t.now.element.shape word.now }
    requires infinite { IsUnderInfinite t.now.element.shape t.now.element.rows t.now.quasi.basis.words word.now }
    requires letters { IsLetters t.now.element.shape exit.now }
    requires flows { FlowsUnder t.now.element.shape t.now.element.rows t.now.quasi.basis.words (word.now · exit.now) }
    ensures { IfOk result (λ address. IsAddressed t.now.element.shape t.now.element.rows t.now.quasi.basis.words (word.now · exit.now) address.at address.rest address.steps) }
{
    let longer = word.joined(alloc, exit.as_slice())?;
    let Flowed::Address { at, rest, steps } = flow(alloc, t, &longer)? else {
        unreachable!()
    };
    Ok(Address { at, rest, steps })
}
