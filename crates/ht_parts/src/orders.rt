//! Whether an element is periodic; its order, and that of its periodic part.
ghost use Rattle.std.specs.Prelude.{◌≡◌, ◌≢◌, ◌<◌, ◌^◌, ◌↔◌, ℕ, List, Some, [], length, slice_get, IsTrue, IsFalse, MatchOption};
ghost use Rattle.ht_num.specs.Numbers.{IsWide};
ghost use Rattle.ht_word.specs.declared.word.Word.{Word};
ghost use Rattle.ht_pair.specs.Kinds.{IsCycleWord};
ghost use Rattle.ht_pair.specs.Orders.{IsPeriodicOrder};
ghost use Rattle.ht_pair.specs.Parts.{IsInfinitePart};
ghost use Rattle.ht_types.specs.KnownOrders.{HasOrder};

use ht_num::lcm;
use ht_types::{Kind, Order, Typed};

/// Whether the infinite part is empty: whether each word of the basis is a cycle word. One pass; takes
/// no memory.
pub fn is_periodic(t: &Typed) -> bool
    ensures empty { IsTrue result ↔ IsInfinitePart t.now.element.shape t.now.element.rows t.now.quasi.basis.words [] }
    ensures some { IsFalse result → (I : List Word) × IsInfinitePart t.now.element.shape t.now.element.rows t.now.quasi.basis.words I × (I ≢ []) }
{
    t.keeps_kinds();
    for place in 0..t.quasi().basis.words().len() {
        if !is_cycle(t, place) {
            return false;
        }
    }
    true
}

/// The order. `Infinite` exactly where the infinite part isn't empty; `Wide` exactly where it is and
/// the order exceeds 2^127-1. At most two passes over the words; takes no memory.
pub fn order(t: &Typed) -> Order
    ensures order { HasOrder t.now.element.shape t.now.element.rows result }
    ensures infinite { (result ≡ Order.Infinite) ↔ ((I : List Word) × IsInfinitePart t.now.element.shape t.now.element.rows t.now.quasi.basis.words I × (I ≢ [])) }
{
    t.keeps_kinds();
    if !is_periodic(t) {
        return Order::Infinite;
    }
    match periodic_order(t) {
        Some(k) => Order::Finite(k),
        None => Order::Wide,
    }
}

/// The order of the periodic part: the least common multiple of the lengths of the cycles, 1 where
/// there are none; `None` exactly where it exceeds 2^127-1. One pass over the words; takes no memory.
pub fn periodic_order(t: &Typed) -> Option<u128>
    ensures { MatchOption result ((k : ℕ) × IsPeriodicOrder t.now.element.shape t.now.element.rows t.now.quasi.basis.words k × IsWide k)
        (λ k. IsPeriodicOrder t.now.element.shape t.now.element.rows t.now.quasi.basis.words k × (k < 2 ^ 127)) }
{
    t.keeps_kinds();
    let mut order = 1;
    for place in 0..t.quasi().basis.words().len() {
        let Kind::Cycle { m } = t.kind(place) else {
            continue;
        };
        let Some(joined) = lcm(order, u128::from(*m)) else {
            return None;
        };
        order = joined;
    }
    Some(order)
}

// Whether the word of the basis at a place is a cycle word. Constant time.
pub(crate) fn is_cycle(t: &Typed, place: usize) -> bool
    requires { place < length t.now.quasi.basis.words }
    ensures { (x : Word) → slice_get t.now.quasi.basis.words place ≡ Some x → IsTrue result ↔ IsCycleWord t.now.element.shape t.now.element.rows x }
{
    t.keeps_kinds();
    matches!(t.kind(place), Kind::Cycle { .. })
}
