//! What tells whether words under the basis of an element share an orbit.
ghost use Rattle.std.specs.Prelude.{◌≡◌, IfOk, MatchOption};
ghost use Rattle.ht_word.specs.Words.{IsUnderSome, IsWordOf};
ghost use Rattle.ht_types.specs.CycleWords.{IsUnderCycle};
ghost use Rattle.ht_types.specs.Flows.{IsUnderInfinite};
ghost use Rattle.ht_types.specs.Shares.{IsShare};

use crate::infinite::share_infinite;
use crate::periodic::share_periodic;
use ht_types::{Kind, Sharing, Typed};
use ht_word::{NoMemory, Word};
use std::alloc::Global;

/// Tells whether words under the basis of an element share an orbit (Barker, Duncan and Robertson
/// 2016; the addresses are this project's own).
#[derive(Clone, Copy, Debug)]
pub struct Sharer<'t> {
    t: &'t Typed,
}

impl Sharer<'_> {
    /// That of the element. Takes no memory.
    pub fn new(t: &Typed) -> Sharer<'_>
        ensures { ⟦<Self as Sharing>⟧.typed result ≡ t.now }
    {
        Sharer { t }
    }
}

impl Sharing for Sharer<'_> {
    ghost typed = { λ sharer. sharer.t.now };

    fn share(&self, alloc: Global, u: &Word, v: &Word) -> Result<Option<i128>, NoMemory> {
        let t = self.t;
        t.keeps_kinds();
        let Some(m) = period_over(t, u) else {
            return match period_over(t, v) {
                Some(_) => Ok(None),
                None => share_infinite(alloc, t, u, v),
            };
        };
        share_periodic(alloc, t, u, v, m)
    }
}

// The least number of steps that lead back to the cycle word above the word; `None` exactly where the
// word is under the infinite part. A binary search.
fn period_over(t: &Typed, word: &Word) -> Option<u64>
    requires { IsUnderSome word.now t.now.quasi.basis.words }
    ensures { MatchOption result (IsUnderInfinite t.now.element.shape t.now.element.rows t.now.quasi.basis.words word.now) (IsUnderCycle t.now.element.shape t.now.element.rows t.now.quasi.basis.words word.now) }
{
    t.keeps_kinds();
    let Some(place) = t.quasi().basis.find(word) else {
        unreachable!()
    };
    match t.kind(place) {
        Kind::Cycle { m } => Some(*m),
        _ => None,
    }
}
