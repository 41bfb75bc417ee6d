//! Elements with their quasinormal basis and the kinds of its words.
ghost use Rattle.std.specs.Prelude.{◌≡◌, ◌≤◌, ◌<◌, Some, length, slice_get, IfOk, IsErrOf};
ghost use Rattle.ht_pair.specs.Budgets.{IsOverBudget};
ghost use Rattle.ht_pair.specs.Bases.{TakesAtMost};
ghost use Rattle.ht_quasi.specs.Quasis.{IsQuasi};
ghost use Rattle.ht_word.specs.declared.word.Word.{Word};
ghost use Rattle.ht_types.specs.Flows.{power_in, LeadsIn};
ghost use Rattle.ht_types.specs.TypedElements.{IsTyped};
ghost use Rattle.ht_types.specs.WordSteps.{HasStep};

use crate::direction::Direction;
use crate::kind::{Kind, Kinds};
use crate::step::{Step, Steps, steps};
use crate::told::kinds_of;
use ht_ops::inverse;
use ht_pair::Element;
use ht_quasi::{Quasi, QuasiFault, quasinormal};
use ht_word::NoMemory;
use std::alloc::Global;
use std::marker::Model;

/// An element with its quasinormal basis, of at most 65,536 expansions, and the kinds of its words.
/// The reaches of passing words take fewer than 2^121 steps.
#[derive(Debug, Drop)]
pub struct Typed {
    element: Element,
    // that of the element
    quasi: Quasi,
    // those of the words of the basis, in their order
    kinds: Kinds,
    // the inverse of the element
    back: Element,
    // the steps of the element from these words, and those of the inverse
    ahead: Steps,
    behind: Steps,
}

impl Model for Typed {
    ghost use Rattle.ht_types.specs.TypedElements.{TypedValue, IsTyped};
    ghost use Rattle.ht_types.specs.WordSteps.{HasSteps};

    ghost Value = { TypedValue };

    ghost view = { λ typed. record { element = typed.element; quasi = typed.quasi; kinds = typed.kinds } };

    ghost invariant = { λ typed. IsTyped typed.element typed.quasi typed.kinds × HasSteps typed.element typed.quasi.basis.words typed.back typed.ahead typed.behind };
}

impl Typed {
    /// What each typed element is: the quasinormal basis is that of the element, and the kinds are
    /// those of its words. Does nothing.
    pub fn keeps_kinds(&self)
        ensures { IsTyped self.now.element self.now.quasi self.now.kinds }
    {
        let _ = &self.kinds;
    }

    /// The element. Takes no memory.
    pub fn element(&self) -> &Element
        ensures element { result.now ≡ self.now.element }
        ensures typed { IsTyped self.now.element self.now.quasi self.now.kinds }
    {
        &self.element
    }

    /// Its quasinormal basis, with the rows of what one step carries under it and the classes of its
    /// words. Takes no memory.
    pub fn quasi(&self) -> &Quasi
        ensures quasi { result.now ≡ self.now.quasi }
        ensures typed { IsTyped self.now.element self.now.quasi self.now.kinds }
    {
        &self.quasi
    }

    /// The kind of the word of the basis at a place, counted from 0. Constant time; takes no memory.
    pub fn kind(&self, place: usize) -> &Kind
        requires { place < length self.now.quasi.basis.words }
        ensures kind { slice_get self.now.kinds place ≡ Some (result.now) }
        ensures typed { IsTyped self.now.element self.now.quasi self.now.kinds }
    {
        self.kinds.at(place)
    }

    /// The element that makes the steps in the direction: the element itself, or its inverse. Takes no
    /// memory.
    pub fn mover(&self, direction: Direction) -> &Element
        ensures { LeadsIn direction self.now.element result.now }
    {
        match direction {
            Direction::Ahead => &self.element,
            Direction::Behind => &self.back,
        }
    }

    /// Where one step in the direction leads from the word of the basis at a place, counted from 0.
    /// Constant time; takes no memory.
    pub fn step_in(&self, direction: Direction, place: usize) -> &Step
        requires { place < length self.now.quasi.basis.words }
        ensures { (x : Word) → slice_get self.now.quasi.basis.words place ≡ Some x → HasStep self.now.element.shape self.now.element.rows self.now.quasi.basis.words (power_in direction 1) x result.now }
    {
        match direction {
            Direction::Ahead => self.ahead.at(place),
            Direction::Behind => self.behind.at(place),
        }
    }

    /// The kinds alone, in the order of the words. Takes no memory.
    pub fn into_kinds(self) -> Kinds
        ensures { result ≡ self.kinds }
    {
        let Typed {
            element: _,
            quasi: _,
            kinds,
            back: _,
            ahead: _,
            behind: _,
        } = self;
        kinds
    }
}

/// The kinds of the words of the element's quasinormal basis (Higman 1974; Barker, Duncan and
/// Robertson 2016). O(N log N) comparisons of words for N words and rows, and one pass over what the
/// element and its inverse do with the words, which writes the letters of the kinds.
pub fn types(alloc: Global, a: &Element, quasi: Quasi) -> Result<Typed, NoMemory>
    requires shape { quasi.basis.shape ≡ a.now.shape }
    requires quasi { IsQuasi a.now.shape a.now.rows quasi.basis.words quasi.y quasi.class }
    requires within { TakesAtMost a.now.shape quasi.basis.words 65536 }
    ensures value { IfOk result (λ typed. (typed.element ≡ a.now) × (typed.quasi ≡ quasi)) }
    ensures kinds { IfOk result (λ typed. IsTyped a.now quasi typed.kinds) }
{
    a.keeps_limits();
    let back = inverse(alloc, a)?;
    let ahead = steps(alloc, a, &quasi.basis)?;
    let behind = steps(alloc, &back, &quasi.basis)?;
    let kinds = kinds_of(alloc, a, &quasi.basis, ahead.as_slice(), behind.as_slice())?;
    let element = a.copy(alloc)?;
    Ok(Typed {
        element,
        quasi,
        kinds,
        back,
        ahead,
        behind,
    })
}

/// The element with its quasinormal basis and the kinds of its words; `Budget` exactly where the basis
/// takes more expansions of the roots. As long as `quasinormal` and `types`.
pub fn typed_within(alloc: Global, a: &Element, budget: u32) -> Result<Typed, QuasiFault>
    requires { budget ≤ 65536 }
    ensures typed { IfOk result (λ typed. (typed.element ≡ a.now) × IsTyped a.now typed.quasi typed.kinds) }
    ensures within { IfOk result (λ typed. TakesAtMost a.now.shape typed.quasi.basis.words budget) }
    ensures over { IsErrOf result QuasiFault.Budget → IsOverBudget a.now.shape budget a.now.rows }
{
    let quasi = quasinormal(alloc, a, budget)?;
    Ok(types(alloc, a, quasi)?)
}
