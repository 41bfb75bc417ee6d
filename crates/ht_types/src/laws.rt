//! Laws of elements with their kinds, and of words that share an orbit, each the contract of a function
//! that does nothing.
ghost use Rattle.ht_word.specs.declared.word.Word.{Word};
ghost use Rattle.ht_word.specs.declared.shape.Shape.{Shape};
ghost use Rattle.ht_word.specs.Words.{◌·◌, IsUnder, IsWordOf};
ghost use Rattle.ht_pair.specs.declared.row.Row.{Row};
ghost use Rattle.ht_pair.specs.Kinds.{IsAttractor, IsCycleWord, IsRepeller};
ghost use Rattle.ht_pair.specs.Orbits.{ShareOrbit};
ghost use Rattle.ht_pair.specs.Pairs.{IsPair};
ghost use Rattle.ht_pair.specs.SemiNormal.{IsSemiNormal};
ghost use Rattle.ht_pair.specs.Steps.{Carries};
ghost use Rattle.ht_types.specs.Flows.{FlowsAhead, FlowsBehind, IsUnderInfinite};
ghost use Rattle.ht_types.specs.Points.{HasPoint};
ghost use Rattle.std.specs.Prelude.{◌≡◌, ◌≢◌, ◌≤◌, ℕ, ℤ, pos, neg_ℤ, List, [], Contains};

use crate::Typed;

/// Each word under the infinite part has letters behind which some power from 0 on carries it under
/// an attractor, and letters behind which some power from 0 down carries it under a repeller. Does
/// nothing.
pub fn flows(t: &Typed)
    ensures ahead { (u x : Word) → IsWordOf t.now.element.shape u → Contains t.now.quasi.basis.words x → ¬ IsCycleWord t.now.element.shape t.now.element.rows x → IsUnder u x → FlowsAhead t.now.element.shape t.now.element.rows t.now.quasi.basis.words u }
    ensures behind { (u x : Word) → IsWordOf t.now.element.shape u → Contains t.now.quasi.basis.words x → ¬ IsCycleWord t.now.element.shape t.now.element.rows x → IsUnder u x → FlowsBehind t.now.element.shape t.now.element.rows t.now.quasi.basis.words u }
{
    t.keeps_kinds();
}

/// Where k steps from 1 on lengthen a word by some letters, one word of the basis has it with some
/// number of these letters behind it under it: an attractor, whose period divides k, with as many
/// letters a step. The same behind with a repeller. Does nothing.
pub fn points(t: &Typed)
    ensures ahead { (v : Word) (k : ℕ) (z : List ℕ) → 1 ≤ k → z ≢ [] → Carries t.now.element.shape t.now.element.rows (pos k) v (v · z) → HasPoint (IsAttractor t.now.element.shape t.now.element.rows) t.now.quasi.basis.words v k z }
    ensures behind { (v : Word) (k : ℕ) (z : List ℕ) → 1 ≤ k → z ≢ [] → Carries t.now.element.shape t.now.element.rows (neg_ℤ (pos k)) v (v · z) → HasPoint (IsRepeller t.now.element.shape t.now.element.rows) t.now.quasi.basis.words v k z }
{
    t.keeps_kinds();
}

/// One power at most carries a word under the infinite part to another word. Does nothing.
pub fn an_infinite_word_is_shared_once()
    ensures { (shape : Shape) (p : List Row) (X : List Word) → IsPair shape p → IsSemiNormal shape p X → (u v : Word) (j k : ℤ) → IsUnderInfinite shape p X u → ShareOrbit shape p u v j → ShareOrbit shape p u v k → j ≡ k }
{}
