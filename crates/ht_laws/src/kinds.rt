//! Semi-normal bases, the kinds of words and their reaches, profiles and orders.
ghost use Rattle.std.specs.Prelude.{◌≡◌, ℕ, List, Option};
ghost use Rattle.ht_word.specs.declared.word.Word.{Word};
ghost use Rattle.ht_word.specs.declared.shape.Shape.{Shape};
ghost use Rattle.ht_pair.specs.declared.row.Row.{Row};
ghost use Rattle.ht_pair.specs.Bases.{IsAllUnder};
ghost use Rattle.ht_pair.specs.Pairs.{IsPair};
ghost use Rattle.ht_pair.specs.Actions.{Alike};
ghost use Rattle.ht_pair.specs.SemiNormal.{IsQuasinormal, IsSemiNormal};
ghost use Rattle.ht_pair.specs.Kinds.{IsCycle, IsAttractor, IsRepeller, IsPassing};
ghost use Rattle.ht_pair.specs.Reaches.{HasAhead, HasBehind};
ghost use Rattle.ht_pair.specs.Profiles.{IsProfile};
ghost use Rattle.ht_pair.specs.Orders.{IsOrder, HasInfiniteOrder, IsPeriodicOrder};

/// Two semi-normal bases are both under one.
pub fn semi_normal_bases_meet()
    ensures { (shape : Shape) (p : List Row) (X W : List Word) → IsSemiNormal shape p X → IsSemiNormal shape p W → (V : List Word) × IsSemiNormal shape p V × IsAllUnder X V × IsAllUnder W V }
{}

/// Each element has just one quasinormal basis: each pair has one semi-normal basis in ascending
/// order that every other one is under, and it is that of each pair that moves words alike.
pub fn each_element_has_one_quasinormal_basis()
    ensures some { (shape : Shape) (p : List Row) → IsPair shape p → (X : List Word) × IsQuasinormal shape p X }
    ensures one { (shape : Shape) (p : List Row) (X W : List Word) → IsQuasinormal shape p X → IsQuasinormal shape p W → X ≡ W }
    ensures alike { (shape : Shape) (p q : List Row) → IsPair shape p → IsPair shape q → Alike shape p q → (X : List Word) → IsQuasinormal shape p X → IsQuasinormal shape q X }
{}

/// No word is of two kinds, and an attractor or repeller has one period and one list of letters.
pub fn a_word_has_one_kind()
    ensures cycle { (shape : Shape) (p : List Row) (x : Word) (m k : ℕ) → IsCycle shape p x m → IsCycle shape p x k → m ≡ k }
    ensures attractor { (shape : Shape) (p : List Row) → IsPair shape p → (x : Word) (m k : ℕ) (y z : List ℕ) → IsAttractor shape p x m y → IsAttractor shape p x k z → (m ≡ k) × (y ≡ z) }
    ensures repeller { (shape : Shape) (p : List Row) → IsPair shape p → (x : Word) (m k : ℕ) (y z : List ℕ) → IsRepeller shape p x m y → IsRepeller shape p x k z → (m ≡ k) × (y ≡ z) }
    ensures cycle_no_attractor { (shape : Shape) (p : List Row) → IsPair shape p → (x : Word) (m k : ℕ) (z : List ℕ) → IsCycle shape p x m → ¬ IsAttractor shape p x k z }
    ensures cycle_no_repeller { (shape : Shape) (p : List Row) → IsPair shape p → (x : Word) (m k : ℕ) (z : List ℕ) → IsCycle shape p x m → ¬ IsRepeller shape p x k z }
    ensures attractor_no_repeller { (shape : Shape) (p : List Row) → IsPair shape p → (x : Word) (m k : ℕ) (y z : List ℕ) → IsAttractor shape p x m y → ¬ IsRepeller shape p x k z }
    ensures passing_no_cycle { (shape : Shape) (p : List Row) (x : Word) (m : ℕ) → IsPassing shape p x → ¬ IsCycle shape p x m }
{}

/// A word has one reach ahead and one reach behind, or none.
pub fn a_word_has_one_reach()
    ensures ahead { (shape : Shape) (p : List Row) (X : List Word) (x : Word) (reach other : Option (ℕ × Word)) → IsPair shape p → HasAhead shape p X x reach → HasAhead shape p X x other → reach ≡ other }
    ensures behind { (shape : Shape) (p : List Row) (X : List Word) (x : Word) (reach other : Option (ℕ × Word)) → IsPair shape p → HasBehind shape p X x reach → HasBehind shape p X x other → reach ≡ other }
{}

/// An element has one profile.
pub fn an_element_has_one_profile()
    ensures { (shape : Shape) (p : List Row) (X : List Word) (first second : List (ℕ × ℕ)) → IsProfile shape p X first → IsProfile shape p X second → first ≡ second }
{}

/// An element has one order, and one periodic order.
pub fn an_element_has_one_order()
    ensures one { (shape : Shape) (p : List Row) (k j : ℕ) → IsOrder shape p k → IsOrder shape p j → k ≡ j }
    ensures finite { (shape : Shape) (p : List Row) (k : ℕ) → IsOrder shape p k → ¬ HasInfiniteOrder shape p }
    ensures periodic { (shape : Shape) (p : List Row) (X : List Word) (k j : ℕ) → IsPeriodicOrder shape p X k → IsPeriodicOrder shape p X j → k ≡ j }
{}
