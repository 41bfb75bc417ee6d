//! The definitions speak of elements: what they say of a pair, they say of each pair that moves words alike.
//!
//! For sizes, products, semi-normal bases and the power rule this stands in `pairs`, `group`, `kinds` and `power_rule`.
ghost use Rattle.std.specs.Prelude.{ℕ, ℤ, pos, ◌↔◌, List, Option};
ghost use Rattle.ht_word.specs.declared.word.Word.{Word};
ghost use Rattle.ht_word.specs.declared.shape.Shape.{Shape};
ghost use Rattle.ht_pair.specs.declared.row.Row.{Row};
ghost use Rattle.ht_pair.specs.Pairs.{IsPair};
ghost use Rattle.ht_pair.specs.Actions.{Alike};
ghost use Rattle.ht_pair.specs.Steps.{Carries};
ghost use Rattle.ht_pair.specs.Products.{IsPower};
ghost use Rattle.ht_pair.specs.Images.{Entry, IsImage};
ghost use Rattle.ht_pair.specs.ValueLists.{IsValueList, IsFollowed};
ghost use Rattle.ht_pair.specs.Kinds.{IsCycle, IsAttractor, IsRepeller, IsPassing};
ghost use Rattle.ht_pair.specs.Reaches.{HasAhead, HasBehind};
ghost use Rattle.ht_pair.specs.Parts.{IsPeriodicPart, IsInfinitePart, HasParts};
ghost use Rattle.ht_pair.specs.Profiles.{IsProfile};
ghost use Rattle.ht_pair.specs.Orders.{IsOrder, HasInfiniteOrder, IsPeriodicOrder};
ghost use Rattle.ht_pair.specs.Orbits.{ShareOrbit, IsPond};
ghost use Rattle.ht_pair.specs.Addresses.{IsAddress};
ghost use Rattle.ht_pair.specs.Atoms.{IsAtom};
ghost use Rattle.ht_pair.specs.Conjugacy.{Conjugates};
ghost use Rattle.ht_pair.specs.NormalConjugators.{IsNormal};

/// Pairs move words alike exactly where they carry words alike, by the first power or by each.
pub fn alike_pairs_carry_alike()
    ensures by_one { (shape : Shape) (p q : List Row) → IsPair shape p → IsPair shape q → ((u v : Word) → Carries shape p (pos 1) u v → Carries shape q (pos 1) u v) → Alike shape p q }
    ensures by_each { (shape : Shape) (p q : List Row) → IsPair shape p → IsPair shape q → Alike shape p q → (k : ℤ) (u v : Word) → Carries shape p k u v ↔ Carries shape q k u v }
{}

/// Alike pairs have the same powers, which are alike pairs, and the same images; the same value lists follow by them.
pub fn alike_pairs_have_the_same_powers()
    ensures power { (shape : Shape) (p q s t : List Row) → IsPair shape p → IsPair shape q → IsPair shape s → IsPair shape t → Alike shape p q → Alike shape s t → (k : ℤ) → IsPower shape p k s ↔ IsPower shape q k t }
    ensures image { (shape : Shape) (p q : List Row) → IsPair shape p → IsPair shape q → Alike shape p q → (k : ℤ) (u : Word) (L : List Entry) → IsImage shape p k u L ↔ IsImage shape q k u L }
    ensures followed { (shape : Shape) (p q : List Row) → IsPair shape p → IsPair shape q → Alike shape p q → (k : ℤ) (L M : List Entry) → IsValueList shape L → IsFollowed shape L p k M ↔ IsFollowed shape L q k M }
{}

/// A word is of the same kind for alike pairs, with the same period and letters.
pub fn alike_pairs_have_the_same_kinds_of_words()
    ensures cycle { (shape : Shape) (p q : List Row) → IsPair shape p → IsPair shape q → Alike shape p q → (x : Word) (m : ℕ) → IsCycle shape p x m ↔ IsCycle shape q x m }
    ensures attractor { (shape : Shape) (p q : List Row) → IsPair shape p → IsPair shape q → Alike shape p q → (x : Word) (m : ℕ) (z : List ℕ) → IsAttractor shape p x m z ↔ IsAttractor shape q x m z }
    ensures repeller { (shape : Shape) (p q : List Row) → IsPair shape p → IsPair shape q → Alike shape p q → (x : Word) (m : ℕ) (z : List ℕ) → IsRepeller shape p x m z ↔ IsRepeller shape q x m z }
    ensures passing { (shape : Shape) (p q : List Row) → IsPair shape p → IsPair shape q → Alike shape p q → (x : Word) → IsPassing shape p x ↔ IsPassing shape q x }
{}

/// A word has the same reaches for alike pairs.
pub fn alike_pairs_have_the_same_reaches()
    ensures ahead { (shape : Shape) (p q : List Row) → IsPair shape p → IsPair shape q → Alike shape p q → (X : List Word) (x : Word) (reach : Option (ℕ × Word)) → HasAhead shape p X x reach ↔ HasAhead shape q X x reach }
    ensures behind { (shape : Shape) (p q : List Row) → IsPair shape p → IsPair shape q → Alike shape p q → (X : List Word) (x : Word) (reach : Option (ℕ × Word)) → HasBehind shape p X x reach ↔ HasBehind shape q X x reach }
{}

/// Alike pairs have the same periodic and infinite words, the same parts, which are alike pairs, and the same profile.
pub fn alike_pairs_have_the_same_parts()
    ensures periodic { (shape : Shape) (p q : List Row) → IsPair shape p → IsPair shape q → Alike shape p q → (X W : List Word) → IsPeriodicPart shape p X W ↔ IsPeriodicPart shape q X W }
    ensures infinite { (shape : Shape) (p q : List Row) → IsPair shape p → IsPair shape q → Alike shape p q → (X W : List Word) → IsInfinitePart shape p X W ↔ IsInfinitePart shape q X W }
    ensures parts { (shape : Shape) (p q s t first second : List Row) → IsPair shape p → IsPair shape q → IsPair shape s → IsPair shape t → IsPair shape first → IsPair shape second → Alike shape p q → Alike shape s first → Alike shape t second → (X : List Word) → HasParts shape p X s t ↔ HasParts shape q X first second }
    ensures profile { (shape : Shape) (p q : List Row) → IsPair shape p → IsPair shape q → Alike shape p q → (X : List Word) (profile : List (ℕ × ℕ)) → IsProfile shape p X profile ↔ IsProfile shape q X profile }
{}

/// Alike pairs have the same order, finite or infinite, and the same periodic order.
pub fn alike_pairs_have_the_same_order()
    ensures order { (shape : Shape) (p q : List Row) → IsPair shape p → IsPair shape q → Alike shape p q → (k : ℕ) → IsOrder shape p k ↔ IsOrder shape q k }
    ensures infinite { (shape : Shape) (p q : List Row) → IsPair shape p → IsPair shape q → Alike shape p q → HasInfiniteOrder shape p ↔ HasInfiniteOrder shape q }
    ensures periodic { (shape : Shape) (p q : List Row) → IsPair shape p → IsPair shape q → Alike shape p q → (X : List Word) (k : ℕ) → IsPeriodicOrder shape p X k ↔ IsPeriodicOrder shape q X k }
{}

/// Alike pairs have the same orbits, ponds, addresses and atoms.
pub fn alike_pairs_have_the_same_orbits()
    ensures orbit { (shape : Shape) (p q : List Row) → IsPair shape p → IsPair shape q → Alike shape p q → (u v : Word) (k : ℤ) → ShareOrbit shape p u v k ↔ ShareOrbit shape q u v k }
    ensures pond { (shape : Shape) (p q : List Row) → IsPair shape p → IsPair shape q → Alike shape p q → (X : List Word) (u v : Word) (k : ℕ) → IsPond shape p X u k v ↔ IsPond shape q X u k v }
    ensures address { (shape : Shape) (p q : List Row) → IsPair shape p → IsPair shape q → Alike shape p q → (X : List Word) (u x : Word) (z : List ℕ) (k : ℤ) → IsAddress shape p X u x z k ↔ IsAddress shape q X u x z k }
    ensures atom { (shape : Shape) (p q : List Row) → IsPair shape p → IsPair shape q → Alike shape p q → (X : List Word) (places : List ℕ) → IsAtom shape p X places ↔ IsAtom shape q X places }
{}

/// Conjugating is of elements: it is the same for alike pairs, in each of the three places.
pub fn alike_pairs_conjugate_alike()
    ensures { (shape : Shape) (h g a c b d : List Row) → IsPair shape h → IsPair shape g → IsPair shape a → IsPair shape c → IsPair shape b → IsPair shape d → Alike shape h g → Alike shape a c → Alike shape b d → Conjugates shape h a b ↔ Conjugates shape g c d }
{}

/// Being a normal conjugator is of elements: it is the same for alike pairs, in each of the three places.
pub fn alike_pairs_are_normal_conjugators_alike()
    ensures { (shape : Shape) (h g a c b d : List Row) → IsPair shape h → IsPair shape g → IsPair shape a → IsPair shape c → IsPair shape b → IsPair shape d → Alike shape h g → Alike shape a c → Alike shape b d → IsNormal shape h a b ↔ IsNormal shape g c d }
{}
