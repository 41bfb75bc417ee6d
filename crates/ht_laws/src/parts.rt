//! The periodic and the infinite part of an element.
ghost use Rattle.std.specs.Prelude.{ℕ, ◌≤◌, ℤ, ◌↔◌, List, [], length};
ghost use Rattle.ht_word.specs.declared.word.Word.{Word};
ghost use Rattle.ht_word.specs.declared.shape.Shape.{Shape};
ghost use Rattle.ht_word.specs.Words.{IsUnderSome};
ghost use Rattle.ht_pair.specs.declared.row.Row.{Row};
ghost use Rattle.ht_pair.specs.Bases.{IsBasis, longest};
ghost use Rattle.ht_pair.specs.Pairs.{IsPair};
ghost use Rattle.ht_pair.specs.Actions.{Alike};
ghost use Rattle.ht_pair.specs.Steps.{Carries};
ghost use Rattle.ht_pair.specs.SemiNormal.{IsSemiNormal};
ghost use Rattle.ht_pair.specs.Parts.{HasParts, IsInfinitePart, IsPeriodicPart};
ghost use Rattle.ht_pair.specs.Products.{IsProduct};
ghost use Rattle.ht_pair.specs.Orders.{FixesRoots, IsOrder, IsPeriodicOrder};

/// An element has one periodic and one infinite part.
pub fn an_element_has_one_pair_of_parts()
    ensures { (shape : Shape) (p : List Row) (X : List Word) → IsPair shape p → IsBasis shape X → (s t first second : List Row) → HasParts shape p X s t → HasParts shape p X first second → Alike shape s first × Alike shape t second }
{}

/// An element is the product of its periodic and its infinite part, in either order.
pub fn an_element_is_the_product_of_its_parts()
    ensures periodic_first { (shape : Shape) (p : List Row) (X : List Word) (s t : List Row) → IsPair shape p → IsSemiNormal shape p X → HasParts shape p X s t → IsProduct shape s t p }
    ensures infinite_first { (shape : Shape) (p : List Row) (X : List Word) (s t : List Row) → IsPair shape p → IsSemiNormal shape p X → HasParts shape p X s t → IsProduct shape t s p }
{}

/// Each power keeps the periodic part and the infinite part: it carries the words under the periodic
/// part to words under it, and the words under the infinite part to words under it, once they are
/// long enough to be under the basis.
pub fn an_element_keeps_its_parts()
    ensures periodic { (shape : Shape) (p : List Row) (X periodic : List Word) (k : ℤ) (u v : Word) → IsPair shape p → IsSemiNormal shape p X → IsPeriodicPart shape p X periodic → IsUnderSome u periodic → Carries shape p k u v → IsUnderSome v periodic }
    ensures infinite { (shape : Shape) (p : List Row) (X infinite : List Word) (k : ℤ) (u v : Word) → IsPair shape p → IsSemiNormal shape p X → IsInfinitePart shape p X infinite → IsUnderSome u infinite → Carries shape p k u v → IsUnderSome v X → IsUnderSome v infinite }
    ensures long { (shape : Shape) (p : List Row) (X infinite : List Word) (k : ℤ) (u v : Word) → IsPair shape p → IsSemiNormal shape p X → IsInfinitePart shape p X infinite → IsUnderSome u infinite → Carries shape p k u v → longest X ≤ length v.letters → IsUnderSome v infinite }
{}

/// The infinite part is empty exactly where some power from 1 on is the identity, and then the order
/// of the element is that of its periodic part.
pub fn an_element_without_an_infinite_part_has_finite_order()
    ensures finite { (shape : Shape) (p : List Row) (X : List Word) → IsPair shape p → IsSemiNormal shape p X → IsInfinitePart shape p X [] ↔ ((k : ℕ) × (1 ≤ k) × FixesRoots shape p k) }
    ensures order { (shape : Shape) (p : List Row) (X : List Word) (k : ℕ) → IsPair shape p → IsBasis shape X → IsInfinitePart shape p X [] → IsPeriodicOrder shape p X k ↔ IsOrder shape p k }
{}

/// The periodic part has the periodic order of the element for its order.
pub fn the_periodic_part_has_the_periodic_order()
    ensures { (shape : Shape) (p : List Row) (X : List Word) (s t : List Row) (k : ℕ) → IsPair shape p → IsSemiNormal shape p X → HasParts shape p X s t → IsPeriodicOrder shape p X k ↔ IsOrder shape s k }
{}
