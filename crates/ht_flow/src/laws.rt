//! Laws of addresses, each the contract of a function that does nothing.
ghost use Rattle.std.specs.Prelude.{◌≡◌, ◌↔◌, ℕ, ℤ, ◌-ℤ◌, List};
ghost use Rattle.ht_word.specs.declared.word.Word.{Word};
ghost use Rattle.ht_word.specs.declared.shape.Shape.{Shape};
ghost use Rattle.ht_pair.specs.declared.row.Row.{Row};
ghost use Rattle.ht_pair.specs.Addresses.{IsAddress};
ghost use Rattle.ht_pair.specs.Orbits.{ShareOrbit};
ghost use Rattle.ht_pair.specs.Pairs.{IsPair};
ghost use Rattle.ht_pair.specs.SemiNormal.{IsSemiNormal};

/// A word has one address at most. Does nothing.
pub fn an_address_is_one()
    ensures { (shape : Shape) (p : List Row) (X : List Word) → IsPair shape p → IsSemiNormal shape p X → (u x y : Word) (z w : List ℕ) (k j : ℤ) → IsAddress shape p X u x z k → IsAddress shape p X u y w j → (x ≡ y) × (z ≡ w) × (k ≡ j) }
{}

/// Two words with addresses share an orbit exactly where these agree in attractor and letters, and
/// then by the difference of the powers alone. Does nothing.
pub fn addresses_tell_orbits()
    ensures shared { (shape : Shape) (p : List Row) (X : List Word) → IsPair shape p → IsSemiNormal shape p X → (u w x y : Word) (z v : List ℕ) (k j : ℤ) → IsAddress shape p X u x z k → IsAddress shape p X w y v j → ((i : ℤ) × ShareOrbit shape p u w i) ↔ ((x ≡ y) × (z ≡ v)) }
    ensures power { (shape : Shape) (p : List Row) (X : List Word) → IsPair shape p → IsSemiNormal shape p X → (u w x y : Word) (z v : List ℕ) (k j i : ℤ) → IsAddress shape p X u x z k → IsAddress shape p X w y v j → ShareOrbit shape p u w i → i ≡ k -ℤ j }
{}
