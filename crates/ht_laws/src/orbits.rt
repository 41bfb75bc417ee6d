//! Orbits of words: addresses, ponds and atoms.
ghost use Rattle.std.specs.Prelude.{◌≡◌, ℕ, ◌≤◌, ℤ, pos, ◌-ℤ◌, ◌↔◌, List, Contains, Some, slice_get};
ghost use Rattle.ht_word.specs.declared.word.Word.{Word};
ghost use Rattle.ht_word.specs.declared.shape.Shape.{Shape};
ghost use Rattle.ht_word.specs.Words.{IsUnder, IsWordOf};
ghost use Rattle.ht_pair.specs.declared.row.Row.{Row};
ghost use Rattle.ht_pair.specs.Bases.{IsBasis};
ghost use Rattle.ht_pair.specs.Pairs.{IsPair};
ghost use Rattle.ht_pair.specs.SemiNormal.{IsSemiNormal};
ghost use Rattle.ht_pair.specs.Steps.{Carries};
ghost use Rattle.ht_pair.specs.Kinds.{IsAttractorWord, IsCycleWord};
ghost use Rattle.ht_pair.specs.Orbits.{ShareOrbit, IsPond};
ghost use Rattle.ht_pair.specs.Addresses.{BelongTogether, IsAddress};
ghost use Rattle.ht_pair.specs.Atoms.{AreLinked, IsAtom};

/// Words with one address share an orbit, by the difference of the powers.
pub fn words_with_one_address_share_an_orbit()
    ensures { (shape : Shape) (p : List Row) (X : List Word) (u w x : Word) (z : List ℕ) (k j : ℤ) → IsPair shape p → IsAddress shape p X u x z k → IsAddress shape p X w x z j → ShareOrbit shape p u w (k -ℤ j) }
{}

/// A pond's power is at least the second, and a word has one pond at most.
pub fn a_word_has_one_pond()
    ensures long { (shape : Shape) (p : List Row) (X : List Word) (u v : Word) (k : ℕ) → IsPond shape p X u k v → 2 ≤ k }
    ensures one { (shape : Shape) (p : List Row) (X : List Word) (u v w : Word) (k j : ℕ) → IsPair shape p → IsPond shape p X u k v → IsPond shape p X u j w → (k ≡ j) × (v ≡ w) }
{}

/// Belonging together is an equivalence of attractors.
pub fn belonging_together_is_an_equivalence()
    ensures reflexive { (shape : Shape) (p : List Row) (x : Word) → IsWordOf shape x → BelongTogether shape p x x }
    ensures symmetric { (shape : Shape) (p : List Row) (x y : Word) → IsPair shape p → IsAttractorWord shape p x → IsAttractorWord shape p y → BelongTogether shape p x y → BelongTogether shape p y x }
    ensures transitive { (shape : Shape) (p : List Row) (x y z : Word) → IsPair shape p → BelongTogether shape p x y → BelongTogether shape p y z → BelongTogether shape p x z }
{}

/// An atom is a least piece of the infinite part that the element keeps: where the element carries a
/// word under one infinite word of the basis to a word under another one, both are in it or neither;
/// a chain of such steps joins each two of its words; and what is kept so and has one of its words
/// has all. Each infinite word is in an atom.
pub fn an_atom_is_a_least_piece_that_is_kept()
    ensures infinite { (shape : Shape) (p : List Row) (X : List Word) (places : List ℕ) (i : ℕ) → IsAtom shape p X places → Contains places i → (x : Word) × (slice_get X i ≡ Some x) × ¬ IsCycleWord shape p x }
    ensures kept { (shape : Shape) (p : List Row) (X : List Word) (places : List ℕ) (i j : ℕ) (x y u v : Word) → IsAtom shape p X places → slice_get X i ≡ Some x → slice_get X j ≡ Some y → ¬ IsCycleWord shape p x → ¬ IsCycleWord shape p y → IsUnder u x → Carries shape p (pos 1) u v → IsUnder v y → Contains places i ↔ Contains places j }
    ensures linked { (shape : Shape) (p : List Row) (X : List Word) (places : List ℕ) (i j : ℕ) (x y : Word) → IsAtom shape p X places → Contains places i → Contains places j → slice_get X i ≡ Some x → slice_get X j ≡ Some y → (k : ℕ) × AreLinked shape p X k x y }
    ensures least { (shape : Shape) (p : List Row) (X : List Word) (places others : List ℕ) → IsBasis shape X → IsAtom shape p X places → ((i j : ℕ) (x y u v : Word) → slice_get X i ≡ Some x → slice_get X j ≡ Some y → ¬ IsCycleWord shape p x → ¬ IsCycleWord shape p y → IsUnder u x → Carries shape p (pos 1) u v → IsUnder v y → Contains others i ↔ Contains others j) → (i : ℕ) → Contains places i → Contains others i → (j : ℕ) → Contains places j → Contains others j }
    ensures each { (shape : Shape) (p : List Row) (X : List Word) (i : ℕ) (x : Word) → IsPair shape p → IsSemiNormal shape p X → slice_get X i ≡ Some x → ¬ IsCycleWord shape p x → (places : List ℕ) × IsAtom shape p X places × Contains places i }
{}

/// Two atoms with a common place are one.
pub fn atoms_are_apart()
    ensures { (shape : Shape) (p : List Row) (X : List Word) (first second : List ℕ) (k : ℕ) → IsAtom shape p X first → IsAtom shape p X second → Contains first k → Contains second k → first ≡ second }
{}
