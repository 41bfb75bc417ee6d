//! What holds of atoms, and of rows that conjugate on them.
ghost use Rattle.std.specs.Prelude.{ℕ, ◌≡◌, List, [], ◌∷◌, All, Contains};
ghost use Rattle.ht_word.specs.declared.word.Word.{Word};
ghost use Rattle.ht_word.specs.declared.shape.Shape.{Shape};
ghost use Rattle.ht_word.specs.Words.{IsUnderSome, IsWordOf};
ghost use Rattle.ht_pair.specs.declared.row.Row.{Row};
ghost use Rattle.ht_pair.specs.Actions.{Moves};
ghost use Rattle.ht_pair.specs.Atoms.{IsInfiniteWord, IsAtom, words_at};
ghost use Rattle.ht_pair.specs.Bases.{Covers, IsPrefixFree};
ghost use Rattle.ht_pair.specs.Kinds.{IsAttractorWord, IsRepellerWord};
ghost use Rattle.ht_pair.specs.LocalConjugacy.{ConjugatesOn};
ghost use Rattle.ht_pair.specs.NormalConjugators.{IsLeastAttractor, CarriesToAttractor};
ghost use Rattle.ht_pair.specs.Pairs.{IsPair, from_words, to_words};
ghost use Rattle.ht_pair.specs.SemiNormal.{IsSemiNormal};
ghost use Rattle.ht_pieces.specs.Agreements.{AreAlikeUnder};
ghost use Rattle.ht_pieces.specs.Pieces.{IsInside, IsKept};

/// An element keeps each atom: it moves each word inside the atom to a word inside it, and each word
/// of the shape that it moves to a word inside it is inside it.
pub fn an_element_keeps_each_atom()
    ensures { (shape : Shape) (f : List Row) (X : List Word) → IsPair shape f → IsSemiNormal shape f X → (places : List ℕ) → IsAtom shape f X places → IsKept shape f (IsInside shape (words_at X places)) }
{}

/// Each atom has an attractor and a repeller.
pub fn each_atom_has_both_ends()
    ensures { (shape : Shape) (f : List Row) (X : List Word) → IsPair shape f → IsSemiNormal shape f X → (places : List ℕ) → IsAtom shape f X places → ((c : Word) × Contains (words_at X places) c × IsAttractorWord shape f c) × ((c : Word) × Contains (words_at X places) c × IsRepellerWord shape f c) }
{}

/// Infinite words of the basis that the element keeps both ways are a union of atoms: with one word
/// of an atom they have each.
pub fn what_is_kept_is_a_union_of_atoms()
    ensures { (shape : Shape) (f : List Row) (X : List Word) → IsPair shape f → IsSemiNormal shape f X → (W : List Word) → All (IsInfiniteWord shape f X) W → IsKept shape f (IsInside shape W) → (places : List ℕ) → IsAtom shape f X places → (x y : Word) → Contains (words_at X places) x → Contains (words_at X places) y → Contains W x → Contains W y }
{}

/// Conjugators are rigid: two on an atom that agree under one of its attractors agree under the whole
/// atom.
pub fn conjugators_that_meet_once_are_one()
    ensures { (shape : Shape) (f g : List Row) (X : List Word) → IsPair shape f → IsPair shape g → IsSemiNormal shape f X → (places : List ℕ) → IsAtom shape f X places → (W : List Word) (h q : List Row) → ConjugatesOn shape h f (words_at X places) g W → ConjugatesOn shape q f (words_at X places) g W → (c : Word) → Contains (words_at X places) c → AreAlikeUnder shape h q (c ∷ []) → AreAlikeUnder shape h q (words_at X places) }
{}

/// Where some rows of any size conjugate f on an atom into g on an atom, some rows do that carry the
/// least attractor to an attractor and few letters.
pub fn some_conjugator_is_normal()
    ensures { (shape : Shape) (f g : List Row) (X Y : List Word) → IsPair shape f → IsPair shape g → IsSemiNormal shape f X → IsSemiNormal shape g Y → (k l : List ℕ) → IsAtom shape f X k → IsAtom shape g Y l → (h : List Row) → ConjugatesOn shape h f (words_at X k) g (words_at Y l) → (c : Word) → IsLeastAttractor shape f X k c → (q : List Row) × ConjugatesOn shape q f (words_at X k) g (words_at Y l) × CarriesToAttractor shape q g (words_at Y l) c }
{}

/// Rows from all of an atom of f to words that are apart, that conjugate f into g there and move one
/// word inside the atom into an atom of g, fill that atom: their `to` words cover it.
pub fn rows_that_are_apart_fill_an_atom()
    ensures { (shape : Shape) (f g : List Row) (X Y : List Word) → IsPair shape f → IsPair shape g → IsSemiNormal shape f X → IsSemiNormal shape g Y → (k l : List ℕ) → IsAtom shape f X k → IsAtom shape g Y l → (h : List Row) → Covers shape (from_words h) (words_at X k) → All (IsWordOf shape) (to_words h) → IsPrefixFree (to_words h) → ((u u' v v' w : Word) → IsWordOf shape u → IsUnderSome u (words_at X k) → Moves f u u' → Moves h u' v' → Moves h u v → Moves g v w → w ≡ v') → (u v : Word) → IsInside shape (words_at X k) u → Moves h u v → IsInside shape (words_at Y l) v → Covers shape (to_words h) (words_at Y l) }
{}
