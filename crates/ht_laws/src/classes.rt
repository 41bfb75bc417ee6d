//! The classes of the words of a basis.
ghost use Rattle.std.specs.Prelude.{◌↔◌, List, Contains};
ghost use Rattle.ht_word.specs.declared.word.Word.{Word};
ghost use Rattle.ht_word.specs.declared.shape.Shape.{Shape};
ghost use Rattle.ht_pair.specs.declared.row.Row.{Row};
ghost use Rattle.ht_pair.specs.Bases.{IsBasis};
ghost use Rattle.ht_pair.specs.Pairs.{IsPair, from_words, to_words};
ghost use Rattle.ht_quasi.specs.declared.quasi.Class.TheVariants.{Splits, Joined, Plain};
ghost use Rattle.ht_quasi.specs.Quasis.{HasClass, IsYOf};

/// The rows of a basis tell the classes of its words: a word splits exactly where it is no `from`
/// word of them, is joined exactly where it is no `to` word, and is plain exactly where it is both.
pub fn the_rows_of_a_basis_tell_the_classes()
    ensures splits { (shape : Shape) (p : List Row) (X : List Word) (y : List Row) (x : Word) → IsBasis shape X → IsYOf shape p X y → Contains X x → HasClass shape p X x Splits ↔ ¬ Contains (from_words y) x }
    ensures joined { (shape : Shape) (p : List Row) (X : List Word) (y : List Row) (x : Word) → IsPair shape p → IsBasis shape X → IsYOf shape p X y → Contains X x → HasClass shape p X x Joined ↔ ¬ Contains (to_words y) x }
    ensures plain { (shape : Shape) (p : List Row) (X : List Word) (y : List Row) (x : Word) → IsPair shape p → IsBasis shape X → IsYOf shape p X y → Contains X x → HasClass shape p X x Plain ↔ (Contains (from_words y) x × Contains (to_words y) x) }
{}
