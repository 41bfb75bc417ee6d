//! Laws of the definitions, each the contract of a function that does nothing.
ghost use Rattle.std.specs.Prelude.{◌≡◌, ◌↔◌, List, Contains, pos, negsuc, neg_ℤ};
ghost use Rattle.ht_word.specs.Words.{IsWordOf, IsUnderSome};
ghost use Rattle.ht_word.specs.declared.word.Word.{Word};
ghost use Rattle.ht_word.specs.declared.shape.Shape.{Shape};
ghost use Rattle.ht_pair.specs.declared.row.Row.{Row};
ghost use Rattle.ht_pair.specs.Bases.{IsBasis};
ghost use Rattle.ht_pair.specs.Pairs.{IsPair, to_words, turned};
ghost use Rattle.ht_pair.specs.Products.{IsPower};
ghost use Rattle.ht_pair.specs.Steps.{Carries};
ghost use Rattle.ht_pair.specs.SemiNormal.{CarriesUnder, IsSemiNormal, IsQuasinormal};
ghost use Rattle.ht_quasi.specs.declared.quasi.Class.TheVariants.{Splits, Joined};
ghost use Rattle.ht_quasi.specs.Quasis.{IsYOf, HasClass};

/// A basis has one list of rows of what one step carries under it.
pub fn a_basis_has_one_y()
    ensures { (shape : Shape) (p : List Row) (X : List Word) (y z : List Row) → IsPair shape p → IsYOf shape p X y → IsYOf shape p X z → y ≡ z }
{}

/// No word of a semi-normal basis both splits and is joined.
pub fn no_word_splits_and_is_joined()
    ensures { (shape : Shape) (p : List Row) (X : List Word) (x : Word) → IsSemiNormal shape p X → Contains X x → HasClass shape p X x Splits → ¬ HasClass shape p X x Joined }
{}

/// What an element carries from a word under its quasinormal basis is under the basis, and so is what
/// its inverse carries from there.
pub fn what_is_carried_stays_under()
    ensures ahead { (shape : Shape) (p : List Row) (X : List Word) (u v : Word) → IsPair shape p → IsQuasinormal shape p X → IsUnderSome u X → Carries shape p (pos 1) u v → IsUnderSome v X }
    ensures behind { (shape : Shape) (p : List Row) (X : List Word) (u v : Word) → IsPair shape p → IsQuasinormal shape p X → IsUnderSome u X → Carries shape p (negsuc 0) u v → IsUnderSome v X }
{}

/// The quasinormal basis of an element is that of its inverse, as rows turned round or any others.
pub fn an_inverse_has_the_same_basis()
    ensures turned { (shape : Shape) (p : List Row) (X : List Word) → IsPair shape p → IsQuasinormal shape p X ↔ IsQuasinormal shape (turned p) X }
    ensures inverse { (shape : Shape) (p q : List Row) (X : List Word) → IsPair shape p → IsPower shape p (neg_ℤ (pos 1)) q → IsQuasinormal shape p X ↔ IsQuasinormal shape q X }
{}

/// The rows of what one step of the inverse carries under a basis X are those of the element turned
/// round. So the `to` words of the element's rows are a basis, and a word under X is under them just
/// where the inverse carries it to a word under X.
pub fn an_inverse_turns_y()
    ensures rows { (shape : Shape) (p q : List Row) (X : List Word) (y z : List Row) (row : Row) → IsPair shape p → IsPower shape p (neg_ℤ (pos 1)) q → IsYOf shape p X y → IsYOf shape q X z → Contains z row ↔ Contains (turned y) row }
    ensures basis { (shape : Shape) (p : List Row) (X : List Word) (y : List Row) → IsPair shape p → IsYOf shape p X y → IsBasis shape (to_words y) }
    ensures carried { (shape : Shape) (p : List Row) (X : List Word) (y : List Row) (u : Word) → IsPair shape p → IsYOf shape p X y → IsUnderSome u X → IsWordOf shape u → IsUnderSome u (to_words y) ↔ CarriesUnder shape p (negsuc 0) u X }
{}
