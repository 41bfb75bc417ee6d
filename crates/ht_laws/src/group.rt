//! The group laws: elements are a group by the product and the turned pair, up to pairs that move words alike.
ghost use Rattle.std.specs.Prelude.{pos, neg_ℤ, List};
ghost use Rattle.ht_word.specs.declared.word.Word.{Word};
ghost use Rattle.ht_word.specs.declared.shape.Shape.{Shape};
ghost use Rattle.ht_pair.specs.declared.row.Row.{Row};
ghost use Rattle.ht_pair.specs.Pairs.{IsPair, turned, identity};
ghost use Rattle.ht_pair.specs.Actions.{Alike};
ghost use Rattle.ht_pair.specs.Steps.{Carries};
ghost use Rattle.ht_pair.specs.Products.{IsProduct, IsPower};

/// Each two pairs have a product, and just one, and the turned pair is the inverse.
pub fn products_and_inverses_exist()
    ensures product { (shape : Shape) (p q : List Row) → IsPair shape p → IsPair shape q → (s : List Row) × IsProduct shape p q s }
    ensures one { (shape : Shape) (p q s t : List Row) → IsPair shape p → IsPair shape q → IsProduct shape p q s → IsProduct shape p q t → Alike shape s t }
    ensures inverse { (shape : Shape) (p : List Row) → IsPair shape p → IsPower shape p (neg_ℤ (pos 1)) (turned p) }
{}

/// Products are associative: (p q) s and p (q s) move words alike.
pub fn products_are_associative()
    ensures { (shape : Shape) (p q s first second left right : List Row) → IsPair shape p → IsPair shape q → IsPair shape s → IsProduct shape p q first → IsProduct shape first s left → IsProduct shape q s second → IsProduct shape p second right → Alike shape left right }
{}

/// The identity is neutral on both sides.
pub fn the_identity_is_neutral()
    ensures after { (shape : Shape) (p : List Row) → IsPair shape p → IsProduct shape p (identity shape) p }
    ensures before { (shape : Shape) (p : List Row) → IsPair shape p → IsProduct shape (identity shape) p p }
{}

/// An element and its inverse give the identity, on both sides: the turned pair, and each pair that is the power -1.
pub fn an_element_and_its_inverse_cancel()
    ensures turned_after { (shape : Shape) (p : List Row) → IsPair shape p → IsProduct shape p (turned p) (identity shape) }
    ensures turned_before { (shape : Shape) (p : List Row) → IsPair shape p → IsProduct shape (turned p) p (identity shape) }
    ensures inverse_after { (shape : Shape) (p q : List Row) → IsPair shape p → IsPower shape p (neg_ℤ (pos 1)) q → IsProduct shape p q (identity shape) }
    ensures inverse_before { (shape : Shape) (p q : List Row) → IsPair shape p → IsPower shape p (neg_ℤ (pos 1)) q → IsProduct shape q p (identity shape) }
{}

/// The inverse of a product is the product of the inverses in reverse order.
pub fn inverses_multiply_in_reverse_order()
    ensures { (shape : Shape) (p q s : List Row) → IsPair shape p → IsPair shape q → IsProduct shape p q s → IsProduct shape (turned q) (turned p) (turned s) }
{}

/// A product carries words as its first factor and then its second do.
pub fn products_carry_in_turn()
    ensures { (shape : Shape) (p q s : List Row) (u v w : Word) → IsPair shape p → IsPair shape q → IsProduct shape p q s → Carries shape p (pos 1) u v → Carries shape q (pos 1) v w → Carries shape s (pos 1) u w }
{}

/// Products are of elements: those of alike pairs are alike, and each pair alike to a product is that product.
pub fn products_are_of_elements()
    ensures alike { (shape : Shape) (p p' q q' s s' : List Row) → IsPair shape p → IsPair shape p' → IsPair shape q → IsPair shape q' → Alike shape p p' → Alike shape q q' → IsProduct shape p q s → IsProduct shape p' q' s' → Alike shape s s' }
    ensures each { (shape : Shape) (p q s t : List Row) → IsPair shape t → IsProduct shape p q s → Alike shape s t → IsProduct shape p q t }
{}
