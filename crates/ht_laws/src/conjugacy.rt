//! Conjugacy and power conjugacy.
ghost use Rattle.std.specs.Prelude.{◌≢◌, ℤ, pos, ◌↔◌, List};
ghost use Rattle.ht_word.specs.declared.shape.Shape.{Shape};
ghost use Rattle.ht_pair.specs.declared.row.Row.{Row};
ghost use Rattle.ht_pair.specs.Bases.{roots};
ghost use Rattle.ht_pair.specs.Pairs.{IsPair, turned};
ghost use Rattle.ht_pair.specs.Actions.{Alike};
ghost use Rattle.ht_pair.specs.Products.{IsProduct, IsPower};
ghost use Rattle.ht_pair.specs.Conjugacy.{AreConjugate, ArePowerConjugate, Conjugates};
ghost use Rattle.ht_pair.specs.LocalConjugacy.{ConjugatesOn};
ghost use Rattle.ht_pair.specs.NormalConjugators.{IsNormal};

/// h conjugates a into b exactly where the inverse of h, a and then h move words as b.
pub fn conjugating_is_h_inverse_a_h()
    ensures { (shape : Shape) (h a b s t : List Row) → IsPair shape h → IsPair shape a → IsPair shape b → IsProduct shape (turned h) a s → IsProduct shape s h t → Conjugates shape h a b ↔ Alike shape t b }
{}

/// The inverse of a conjugator conjugates back, and h and then g conjugate as h does and then g.
pub fn conjugators_turn_and_multiply()
    ensures inverse { (shape : Shape) (h a b : List Row) → IsPair shape a → IsPair shape b → Conjugates shape h a b → Conjugates shape (turned h) b a }
    ensures product { (shape : Shape) (h g s a b c : List Row) → IsPair shape a → IsPair shape b → IsPair shape c → IsProduct shape h g s → Conjugates shape h a b → Conjugates shape g b c → Conjugates shape s a c }
{}

/// Being conjugate is an equivalence of pairs.
pub fn conjugacy_is_an_equivalence()
    ensures reflexive { (shape : Shape) (a : List Row) → IsPair shape a → AreConjugate shape a a }
    ensures symmetric { (shape : Shape) (a b : List Row) → IsPair shape a → IsPair shape b → AreConjugate shape a b → AreConjugate shape b a }
    ensures transitive { (shape : Shape) (a b c : List Row) → IsPair shape a → IsPair shape b → IsPair shape c → AreConjugate shape a b → AreConjugate shape b c → AreConjugate shape a c }
{}

/// Conjugating on all words is conjugating.
pub fn conjugating_on_all_is_conjugating()
    ensures { (shape : Shape) (h a b : List Row) → ConjugatesOn shape h a (roots shape) b (roots shape) ↔ Conjugates shape h a b }
{}

/// A normal conjugator conjugates.
pub fn a_normal_conjugator_conjugates()
    ensures { (shape : Shape) (h a b : List Row) → IsNormal shape h a b → Conjugates shape h a b }
{}

/// Conjugating passes to powers: what conjugates a into b conjugates each power of a into that of b.
pub fn conjugating_passes_to_powers()
    ensures { (shape : Shape) (h a b s t : List Row) (k : ℤ) → IsPair shape a → IsPair shape b → Conjugates shape h a b → IsPower shape a k s → IsPower shape b k t → Conjugates shape h s t }
{}

/// Power conjugacy is symmetric, and no exponent in it is 0.
pub fn power_conjugacy_is_symmetric()
    ensures symmetric { (shape : Shape) (a b : List Row) (i j : ℤ) → ArePowerConjugate shape a b i j → ArePowerConjugate shape b a j i }
    ensures some { (shape : Shape) (a b : List Row) (i j : ℤ) → ArePowerConjugate shape a b i j → i ≢ pos 0 }
{}
