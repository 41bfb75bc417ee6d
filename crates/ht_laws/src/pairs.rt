//! Bases, pairs and sizes.
ghost use Rattle.std.specs.Prelude.{◌≡◌, ℕ, ◌≤◌, ◌+◌, ◌-◌, ◌*◌, ◌↔◌, List, ◌∷◌, ◌++◌, length, Contains, Some, slice_get};
ghost use Rattle.ht_word.specs.declared.word.Word.{Word};
ghost use Rattle.ht_word.specs.declared.shape.Shape.{Shape};
ghost use Rattle.ht_word.specs.Words.{IsUnder, IsUnderSome, IsWordOf};
ghost use Rattle.ht_pair.specs.declared.row.Row.{Row};
ghost use Rattle.ht_pair.specs.Bases.{IsAllUnder, IsBasis, TakesAtMost, longest, roots};
ghost use Rattle.ht_pair.specs.HeldBases.{BasisValue, IsHeldBasis, IsExpandedAt, children};
ghost use Rattle.ht_pair.specs.Pairs.{IsPair, from_words, longest_of, turned};
ghost use Rattle.ht_pair.specs.Actions.{Alike, IsCanonicalFor, Moves};
ghost use Rattle.ht_pair.specs.Sizes.{HasSize, IsLarge};
ghost use Rattle.ht_laws.specs.Expansions.{IsReachedBy};

/// The roots are a basis.
pub fn roots_are_a_basis()
    ensures { (shape : Shape) → IsBasis shape (roots shape) }
{}

/// Each word that is long enough is under exactly one word of a basis.
pub fn a_basis_splits_long_words()
    ensures some { (shape : Shape) (X : List Word) (u : Word) → IsBasis shape X → IsWordOf shape u → longest X ≤ length u.letters → IsUnderSome u X }
    ensures one { (shape : Shape) (X : List Word) (u x y : Word) → IsBasis shape X → Contains X x → Contains X y → IsUnder u x → IsUnder u y → x ≡ y }
{}

/// A list with a word in it is a basis exactly where the list with the n children in its place is
/// one; in place the order stays ascending, and the basis has n - 1 words more.
pub fn an_expansion_of_a_basis_is_a_basis()
    ensures basis { (shape : Shape) (front tail : List Word) (x : Word) → IsBasis shape (front ++ x ∷ tail) ↔ IsBasis shape (front ++ children shape x ++ tail) }
    ensures held { (old new : BasisValue) (place : ℕ) → IsHeldBasis old.shape old.words → IsExpandedAt place old new → IsHeldBasis new.shape new.words }
    ensures more { (old new : BasisValue) (place : ℕ) → IsExpandedAt place old new → length new.words ≡ length old.words + (old.shape.n - 1) }
{}

/// From a basis expansions lead to just the bases under it, each making n - 1 words more, whichever
/// of the words above is expanded first. So they lead from the roots to each basis, which has
/// r + k (n - 1) words for some k, and takes at most k expansions where so many or fewer lead to it.
pub fn bases_are_reached_by_expansions()
    ensures many { (shape : Shape) (k : ℕ) (W X : List Word) → IsReachedBy shape k W X → length X ≡ length W + k * (shape.n - 1) }
    ensures under { (shape : Shape) (W X : List Word) → IsHeldBasis shape W → IsHeldBasis shape X → IsAllUnder X W ↔ ((k : ℕ) × IsReachedBy shape k W X) }
    ensures any { (shape : Shape) (W X : List Word) (new : BasisValue) (place : ℕ) (w : Word) → IsBasis shape X → IsAllUnder X W → slice_get W place ≡ Some w → ¬ Contains X w → IsExpandedAt place (record { shape = shape; words = W }) new → IsAllUnder X new.words }
    ensures roots { (shape : Shape) (X : List Word) → IsHeldBasis shape X → (k : ℕ) × IsReachedBy shape k (roots shape) X }
    ensures size { (shape : Shape) (X : List Word) → IsBasis shape X → (k : ℕ) × (length X ≡ shape.r + k * (shape.n - 1)) }
    ensures most { (shape : Shape) (X : List Word) (k : ℕ) → IsHeldBasis shape X → TakesAtMost shape X k ↔ ((j : ℕ) × (j ≤ k) × IsReachedBy shape j (roots shape) X) }
{}

/// A pair moves the words that are long enough one to one, and the turned pair moves them back.
pub fn a_pair_moves_long_words_one_to_one()
    ensures some { (shape : Shape) (p : List Row) (u : Word) → IsPair shape p → IsWordOf shape u → longest (from_words p) ≤ length u.letters → (v : Word) × IsWordOf shape v × Moves p u v }
    ensures to_one { (shape : Shape) (p : List Row) (u v w : Word) → IsPair shape p → IsWordOf shape u → Moves p u v → Moves p u w → v ≡ w }
    ensures from_one { (shape : Shape) (p : List Row) (u v w : Word) → IsPair shape p → IsWordOf shape w → Moves p u w → Moves p v w → u ≡ v }
    ensures back { (shape : Shape) (p : List Row) (u v : Word) → IsPair shape p → Moves p u v → Moves (turned p) v u }
{}

/// Moving words alike is an equivalence of pairs.
pub fn alike_is_an_equivalence()
    ensures reflexive { (shape : Shape) (p : List Row) → IsPair shape p → Alike shape p p }
    ensures symmetric { (shape : Shape) (p q : List Row) → Alike shape p q → Alike shape q p }
    ensures transitive { (shape : Shape) (p q s : List Row) → IsPair shape p → IsPair shape q → IsPair shape s → Alike shape p q → Alike shape q s → Alike shape p s }
{}

/// Each element has just one canonical pair: each pair has one, and two canonical pairs are equal
/// lists exactly where their pairs move words alike.
pub fn each_element_has_one_canonical_pair()
    ensures some { (shape : Shape) (p : List Row) → IsPair shape p → (canonical : List Row) × IsCanonicalFor shape canonical p }
    ensures one { (shape : Shape) (p q first second : List Row) → IsPair shape p → IsPair shape q → IsCanonicalFor shape first p → IsCanonicalFor shape second q → (first ≡ second) ↔ Alike shape p q }
{}

/// An element has one size, whichever pair stands for it: that of one of its pairs, none of which
/// has fewer rows, or a shorter longest word.
pub fn an_element_has_one_size()
    ensures some { (shape : Shape) (p : List Row) → IsPair shape p → (rows : ℕ) × (letters : ℕ) × HasSize shape p rows letters }
    ensures one { (shape : Shape) (p : List Row) (rows letters i j : ℕ) → IsPair shape p → HasSize shape p rows letters → HasSize shape p i j → (rows ≡ i) × (letters ≡ j) }
    ensures alike { (shape : Shape) (p q : List Row) (rows letters : ℕ) → IsPair shape p → IsPair shape q → Alike shape p q → IsLarge shape p rows letters → IsLarge shape q rows letters }
    ensures reached { (shape : Shape) (p : List Row) (rows letters : ℕ) → HasSize shape p rows letters → (q : List Row) × IsPair shape q × Alike shape q p × (rows ≡ length q) × (letters ≡ longest_of q) }
    ensures least { (shape : Shape) (p q : List Row) (rows letters : ℕ) → IsPair shape p → IsPair shape q → Alike shape p q → HasSize shape p rows letters → (rows ≤ length q) × (letters ≤ longest_of q) }
{}
