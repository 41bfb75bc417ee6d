//! Powers, and the images of words under them.
ghost use Rattle.std.specs.Prelude.{◌≡◌, ℕ, ◌≤◌, ◌+◌, ◌-◌, ◌*◌, ◌%◌, ◌⊎◌, ℤ, pos, neg_ℤ, ◌+ℤ◌, ◌*ℤ◌, ◌↔◌, List, [], ◌∷◌, length, Contains, Some, slice_get};
ghost use Rattle.ht_word.specs.declared.word.Word.{Word};
ghost use Rattle.ht_word.specs.declared.shape.Shape.{Shape};
ghost use Rattle.ht_word.specs.Words.{◌·◌, child, IsLetters, IsUnderSome, IsWordOf};
ghost use Rattle.ht_num.specs.Chains.{chain};
ghost use Rattle.ht_pair.specs.declared.row.Row.{Row};
ghost use Rattle.ht_pair.specs.Bases.{longest};
ghost use Rattle.ht_pair.specs.Pairs.{IsPair, identity, turned};
ghost use Rattle.ht_pair.specs.Actions.{Moves, Alike};
ghost use Rattle.ht_pair.specs.Steps.{Carries};
ghost use Rattle.ht_pair.specs.Orders.{FixesRoots};
ghost use Rattle.ht_pair.specs.Products.{IsPower, IsProduct};
ghost use Rattle.ht_pair.specs.Images.{Entry, words_behind, IsImage};
ghost use Rattle.ht_pair.specs.ValueLists.{IsValueList, IsFollowed};

/// A power carries a word to one word at most, powers add up, and the power -k carries back.
pub fn powers_add_up()
    ensures none { (shape : Shape) (p : List Row) (u v : Word) → IsWordOf shape u → Carries shape p (pos 0) u v ↔ (u ≡ v) }
    ensures one { (shape : Shape) (p : List Row) (k : ℤ) (u v w : Word) → IsPair shape p → Carries shape p k u v → Carries shape p k u w → v ≡ w }
    ensures sum { (shape : Shape) (p : List Row) (j k : ℤ) (u v w : Word) → IsPair shape p → Carries shape p j u v → Carries shape p k v w → Carries shape p (j +ℤ k) u w }
    ensures back { (shape : Shape) (p : List Row) (k : ℤ) (u v : Word) → IsPair shape p → Carries shape p k u v → Carries shape p (neg_ℤ k) v u }
{}

/// What the k-th power carries, it carries as an element of its own; a pair carries what it moves,
/// and the turned pair carries back. What is carried goes on to longer words, and comes from all n
/// children.
pub fn powers_carry_prefixes()
    ensures power { (shape : Shape) (p s : List Row) (k : ℤ) (u v : Word) → IsPair shape p → IsPower shape p k s → Carries shape p k u v ↔ Carries shape s (pos 1) u v }
    ensures moved { (shape : Shape) (p : List Row) (u v : Word) → IsPair shape p → IsWordOf shape u → Moves p u v → Carries shape p (pos 1) u v }
    ensures turned { (shape : Shape) (p : List Row) (k : ℤ) (u v : Word) → Carries shape (turned p) k u v ↔ Carries shape p (neg_ℤ k) u v }
    ensures longer { (shape : Shape) (p : List Row) (k : ℤ) (u v : Word) (z : List ℕ) → IsLetters shape z → Carries shape p k u v → Carries shape p k (u · z) (v · z) }
    ensures children { (shape : Shape) (p : List Row) (k : ℤ) (u v : Word) → IsPair shape p → IsWordOf shape u → ((a : ℕ) → 1 ≤ a → a ≤ shape.n → Carries shape p k (child u a) (child v a)) → Carries shape p k u v }
{}

/// Each power is an element, and just one; the power 0 is the identity, the product of two powers
/// is the power by their sum, and the k-th power of the inverse is the power -k.
pub fn powers_are_elements()
    ensures some { (shape : Shape) (p : List Row) (k : ℤ) → IsPair shape p → (s : List Row) × IsPower shape p k s }
    ensures one { (shape : Shape) (p s t : List Row) (k : ℤ) → IsPair shape p → IsPower shape p k s → IsPower shape p k t → Alike shape s t }
    ensures none { (shape : Shape) (p s : List Row) → IsPower shape p (pos 0) s → Alike shape s (identity shape) }
    ensures sum { (shape : Shape) (p s t q : List Row) (j k : ℤ) → IsPair shape p → IsPower shape p j s → IsPower shape p k t → IsProduct shape s t q → IsPower shape p (j +ℤ k) q }
    ensures inverse { (shape : Shape) (p q s : List Row) (k : ℤ) → IsPair shape p → IsPower shape p (neg_ℤ (pos 1)) q → IsPower shape q k s ↔ IsPower shape p (neg_ℤ k) s }
{}

/// The power 1 is the element, and the exponents of powers of powers multiply.
pub fn powers_of_powers_multiply()
    ensures one { (shape : Shape) (p : List Row) → IsPair shape p → IsPower shape p (pos 1) p }
    ensures power { (shape : Shape) (p s t : List Row) (j k : ℤ) → IsPair shape p → IsPower shape p j s → IsPower shape s k t → IsPower shape p (j *ℤ k) t }
{}

/// The k-th power fixes the roots exactly where it moves words as the identity does.
pub fn a_power_that_fixes_the_roots_is_the_identity()
    ensures { (shape : Shape) (p s : List Row) (k : ℕ) → IsPair shape p → IsPower shape p (pos k) s → FixesRoots shape p k ↔ Alike shape s (identity shape) }
{}

/// Each word has an image under each power, each value list is followed by one by each power, and
/// what follows by j and then by k follows by j + k.
pub fn images_and_followers_exist()
    ensures image { (shape : Shape) (p : List Row) (k : ℤ) (u : Word) → IsPair shape p → IsWordOf shape u → (L : List Entry) × IsImage shape p k u L }
    ensures follower { (shape : Shape) (p : List Row) (k : ℤ) (L : List Entry) → IsPair shape p → IsValueList shape L → (M : List Entry) × IsFollowed shape L p k M }
    ensures none { (shape : Shape) (p : List Row) (L : List Entry) → IsValueList shape L → IsFollowed shape L p (pos 0) L }
    ensures sum { (shape : Shape) (p : List Row) (j k : ℤ) (L M N : List Entry) → IsPair shape p → IsValueList shape L → IsFollowed shape L p j M → IsFollowed shape M p k N → IsFollowed shape L p (j +ℤ k) N }
{}

/// The entries of an image tell where the power carries each word behind that is long enough, and
/// a word has one image.
pub fn an_image_tells_where_words_go()
    ensures carries { (shape : Shape) (p : List Row) (k : ℤ) (u : Word) (L : List Entry) (e : Entry) → IsImage shape p k u L → Contains L e → Carries shape p k (u · e.letters) e.word }
    ensures covers { (shape : Shape) (p : List Row) (k : ℤ) (u : Word) (L : List Entry) (z : List ℕ) → IsImage shape p k u L → IsWordOf shape u → IsLetters shape z → longest (words_behind u L) ≤ length ((u · z).letters) → IsUnderSome (u · z) (words_behind u L) }
    ensures one { (shape : Shape) (p : List Row) (k : ℤ) (u : Word) (L M : List Entry) → IsPair shape p → IsImage shape p k u L → IsImage shape p k u M → L ≡ M }
    ensures followed { (shape : Shape) (p : List Row) (k : ℤ) (L M : List Entry) → IsFollowed shape L p k M → IsValueList shape M }
{}

/// The entry without letters and a word is a value list; what follows it by a power is the image of
/// the word; and just one value list follows a value list by a power.
pub fn what_follows_a_word_is_its_image()
    ensures cone { (shape : Shape) (u : Word) → IsWordOf shape u → IsValueList shape (record { letters = []; word = u } ∷ []) }
    ensures image { (shape : Shape) (p : List Row) (k : ℤ) (u : Word) (L : List Entry) → IsWordOf shape u → IsFollowed shape (record { letters = []; word = u } ∷ []) p k L → IsImage shape p k u L }
    ensures one { (shape : Shape) (p : List Row) (k : ℤ) (L M N : List Entry) → IsPair shape p → IsValueList shape L → IsFollowed shape L p k M → IsFollowed shape L p k N → M ≡ N }
{}

/// The chain of an exponent leads from 1 to it: each entry is twice the one before, or the odd
/// number after it.
pub fn a_chain_leads_up_to_its_exponent()
    ensures first { (k : ℕ) → slice_get (chain k) 0 ≡ Some 1 }
    ensures last { (k : ℕ) → 1 ≤ k → slice_get (chain k) (length (chain k) - 1) ≡ Some k }
    ensures next { (k i a b : ℕ) → slice_get (chain k) i ≡ Some a → slice_get (chain k) (i + 1) ≡ Some b → (b ≡ a * 2) ⊎ ((b ≡ a + 1) × (b % 2 ≡ 1)) }
{}
