//! What a conjugator of any size makes of the parts of an element, and what conjugate elements share.
ghost use Rattle.std.specs.Prelude.{◌≡◌, ℕ, ◌↔◌, List, [], ◌++◌};
ghost use Rattle.std.specs.List.Sorted.{IsPermutation};
ghost use Rattle.ht_word.specs.declared.word.Word.{Word};
ghost use Rattle.ht_word.specs.declared.shape.Shape.{Shape};
ghost use Rattle.ht_pair.specs.declared.row.Row.{Row};
ghost use Rattle.ht_pair.specs.Actions.{Alike};
ghost use Rattle.ht_pair.specs.Atoms.{IsAtom, words_at};
ghost use Rattle.ht_pair.specs.Bases.{IsPrefixFree};
ghost use Rattle.ht_pair.specs.Conjugacy.{AreConjugate, Conjugates};
ghost use Rattle.ht_pair.specs.LocalConjugacy.{ConjugatesOn};
ghost use Rattle.ht_pair.specs.Orders.{HasInfiniteOrder, IsOrder};
ghost use Rattle.ht_pair.specs.Pairs.{IsPair, identity, turned};
ghost use Rattle.ht_pair.specs.Parts.{IsInfinitePart, IsPeriodicPart};
ghost use Rattle.ht_pair.specs.SemiNormal.{IsSemiNormal};
ghost use Rattle.ht_types.specs.WordKinds.{AreKinds};
ghost use Rattle.ht_types.specs.declared.kind.Kind.{Kind};
ghost use Rattle.ht_pieces.specs.Pieces.{IsInside, IsKept};
ghost use Rattle.ht_counterparts.specs.Counterparts.{AreCounterparts};
ghost use Rattle.ht_counterparts.specs.Ends.{ends_at};

/// A conjugator sends each atom of f to one atom of g, its counterpart: all of it and nothing else. Each
/// atom of g is the counterpart of one atom of f.
pub fn a_conjugator_sends_each_atom_to_an_atom()
    ensures sent { (shape : Shape) (f g h : List Row) (X Y : List Word) → IsPair shape f → IsPair shape g → IsSemiNormal shape f X → IsSemiNormal shape g Y → Conjugates shape h f g → (k : List ℕ) → IsAtom shape f X k → (l : List ℕ) × AreCounterparts shape f X g Y h k l }
    ensures came { (shape : Shape) (f g h : List Row) (X Y : List Word) → IsPair shape f → IsPair shape g → IsSemiNormal shape f X → IsSemiNormal shape g Y → Conjugates shape h f g → (l : List ℕ) → IsAtom shape g Y l → (k : List ℕ) × AreCounterparts shape f X g Y h k l }
    ensures one { (shape : Shape) (f g h : List Row) (X Y : List Word) → IsPair shape f → IsPair shape g → IsSemiNormal shape f X → IsSemiNormal shape g Y → Conjugates shape h f g → (k l m : List ℕ) → AreCounterparts shape f X g Y h k l → AreCounterparts shape f X g Y h k m → l ≡ m }
    ensures one_back { (shape : Shape) (f g h : List Row) (X Y : List Word) → IsPair shape f → IsPair shape g → IsSemiNormal shape f X → IsSemiNormal shape g Y → Conjugates shape h f g → (k m l : List ℕ) → AreCounterparts shape f X g Y h k l → AreCounterparts shape f X g Y h m l → k ≡ m }
{}

/// Where a pair conjugates f into g, some rows conjugate from each atom to its counterpart, and some from
/// the periodic part to the periodic part.
pub fn conjugators_are_cut_to_parts()
    ensures atoms { (shape : Shape) (f g h : List Row) (X Y : List Word) → IsPair shape f → IsPair shape g → IsSemiNormal shape f X → IsSemiNormal shape g Y → Conjugates shape h f g → (k l : List ℕ) → AreCounterparts shape f X g Y h k l → (q : List Row) × ConjugatesOn shape q f (words_at X k) g (words_at Y l) }
    ensures periodic { (shape : Shape) (f g h : List Row) (X Y P Q : List Word) → IsPair shape f → IsPair shape g → IsSemiNormal shape f X → IsSemiNormal shape g Y → Conjugates shape h f g → IsPeriodicPart shape f X P → IsPeriodicPart shape g Y Q → (q : List Row) × ConjugatesOn shape q f P g Q }
{}

/// Conjugators on parts that are kept conjugate back, turned round, and two, one after the other, give one.
pub fn conjugators_on_parts_turn_and_compose()
    ensures turned { (shape : Shape) (f g : List Row) (V W : List Word) → IsPair shape f → IsPair shape g → IsKept shape f (IsInside shape V) → IsKept shape g (IsInside shape W) → (h : List Row) → ConjugatesOn shape h f V g W → ConjugatesOn shape (turned h) g W f V }
    ensures composed { (shape : Shape) (f g e : List Row) (V W U : List Word) → IsPair shape f → IsPair shape g → IsPair shape e → IsKept shape f (IsInside shape V) → IsKept shape g (IsInside shape W) → IsKept shape e (IsInside shape U) → (h q : List Row) → ConjugatesOn shape h f V g W → ConjugatesOn shape q g W e U → (s : List Row) × ConjugatesOn shape s f V e U }
{}

/// Conjugators on two parts that are apart, to two parts that are apart, are one conjugator together.
pub fn conjugators_on_parts_are_glued()
    ensures { (shape : Shape) (f g : List Row) (V V' W W' : List Word) → IsPair shape f → IsKept shape f (IsInside shape V) → IsKept shape f (IsInside shape V') → IsPrefixFree (V ++ V') → IsPrefixFree (W ++ W') → (h q : List Row) → ConjugatesOn shape h f V g W → ConjugatesOn shape q f V' g W' → ConjugatesOn shape (h ++ q) f (V ++ V') g (W ++ W') }
{}

/// Only the identity is conjugate to the identity.
pub fn only_the_identity_is_conjugate_to_it()
    ensures { (shape : Shape) (f g : List Row) → IsPair shape f → IsPair shape g → AreConjugate shape f g → Alike shape f (identity shape) → Alike shape g (identity shape) }
{}

/// Conjugate elements have one order, or none has one.
pub fn conjugate_elements_have_one_order()
    ensures finite { (shape : Shape) (f g : List Row) (k : ℕ) → IsPair shape f → IsPair shape g → AreConjugate shape f g → IsOrder shape f k → IsOrder shape g k }
    ensures infinite { (shape : Shape) (f g : List Row) → IsPair shape f → IsPair shape g → AreConjugate shape f g → HasInfiniteOrder shape f → HasInfiniteOrder shape g }
{}

/// Of conjugate elements both have an infinite part or neither has.
pub fn conjugate_elements_have_infinite_parts_alike()
    ensures { (shape : Shape) (f g : List Row) (X Y : List Word) → IsPair shape f → IsPair shape g → IsSemiNormal shape f X → IsSemiNormal shape g Y → AreConjugate shape f g → IsInfinitePart shape f X [] ↔ IsInfinitePart shape g Y [] }
{}

/// Conjugate atoms have equal ends: as many attractors and as many repellers of each period and number of
/// letters, as the kinds of the words tell. Their bases needn't agree, nor their numbers of words.
pub fn conjugate_atoms_have_equal_ends()
    ensures { (shape : Shape) (f g : List Row) (X Y : List Word) (kinds others : List Kind) → IsPair shape f → IsPair shape g → IsSemiNormal shape f X → IsSemiNormal shape g Y → AreKinds shape f X kinds → AreKinds shape g Y others → (k l : List ℕ) → IsAtom shape f X k → IsAtom shape g Y l → (h : List Row) → ConjugatesOn shape h f (words_at X k) g (words_at Y l) → IsPermutation (ends_at kinds k) (ends_at others l) }
{}
