//! Bases in ascending order, and the test whether words are a basis.
ghost use Rattle.std.specs.Prelude.{◌≡◌, ◌+◌, ◌<◌, [], ◌∷◌, ◌++◌, ◌↔◌, length, take, drop, All, IfOk, IsTrue, OnOk, OnErr, MatchOption};
ghost use Rattle.ht_word.specs.Words.{IsWordOf, IsUnderSome};
ghost use Rattle.ht_pair.specs.Bases.{roots, IsBasis};
ghost use Rattle.ht_pair.specs.HeldBases.{IsHeldBasis, children, expanded_at, IsExpandedAt, IsPlaceAbove};

use crate::headed::{Itself, place_above};
use crate::sorted::sort_and_test;
use ht_word::{NoMemory, Shape, Word, Words};
use std::alloc::Global;
use std::marker::Model;
use std::mem;

/// A basis (Higman 1974), its words in ascending order.
#[derive(Debug, Drop)]
pub struct Basis {
    shape: Shape,
    // a basis of the shape, in ascending order
    words: Words,
}

impl Model for Basis {
    ghost use Rattle.ht_pair.specs.HeldBases.{BasisValue, IsHeldBasis};

    ghost Value = { BasisValue };

    ghost view = { λ basis. record { shape = basis.shape; words = basis.words } };

    ghost invariant = { λ basis. IsHeldBasis basis.shape basis.words };
}

impl Basis {
    /// The roots. Takes r words.
    pub fn roots(alloc: Global, shape: Shape) -> Result<Basis, NoMemory>
        ensures { IfOk result (λ basis. (basis.shape ≡ shape) × (basis.words ≡ roots shape)) }
    {
        let words = root_words(alloc, shape)?;
        Ok(Basis { shape, words })
    }

    /// The word at a place, counted from 0, gives way to its n children. After want of memory the
    /// basis is unchanged. Takes n words, and moves the words behind the place.
    pub fn expand(&mut self, alloc: Global, place: usize) -> Result<(), NoMemory>
        requires { place < length self.old.words }
        ensures ok { OnOk result (IsExpandedAt place self.old self.new) }
        ensures err { OnErr result (self.new ≡ self.old) }
    {
        let mut children = Words::new(alloc);
        add_children(alloc, &mut children, self.shape, self.words.at(place))?;
        give_way(alloc, &mut self.words, place, children)
    }

    /// Each marked word gives way to its n children, in its place. After want of memory the basis
    /// is unchanged. One pass, which copies the words.
    pub fn expand_all(&mut self, alloc: Global, marks: &[bool]) -> Result<(), NoMemory>
        requires { length marks.now ≡ length self.old.words }
        ensures ok { OnOk result ((self.new.shape ≡ self.old.shape) × (self.new.words ≡ expanded_at self.old.shape self.old.words marks.now)) }
        ensures err { OnErr result (self.new ≡ self.old) }
    {
        self.words = expanded_words(alloc, self.shape, self.words.as_slice(), marks)?;
        Ok(())
    }

    /// The place, from 0, of the word that is a prefix of the word; `None` exactly where there is
    /// none. A binary search: O(log N) comparisons of words for N words; no memory.
    pub fn find(&self, word: &Word) -> Option<usize>
        ensures { MatchOption result (¬ IsUnderSome word.now self.now.words) (IsPlaceAbove self.now.words word.now) }
    {
        place_above(Itself, self.words.as_slice(), word)
    }

    /// The words, in ascending order.
    pub fn words(&self) -> &Words
        ensures words { result.now ≡ self.now.words }
        ensures held { IsHeldBasis self.now.shape self.now.words }
    {
        &self.words
    }

    /// The shape of the words.
    pub fn shape(&self) -> Shape
        ensures { result ≡ self.now.shape }
    {
        self.shape
    }
}

/// Whether the words are a basis, in any order. Sorts N words by O(N log N) comparisons of words,
/// then makes one pass over their letters.
pub fn is_basis(shape: Shape, words: Words) -> Result<bool, NoMemory>
    requires { All (IsWordOf shape) words }
    ensures { IfOk result (λ yes. IsTrue yes ↔ IsBasis shape words) }
{
    let (_sorted, is_basis) = sort_and_test(shape, Itself, words)?;
    Ok(is_basis)
}

// The roots, in order.
fn root_words(alloc: Global, shape: Shape) -> Result<Words, NoMemory>
    ensures { IfOk result (λ words. words ≡ roots shape) }
{
    let mut words = Words::new(alloc);
    for before in 0..shape.r {
        words.push(Word::new(alloc, before + 1))?;
    }
    Ok(words)
}

// Adds the children of the word, in order.
fn add_children(alloc: Global, words: &mut Words, shape: Shape, word: &Word) -> Result<(), NoMemory>
    ensures { OnOk result (words.new ≡ words.old ++ children shape word.now) }
{
    for before in 0..shape.n {
        words.push(word.child(alloc, before + 1)?)?;
    }
    Ok(())
}

// Other words in the place of the word at a place. After want of memory the words are unchanged.
fn give_way(alloc: Global, words: &mut Words, place: usize, others: Words) -> Result<(), NoMemory>
    requires { place < length words.old }
    ensures ok { OnOk result (words.new ≡ take place words.old ++ others ++ drop (place + 1) words.old) }
    ensures err { OnErr result (words.new ≡ words.old) }
{
    let mut items = mem::replace(words, Words::new(alloc)).into_vec();
    let outcome = items.splice(place..place + 1, others.into_vec());
    *words = Words::from_vec(items);
    match outcome {
        Ok(_) => Ok(()),
        Err(_) => Err(NoMemory),
    }
}

// Adds the children of the word where it is marked, and else the word.
fn add_word(
    alloc: Global,
    words: &mut Words,
    shape: Shape,
    word: &Word,
    mark: bool,
) -> Result<(), NoMemory>
    ensures { OnOk result (words.new ≡ words.old ++ expanded_at shape (word.now ∷ []) (mark ∷ [])) }
{
    if mark {
        add_children(alloc, words, shape, word)
    } else {
        words.push(word.copy(alloc)?)
    }
}

// The words, each marked one in its place replaced by its children.
fn expanded_words(
    alloc: Global,
    shape: Shape,
    words: &[Word],
    marks: &[bool],
) -> Result<Words, NoMemory>
    requires { length marks.now ≡ length words.now }
    ensures { IfOk result (λ expanded. expanded ≡ expanded_at shape words.now marks.now) }
{
    let mut expanded = Words::new(alloc);
    for (place, word) in words.iter().enumerate() {
        add_word(alloc, &mut expanded, shape, word, marks[place])?;
    }
    Ok(expanded)
}
