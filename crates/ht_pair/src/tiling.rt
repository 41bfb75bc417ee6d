//! The test whether sorted words are a basis: each cone begins where the one before ends.
ghost use Rattle.std.specs.Prelude.{◌≡◌, ◌↔◌, IsTrue, All, map, suc};
ghost use Rattle.ht_word.specs.Words.{root_word, IsWordOf, IsAscending};
ghost use Rattle.ht_pair.specs.Bases.{IsBasis};
ghost use Rattle.ht_pair.specs.Tilings.{IsStep, NextPath, Follows, IsTiling};

use crate::headed::Heads;
use ht_word::{Shape, Word};

// Whether all letters are this one.
fn is_all(letters: &[u8], letter: u8) -> bool
    ensures { IsTrue result ↔ All (λ c. c ≡ letter) letters.now }
{
    letters.iter().all(|c| *c == letter)
}

// Whether an entry with letters n only behind it is right before one with letters 1 only behind it.
fn is_step(n: u8, entry: u16, next: u16, behind: &[u8], next_behind: &[u8]) -> bool
    ensures { IsTrue result ↔ IsStep n entry next behind.now next_behind.now }
{
    u32::from(entry) + 1 == u32::from(next) && is_all(behind, n) && is_all(next_behind, 1)
}

// Whether the letters agree up to a place where they make a step. One pass.
fn letters_follow(n: u8, letters: &[u8], next: &[u8]) -> bool
    ensures { IsTrue result ↔ NextPath n letters.now next.now }
{
    for place in 0..letters.len().min(next.len()) {
        let (letter, next_letter) = (letters[place], next[place]);
        if letter != next_letter {
            return is_step(
                n,
                letter.into(),
                next_letter.into(),
                &letters[place + 1..],
                &next[place + 1..],
            );
        }
    }
    false
}

// Whether the cone of the next word begins where the word's cone ends. One pass over the letters.
pub(crate) fn follows(shape: Shape, word: &Word, next: &Word) -> bool
    ensures { IsTrue result ↔ Follows shape word.now next.now }
{
    let (letters, next_letters) = (word.letters.as_slice(), next.letters.as_slice());
    if word.root == next.root {
        letters_follow(shape.n, letters, next_letters)
    } else {
        is_step(shape.n, word.root, next.root, letters, next_letters)
    }
}

// Whether the word's cone begins where all begins.
fn is_first(shape: Shape, word: &Word) -> bool
    ensures { IsTrue result ↔ Follows shape (root_word 0) word.now }
{
    is_step(shape.n, 0, word.root, &[], word.letters.as_slice())
}

// Whether the word's cone ends where all ends.
fn is_last(shape: Shape, word: &Word) -> bool
    ensures { IsTrue result ↔ Follows shape word.now (root_word (suc shape.r)) }
{
    is_step(
        shape.n,
        word.root,
        shape.r + 1,
        word.letters.as_slice(),
        &[],
    )
}

// Whether the items' words follow one another, from the first cone to the last.
fn is_tiling<T, K: Heads<T>>(shape: Shape, by: K, items: &[T]) -> bool
    ensures { IsTrue result ↔ IsTiling shape (map (K.head by) items.now) }
{
    let Some((first, rest)) = items.split_first() else {
        return false;
    };
    let mut word = by.head(first);
    if !is_first(shape, word) {
        return false;
    }
    for item in rest {
        let next = by.head(item);
        if !follows(shape, word, next) {
            return false;
        }
        word = next;
    }
    is_last(shape, word)
}

// Whether the items' words are a basis in ascending order. One pass over neighbours, no memory.
pub(crate) fn is_ascending_basis<T, K: Heads<T>>(shape: Shape, by: K, items: &[T]) -> bool
    requires { All (IsWordOf shape) (map (K.head by) items.now) }
    ensures { IsTrue result ↔ (IsBasis shape (map (K.head by) items.now) × IsAscending (map (K.head by) items.now)) }
{
    is_tiling(shape, by, items)
}
