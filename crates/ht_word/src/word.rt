//! Words: a root and letters.
ghost use Rattle.std.specs.Prelude.{◌≡◌, [], ◌∷◌, ◌++◌, ◌↔◌, IsTrue, IfOk, OnOk, OnErr, MatchOption};
ghost use Rattle.ht_word.specs.Words.{◌·◌, child, root_word, IsUnder, word_cmp};

use crate::{Letters, List, NoMemory};
use std::alloc::Global;
use std::cmp::Ordering;

/// A root and the letters after it (Higman 1974).
#[derive(Debug, Drop)]
pub struct Word {
    pub root: u16,
    pub letters: Letters,
}

/// A list of words.
pub type Words = List<Word>;

impl Word {
    /// The root alone. Takes no memory.
    pub fn new(alloc: Global, root: u16) -> Word
        ensures { result ≡ root_word root }
    {
        Word {
            root,
            letters: Letters::new(alloc),
        }
    }

    /// Adds one letter. After the refusal the word is unchanged.
    pub fn push(&mut self, letter: u8) -> Result<(), NoMemory>
        ensures ok { OnOk result (self.new ≡ child self.old letter) }
        ensures err { OnErr result (self.new ≡ self.old) }
    {
        self.letters.push(letter)
    }

    /// The word and one more letter. Copies the letters.
    pub fn child(&self, alloc: Global, letter: u8) -> Result<Word, NoMemory>
        ensures { IfOk result (λ word. word ≡ child self.now letter) }
    {
        let mut word = self.copy(alloc)?;
        word.push(letter)?;
        Ok(word)
    }

    /// The word and more letters. Copies both.
    pub fn joined(&self, alloc: Global, more: &[u8]) -> Result<Word, NoMemory>
        ensures { IfOk result (λ word. word ≡ self.now · more.now) }
    {
        let mut word = self.copy(alloc)?;
        word.letters.extend(more)?;
        Ok(word)
    }

    /// An equal word.
    pub fn copy(&self, alloc: Global) -> Result<Word, NoMemory>
        ensures { IfOk result (λ word. word ≡ self.now) }
    {
        let letters = Letters::from_slice(alloc, self.letters.as_slice())?;
        Ok(Word {
            root: self.root,
            letters,
        })
    }

    /// Whether the other word is under this one. At most one pass over this word's letters.
    pub fn is_prefix_of(&self, other: &Word) -> bool
        ensures { IsTrue result ↔ IsUnder other.now self.now }
    {
        self.root == other.root
            && other
                .letters
                .as_slice()
                .starts_with(self.letters.as_slice())
    }

    /// The letters after a prefix; `None` exactly where it isn't one. At most one pass over the
    /// prefix.
    pub fn rest_after<'a>(&'a self, prefix: &Word) -> Option<&'a [u8]>
        ensures { MatchOption result (¬ IsUnder self.now prefix.now) (λ rest. self.now ≡ prefix.now · rest.now) }
    {
        if self.root != prefix.root {
            return None;
        }
        self.letters
            .as_slice()
            .strip_prefix(prefix.letters.as_slice())
    }

    /// By root, then letter by letter, a proper prefix first.
    pub fn order(&self, other: &Word) -> Ordering
        ensures { result ≡ word_cmp self.now other.now }
    {
        self.root
            .cmp(&other.root)
            .then(self.letters.as_slice().cmp(other.letters.as_slice()))
    }

    /// Whether the words are equal.
    pub fn same(&self, other: &Word) -> bool
        ensures { IsTrue result ↔ (self.now ≡ other.now) }
    {
        self.root == other.root && self.letters.as_slice() == other.letters.as_slice()
    }
}
