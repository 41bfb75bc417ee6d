//! The letters of a word.
ghost use Rattle.std.specs.Prelude.{◌≡◌, [], ◌∷◌, ◌++◌, ◌<◌, length, slice_get, OnOk, OnErr, IfOk, MatchOption};

use crate::NoMemory;
use smallvec::SmallVec;
use std::alloc::Global;
use std::marker::Model;

/// A list of letters, seen by contracts as a list of numbers. Up to 24 letters take no allocation.
#[derive(Debug, Drop)]
pub struct Letters {
    items: SmallVec<u8, 24>,
}

impl Model for Letters {
    ghost use Rattle.std.specs.Prelude.{List, ℕ};

    ghost Value = { List ℕ };

    ghost view = { λ letters. letters.items.items };
}

impl Letters {
    /// The empty list. Takes no memory.
    pub fn new(alloc: Global) -> Self
        ensures { result ≡ [] }
    {
        Letters {
            items: SmallVec::new(alloc),
        }
    }

    /// The letters of a slice.
    pub fn from_slice(alloc: Global, letters: &[u8]) -> Result<Self, NoMemory>
        ensures { IfOk result (λ copy. copy ≡ letters.now) }
    {
        let items = SmallVec::from_slice(alloc, letters)?;
        Ok(Letters { items })
    }

    /// Adds a letter at the end. After the refusal the list is unchanged.
    pub fn push(&mut self, letter: u8) -> Result<(), NoMemory>
        ensures ok { OnOk result (self.new ≡ self.old ++ letter ∷ []) }
        ensures err { OnErr result (self.new ≡ self.old) }
    {
        self.items.push(letter)?;
        Ok(())
    }

    /// Adds letters at the end. After the refusal the list is unchanged.
    pub fn extend(&mut self, more: &[u8]) -> Result<(), NoMemory>
        ensures ok { OnOk result (self.new ≡ self.old ++ more.now) }
        ensures err { OnErr result (self.new ≡ self.old) }
    {
        self.items.extend_from_slice(more)?;
        Ok(())
    }

    /// Takes off the last letter; `None` exactly where there is none. Constant time.
    pub fn pop(&mut self) -> Option<u8>
        ensures { MatchOption result ((self.old ≡ []) × (self.new ≡ [])) (λ letter. self.old ≡ self.new ++ letter ∷ []) }
    {
        self.items.pop()
    }

    /// The number of letters.
    pub fn len(&self) -> usize
        ensures { result ≡ length self.now }
    {
        self.items.len()
    }

    /// The letter at a place, counted from 0. Constant time.
    pub fn at(&self, place: usize) -> &u8
        requires { place < length self.now }
        ensures { slice_get self.now place ≡ Some (result.now) }
    {
        &self.items.as_slice()[place]
    }

    /// The letters.
    pub fn as_slice(&self) -> &[u8]
        ensures { result.now ≡ self.now }
    {
        self.items.as_slice()
    }
}
