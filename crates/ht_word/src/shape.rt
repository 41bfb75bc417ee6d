//! The shape of a group: how many letters and how many roots its words have.
ghost use Rattle.std.specs.Prelude.{◌≤◌};

use crate::Word;
use thiserror::Error;

/// A number of letters or of roots outside the limits.
#[derive(Clone, Copy, Debug, PartialEq, Eq, Error)]
#[error("the numbers are outside the limits")]
pub struct BadShape;

/// The n letters and r roots of the group G(n, r): n from 2 to 9, r from 1 to 256.
#[derive(Clone, Copy, Debug, PartialEq, Eq)]
pub struct Shape {
    pub n: u8,
    pub r: u16,
    pub ghost letters_low: { 2 ≤ n },
    pub ghost letters_high: { n ≤ 9 },
    pub ghost roots_low: { 1 ≤ r },
    pub ghost roots_high: { r ≤ 256 },
}

impl Shape {
    ghost use Rattle.std.specs.Prelude.{◌≡◌, ◌≤◌, ◌↔◌, IsTrue, IsOk, IfOk};
    ghost use Rattle.ht_word.specs.Shapes.{IsShape};
    ghost use Rattle.ht_word.specs.Words.{IsWordOf};

    /// The shape of these numbers. Refused exactly where they are outside the limits. Takes no memory.
    pub fn new(n: u32, r: u32) -> Result<Shape, BadShape>
        ensures exact { IsOk result ↔ IsShape n r }
        ensures value { IfOk result (λ shape. (shape.n ≡ n) × (shape.r ≡ r)) }
    {
        if n >= 2 && n <= 9 && r >= 1 && r <= 256 {
            Ok(Shape {
                n: n as u8,
                r: r as u16,
            })
        } else {
            Err(BadShape)
        }
    }

    /// The number of letters.
    pub fn n(&self) -> u8
        ensures { result ≡ self.now.n }
    {
        self.n
    }

    /// The number of roots.
    pub fn r(&self) -> u16
        ensures { result ≡ self.now.r }
    {
        self.r
    }

    /// Whether a word is of the shape. One pass over its letters; takes no memory.
    pub fn holds(&self, w: &Word) -> bool
        ensures { IsTrue result ↔ IsWordOf self.now w.now }
    {
        w.root >= 1
            && w.root <= self.r
            && w.letters
                .as_slice()
                .iter()
                .all(|letter| *letter >= 1 && *letter <= self.n)
    }
}
