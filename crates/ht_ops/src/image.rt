//! Images: where powers of elements, one after another, send the words under a word.
ghost use Rattle.std.specs.Prelude.{◌≡◌, ◌≢◌, ◌↔◌, ℕ, List, [], ◌∷◌, ◌++◌, map, pos, IsTrue, IfOk, OnOk, MatchOption};
ghost use Rattle.ht_word.specs.declared.word.Word.{Word};
ghost use Rattle.ht_word.specs.Words.{◌·◌, IsLetters};
ghost use Rattle.ht_pair.specs.declared.row.Row.{Row};
ghost use Rattle.ht_pair.specs.Images.{Entry};
ghost use Rattle.ht_pair.specs.Pairs.{IsPair};
ghost use Rattle.ht_pair.specs.Tables.{IsTable};
ghost use Rattle.ht_pair.specs.ValueLists.{IsValueList, IsFollowed, Sends};
ghost use Rattle.ht_ops.specs.Blocks.{AreBlocks};
ghost use Rattle.ht_ops.specs.Walks.{IsWalked};

use crate::block::{add_block, blocks_of};
use crate::inverses::inverse;
use crate::powers::power;
use ht_pair::{Element, OpFault, Row, Rows, are_same_rows, merge_table};
use ht_word::{NoMemory, Shape, Word};
use std::alloc::Global;
use std::marker::Model;

// The most steps that are made without trying the power.
const MOST_WALKED: u128 = 1_024;

/// Where powers of elements, one after another, send the words under one word: a list of entries,
/// each of letters behind the word and the word that they lead to, in order of the letters.
#[derive(Debug, Drop)]
pub struct Image {
    // for each entry, a row from root 1 with the letters to the word
    rows: Rows,
}

impl Model for Image {
    ghost use Rattle.std.specs.Prelude.{List};
    ghost use Rattle.ht_pair.specs.Images.{Entry};
    ghost use Rattle.ht_ops.specs.ImageRows.{entries_of, AreBehindRoot};

    ghost Value = { List Entry };

    ghost view = { λ image. entries_of image.rows };

    ghost invariant = { λ image. AreBehindRoot image.rows };
}

impl Image {
    /// The words under the word, sent nowhere: the one entry that has no letters and the word.
    pub fn cone(alloc: Global, word: Word) -> Result<Image, NoMemory>
        ensures { IfOk result (λ image. image ≡ record { letters = []; word = word } ∷ []) }
    {
        let mut rows = Rows::new(alloc);
        let from = Word::new(alloc, 1);
        rows.push(Row { from, to: word })?;
        Ok(Image { rows })
    }

    /// An equal image. Copies the words.
    pub fn copy(&self, alloc: Global) -> Result<Image, NoMemory>
        ensures { IfOk result (λ copy. copy ≡ self.now) }
    {
        let root = Word::new(alloc, 1);
        let rows = rows_behind(alloc, &root, self.rows.as_slice())?;
        Ok(Image { rows })
    }

    /// The image followed by the element. For M entries and the element's N rows O(M log N)
    /// comparisons of words, one more for each row made, and one pass over these. At most M + N rows
    /// are made where no two entries' words are one above the other, as in each image that steps lead
    /// to from a cone.
    pub fn step(&self, alloc: Global, f: &Element) -> Result<Image, NoMemory>
        requires { IsValueList f.now.shape self.now }
        ensures { IfOk result (IsFollowed f.now.shape self.now f.now.rows (pos 1)) }
    {
        let moved = followed(alloc, self.rows.as_slice(), f)?;
        let rows = merge_table(alloc, f.shape(), moved)?;
        Ok(Image { rows })
    }

    /// The image followed by the k-th power of the element. Up to 1,024 steps are made one after
    /// another, with the element or its inverse. Beyond that the power is made first, and is one step:
    /// so elements of finite order answer at once. Only where the power is large all |k| steps are
    /// made.
    pub fn steps(&self, alloc: Global, f: &Element, k: i128) -> Result<Image, NoMemory>
        requires { IsValueList f.now.shape self.now }
        ensures { IfOk result (λ image. IsFollowed f.now.shape self.now f.now.rows k image) }
    {
        f.keeps_limits();
        if k.unsigned_abs() <= MOST_WALKED {
            return self.walk(alloc, f, k);
        }
        match power(alloc, f, k) {
            Ok(whole) => self.step(alloc, &whole),
            Err(OpFault::Large { .. }) => self.walk(alloc, f, k),
            Err(OpFault::NoMemory) => Err(NoMemory),
        }
    }

    /// The same by |k| steps, one after another, of the element or its inverse: where these are known
    /// to be few, or the power to be large.
    pub fn walk(&self, alloc: Global, f: &Element, k: i128) -> Result<Image, NoMemory>
        requires { IsValueList f.now.shape self.now }
        ensures { IfOk result (λ image. IsFollowed f.now.shape self.now f.now.rows k image) }
    {
        f.keeps_limits();
        if k < 0 {
            let back = inverse(alloc, f)?;
            self.walk_by(alloc, &back, k.unsigned_abs())
        } else {
            self.walk_by(alloc, f, k.unsigned_abs())
        }
    }

    /// The word that the whole cone is sent to; `None` exactly where it isn't sent to one cone. No
    /// memory; constant time.
    pub fn as_word(&self) -> Option<&Word>
        ensures { MatchOption result ((v : Word) → self.now ≢ record { letters = []; word = v } ∷ []) (λ v. self.now ≡ record { letters = []; word = v.now } ∷ []) }
    {
        if self.rows.len() != 1 {
            return None;
        }
        let row = self.rows.at(0);
        if row.from.letters.len() == 0 {
            Some(&row.to)
        } else {
            None
        }
    }

    /// A row for each entry, in order: from the base and the letters to the word. Copies the words.
    pub fn rows_under(&self, alloc: Global, base: &Word) -> Result<Rows, NoMemory>
        ensures { IfOk result (λ rows. rows ≡ map (λ (e : Entry). record { from = base.now · e.letters; to = e.word }) self.now) }
    {
        rows_behind(alloc, base, self.rows.as_slice())
    }

    /// What the image is behind the letters: where the words under the word with these letters behind
    /// it are sent. A binary search, and a copy of the entries below: one where one entry sends all
    /// these words.
    pub fn behind(&self, alloc: Global, shape: Shape, letters: &[u8]) -> Result<Image, NoMemory>
        requires image { IsValueList shape self.now }
        requires letters { IsLetters shape letters.now }
        ensures list { IfOk result (IsValueList shape) }
        ensures sends { IfOk result (λ image. (z : List ℕ) (v : Word) → IsLetters shape z → Sends image z v ↔ Sends self.now (letters.now ++ z) v) }
    {
        let from = Word::new(alloc, 1);
        let to = from.joined(alloc, letters)?;
        let mut rows = Rows::new(alloc);
        add_block(alloc, &mut rows, &Row { from, to }, self.rows.as_slice())?;
        Ok(Image { rows })
    }

    /// Whether the images are one. No memory; one pass over the entries.
    pub fn same(&self, other: &Image) -> bool
        ensures { IsTrue result ↔ (self.now ≡ other.now) }
    {
        are_same_rows(self.rows.as_slice(), other.rows.as_slice())
    }

    // The image followed so many times by the element.
    fn walk_by(&self, alloc: Global, g: &Element, count: u128) -> Result<Image, NoMemory>
        requires { IsValueList g.now.shape self.now }
        ensures { IfOk result (IsWalked g.now.shape self.now g.now.rows count) }
    {
        let mut image = self.copy(alloc)?;
        for _step in 0..count {
            image = image.step(alloc, g)?;
        }
        Ok(image)
    }
}

// The rows, and then the element, in order and not merged.
fn followed(alloc: Global, rows: &[Row], f: &Element) -> Result<Rows, NoMemory>
    requires { IsTable f.now.shape rows.now }
    ensures blocks { IfOk result (AreBlocks f.now.shape f.now.rows rows.now) }
    ensures second { OnOk result (IsPair f.now.shape f.now.rows) }
{
    f.keeps_limits();
    blocks_of(alloc, f.shape(), rows, f.as_rows())
}

// The rows, from the base with the letters of their `from` words.
fn rows_behind(alloc: Global, base: &Word, rows: &[Row]) -> Result<Rows, NoMemory>
    ensures { IfOk result (λ moved. moved ≡ map (λ (row : Row). record { from = base.now · row.from.letters; to = row.to }) rows.now) }
{
    let mut moved = Rows::new(alloc);
    for row in rows {
        let from = base.joined(alloc, row.from.letters.as_slice())?;
        let to = row.to.copy(alloc)?;
        moved.push(Row { from, to })?;
    }
    Ok(moved)
}
