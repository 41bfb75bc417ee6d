//! The product of two pairs that moves all that it can.
ghost use Rattle.std.specs.Prelude.{IfOk};
ghost use Rattle.ht_word.specs.Words.{IsAscending};
ghost use Rattle.ht_pair.specs.Pairs.{IsPair, from_words};
ghost use Rattle.ht_ops.specs.Blocks.{IsFullProduct};

use crate::block::blocks_of;
use ht_pair::{Row, Rows};
use ht_word::{NoMemory, Shape};
use std::alloc::Global;

/// The rows of the first pair, and then the second pair: the pair that moves each word that the
/// first pair moves to a word that the second moves. Its rows are in ascending order of `from`, and
/// not reduced. From M and N rows it makes at most M + N rows, by O(M log N + N) comparisons of
/// words.
pub fn full_product(
    alloc: Global,
    shape: Shape,
    rows: &[Row],
    others: &[Row],
) -> Result<Rows, NoMemory>
    requires first { IsPair shape rows.now }
    requires ascending { IsAscending (from_words rows.now) }
    requires second { IsPair shape others.now }
    requires others_ascending { IsAscending (from_words others.now) }
    ensures { IfOk result (IsFullProduct shape rows.now others.now) }
{
    blocks_of(alloc, shape, rows, others)
}
