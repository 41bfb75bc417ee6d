//! The test whether rows are a pair, and the rows of a pair in order.
ghost use Rattle.std.specs.Prelude.{◌↔◌, IsTrue, IfOk, MatchOption, MatchResult};
ghost use Rattle.ht_pair.specs.Pairs.{IsPair};
ghost use Rattle.ht_pair.specs.Sides.{IsSortedPair};
ghost use Rattle.ht_pair.specs.RowsFaults.{IsRowOf, AreRowsOf, IsFirstForeign, IsRowsFault};

use crate::side::Side;
use crate::sorted::{sort, sort_and_test};
use crate::{Row, Rows, RowsFault};
use ht_word::{NoMemory, Shape};

// Whether both words of a row are of the shape.
fn is_row_of(shape: Shape, row: &Row) -> bool
    ensures { IsTrue result ↔ IsRowOf shape row.now }
{
    shape.holds(&row.from) && shape.holds(&row.to)
}

// The place of the first row that isn't of the shape, counted from 1. One pass over the letters.
fn first_foreign(shape: Shape, rows: &[Row]) -> Option<usize>
    ensures { MatchOption result (AreRowsOf shape rows.now) (IsFirstForeign shape rows.now) }
{
    for (index, row) in rows.iter().enumerate() {
        if !is_row_of(shape, row) {
            return Some(index + 1);
        }
    }
    None
}

// The rows in order of `from`, where they are a pair. O(N log N) comparisons of words.
pub(crate) fn sorted_pair(shape: Shape, rows: Rows) -> Result<Rows, RowsFault>
    ensures { MatchResult result (IsSortedPair shape rows) (IsRowsFault shape rows) }
{
    if let Some(place) = first_foreign(shape, rows.as_slice()) {
        return Err(RowsFault::Foreign(place));
    }
    let (by_to, to_is_basis) = sort_and_test(shape, Side::To, rows)?;
    let (by_from, from_is_basis) = sort_and_test(shape, Side::From, by_to)?;
    if !from_is_basis {
        return Err(RowsFault::FromNotBasis);
    }
    if !to_is_basis {
        return Err(RowsFault::ToNotBasis);
    }
    Ok(by_from)
}

/// The rows of a pair in ascending order of `from`. Sorts N rows by O(N log N) comparisons of words.
pub fn sort_pair(shape: Shape, rows: Rows) -> Result<Rows, NoMemory>
    requires { IsPair shape rows }
    ensures { IfOk result (IsSortedPair shape rows) }
{
    sort(Side::From, rows)
}
