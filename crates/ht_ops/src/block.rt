//! The rows that rows give with other rows: a block for each row.
ghost use Rattle.std.specs.Prelude.{◌≡◌, ◌++◌, map, Contains, IfOk, OnOk};
ghost use Rattle.ht_word.specs.Words.{IsUnder, IsAscending};
ghost use Rattle.ht_pair.specs.declared.row.Row.{Row};
ghost use Rattle.ht_pair.specs.Bases.{IsPrefixFree, IsBasis};
ghost use Rattle.ht_pair.specs.Pairs.{from_words};
ghost use Rattle.ht_pair.specs.Tables.{IsTable};
ghost use Rattle.ht_ops.specs.Blocks.{moved_by, carried_by, HasGiven, AreBlocks};

use crate::run::run_under;
use ht_pair::{Row, Rows, place_of};
use ht_word::{NoMemory, Shape};
use std::alloc::Global;

// The row, and then the other, which moves all words under the row's `to` word.
fn moved(alloc: Global, row: &Row, other: &Row) -> Result<Row, NoMemory>
    requires { IsUnder row.now.to other.now.from }
    ensures { IfOk result (λ x. x ≡ moved_by row.now other.now) }
{
    let rest = &row.to.letters.as_slice()[other.from.letters.len()..];
    let from = row.from.copy(alloc)?;
    let to = other.to.joined(alloc, rest)?;
    Ok(Row { from, to })
}

// The row, and then the other, which moves some words under the row's `to` word.
fn carried(alloc: Global, row: &Row, other: &Row) -> Result<Row, NoMemory>
    requires { IsUnder other.now.from row.now.to }
    ensures { IfOk result (λ x. x ≡ carried_by row.now other.now) }
{
    let rest = &other.from.letters.as_slice()[row.to.letters.len()..];
    let from = row.from.joined(alloc, rest)?;
    let to = other.to.copy(alloc)?;
    Ok(Row { from, to })
}

// Adds the row, followed by each row of the run. One pass over their letters.
fn add_run(alloc: Global, rows: &mut Rows, row: &Row, run: &[Row]) -> Result<(), NoMemory>
    requires { (x : Row) → Contains run.now x → IsUnder x.from row.now.to }
    ensures { OnOk result (rows.new ≡ rows.old ++ map (carried_by row.now) run.now) }
{
    for other in run {
        rows.push(carried(alloc, row, other)?)?;
    }
    Ok(())
}

// Adds the rows that the row gives with the other rows: one where a row of these moves all that it
// gives, and else one for each of the run below its `to` word. O(log N) comparisons of words for the
// N other rows, and one for each row that is added.
pub(crate) fn add_block(
    alloc: Global,
    rows: &mut Rows,
    row: &Row,
    others: &[Row],
) -> Result<(), NoMemory>
    requires prefix_free { IsPrefixFree (from_words others.now) }
    requires ascending { IsAscending (from_words others.now) }
    ensures { OnOk result (HasGiven others.now row.now rows.old rows.new) }
{
    match place_of(others, &row.to) {
        Some(place) => {
            rows.push(moved(alloc, row, &others[place])?)?;
            Ok(())
        }
        None => add_run(alloc, rows, row, run_under(others, &row.to)),
    }
}

// The rows that the rows give with the others, block by block, in order. O(log N) comparisons of
// words for each row, for the N others, and one for each row made.
pub(crate) fn blocks_of(
    alloc: Global,
    shape: Shape,
    rows: &[Row],
    others: &[Row],
) -> Result<Rows, NoMemory>
    requires table { IsTable shape rows.now }
    requires basis { IsBasis shape (from_words others.now) }
    requires ascending { IsAscending (from_words others.now) }
    ensures { IfOk result (AreBlocks shape others.now rows.now) }
{
    let mut blocks = Rows::new(alloc);
    for row in rows {
        add_block(alloc, &mut blocks, row, others)?;
    }
    Ok(blocks)
}
