//! Texts of rows.
ghost use Rattle.std.specs.Prelude.{◌≡◌, ◌++◌, List, IfOk, OnOk, OnErr, MatchOption};
ghost use Rattle.ht_pair.specs.declared.row.Row.{Row};
ghost use Rattle.ht_text.specs.Texts.{HasRowText, HasRowsText, row_text, rows_text, ended_text, IsRow, IsRows};
ghost use Rattle.ht_text.specs.Writes.{AddsFront};

use crate::bytes::cut;
use crate::word::{read_word, write_word};
use ht_pair::{Row, Rows};
use ht_word::NoMemory;
use std::alloc::Global;

/// Appends the text of rows, nothing for none. One pass over them. After a refusal `out` holds what
/// it held and a front of the text.
pub fn write_rows(rows: &Rows, out: &mut Vec<u8>) -> Result<(), NoMemory>
    requires { HasRowsText rows.now }
    ensures ok { OnOk result (out.new.items ≡ out.old.items ++ rows_text rows.now) }
    ensures err { OnErr result (AddsFront out.old.items out.new.items (rows_text rows.now)) }
{
    let Some((last, before)) = rows.as_slice().split_last() else {
        return Ok(());
    };
    for row in before {
        write_ended(row, out)?;
    }
    write_row(last, out)
}

// Appends the text of a row that isn't the last.
fn write_ended(row: &Row, out: &mut Vec<u8>) -> Result<(), NoMemory>
    requires { HasRowText row.now }
    ensures ok { OnOk result (out.new.items ≡ out.old.items ++ ended_text row.now) }
    ensures err { OnErr result (AddsFront out.old.items out.new.items (ended_text row.now)) }
{
    write_row(row, out)?;
    out.push(b';')?;
    Ok(())
}

// Appends the text of a row.
pub(crate) fn write_row(row: &Row, out: &mut Vec<u8>) -> Result<(), NoMemory>
    requires { HasRowText row.now }
    ensures ok { OnOk result (out.new.items ≡ out.old.items ++ row_text row.now) }
    ensures err { OnErr result (AddsFront out.old.items out.new.items (row_text row.now)) }
{
    write_word(&row.from, out)?;
    out.push(b'>')?;
    write_word(&row.to, out)
}

/// The rows that the bytes are the text of; `None` exactly where they are the text of none, as where
/// they are empty. Four passes over them.
pub fn read_rows(alloc: Global, bytes: &[u8]) -> Result<Option<Rows>, NoMemory>
    ensures { IfOk result (λ found. MatchOption found ((rows : List Row) → ¬ IsRows bytes.now rows) (IsRows bytes.now)) }
{
    let mut rows = Rows::new(alloc);
    let mut rest = bytes;
    'rows: while let Some((piece, behind)) = cut(rest, b';') {
        let Some(row) = read_row(alloc, piece)? else {
            return Ok(None);
        };
        rows.push(row)?;
        rest = behind;
    }
    let Some(last) = read_row(alloc, rest)? else {
        return Ok(None);
    };
    rows.push(last)?;
    Ok(Some(rows))
}

// The row that the bytes are the text of. Three passes over them.
pub(crate) fn read_row(alloc: Global, bytes: &[u8]) -> Result<Option<Row>, NoMemory>
    ensures { IfOk result (λ found. MatchOption found ((row : Row) → ¬ IsRow bytes.now row) (IsRow bytes.now)) }
{
    let Some((first, second)) = cut(bytes, b'>') else {
        return Ok(None);
    };
    let Some(from) = read_word(alloc, first)? else {
        return Ok(None);
    };
    let Some(to) = read_word(alloc, second)? else {
        return Ok(None);
    };
    Ok(Some(Row { from, to }))
}
