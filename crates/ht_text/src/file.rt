//! Files of elements.
ghost use Rattle.std.specs.Prelude.{◌≡◌, ◌≤◌, ◌++◌, List, length, codes, IfOk, IfErr, OnOk};
ghost use Rattle.ht_pair.specs.declared.row.Row.{Row};
ghost use Rattle.ht_pair.specs.Pairs.{IsPair, longest_of};
ghost use Rattle.ht_pair.specs.Actions.{IsCanonicalFor};
ghost use Rattle.ht_text.specs.Texts.{HasRowText, row_text};
ghost use Rattle.ht_text.specs.Files.{file_text, IsFileOf, IsFileFault};
ghost use Rattle.ht_text.specs.FileLines.{head_text};

use crate::fault::FileFault;
use crate::lines::read_lines;
use crate::number::{write_num, write_size};
use crate::rows::write_row;
use ht_pair::{Element, Row, RowsFault};
use ht_word::{NoMemory, Shape};
use std::alloc::Global;

// The most bytes that a file may have.
const MOST_BYTES: usize = 4_194_304;

/// The element of a file, which need not be reduced. `Form` comes exactly where the bytes are no
/// file, or too many; `Shape` where they are a file of other numbers than the shape's; `Rows` where
/// they are a file of its numbers whose rows are no element. A few passes over the bytes, then
/// `of_rows`, which sorts the rows; the rows take memory as their lines are read.
pub fn read_file(alloc: Global, bytes: &[u8], shape: Shape) -> Result<Element, FileFault>
    ensures element { IfOk result (λ element. (element.shape ≡ shape) × ((rows : List Row) × IsFileOf bytes.now shape rows × IsPair shape rows × IsCanonicalFor shape element.rows rows)) }
    ensures small { IfOk result (λ element. (length element.rows ≤ 8192) × (longest_of element.rows ≤ 1024)) }
    ensures fault { IfErr result (IsFileFault bytes.now shape) }
{
    if bytes.len() > MOST_BYTES {
        return Err(FileFault::Form(0));
    }
    let file = read_lines(alloc, bytes)?;
    if file.n != shape.n as u32 || file.r != shape.r as u32 {
        return Err(FileFault::Shape);
    }
    match Element::of_rows(alloc, shape, file.rows) {
        Ok(element) => Ok(element),
        Err(RowsFault::NoMemory) => Err(FileFault::NoMemory),
        Err(why) => Err(FileFault::Rows(why)),
    }
}

/// The file of the element's reduced rows. One pass over the rows.
pub fn write_file(alloc: Global, a: &Element) -> Result<Vec<u8>, NoMemory>
    ensures { IfOk result (λ bytes. bytes.items ≡ file_text a.now.shape.n a.now.shape.r a.now.rows) }
{
    a.keeps_limits();
    let mut out = Vec::new(alloc);
    write_head(a.shape(), a.row_count(), &mut out)?;
    for row in a.as_rows() {
        write_line(row, &mut out)?;
    }
    out.extend_from_slice(b"end\n")?;
    Ok(out)
}

// Appends the first three lines of a file.
fn write_head(shape: Shape, count: usize, out: &mut Vec<u8>) -> Result<(), NoMemory>
    ensures { OnOk result (out.new.items ≡ out.old.items ++ head_text shape.n shape.r count) }
{
    out.extend_from_slice(b"ht-element 1\ngroup ")?;
    write_num(shape.n as u32, out)?;
    out.push(b' ')?;
    write_num(shape.r as u32, out)?;
    out.extend_from_slice(b"\nrows ")?;
    write_size(count, out)?;
    out.push(b'\n')?;
    Ok(())
}

// Appends the line of a row.
fn write_line(row: &Row, out: &mut Vec<u8>) -> Result<(), NoMemory>
    requires { HasRowText row.now }
    ensures { OnOk result (out.new.items ≡ out.old.items ++ (row_text row.now ++ codes "\n")) }
{
    write_row(row, out)?;
    out.push(b'\n')?;
    Ok(())
}
