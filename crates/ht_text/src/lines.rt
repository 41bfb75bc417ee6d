//! Lines of element files, from the front of bytes.
ghost use Rattle.std.specs.Prelude.{◌≡◌, ◌≢◌, ◌++◌, ◌∷◌, ℕ, List, length, codes, IfOk, IfErr, MatchOption};
ghost use Rattle.ht_pair.specs.declared.row.Row.{Row};
ghost use Rattle.ht_text.specs.Files.{IsFile};
ghost use Rattle.ht_text.specs.FileLines.{head_line, IsGroupFront, IsCountFront, IsFileHead, IsRowFront, IsLinesFault, IsEnding};

use crate::bytes::{after, cut};
use crate::fault::FileFault;
use crate::number::{read_digits, read_num};
use crate::rows::read_row;
use ht_pair::{Row, Rows};
use ht_word::NoMemory;
use std::alloc::Global;

// The numbers of a file's first lines, and what is behind these.
#[derive(Clone, Copy)]
pub(crate) struct Head<'a> {
    n: u32,
    r: u32,
    count: u32,
    rest: &'a [u8],
}

// What stands where the last line is due.
#[derive(Clone, Copy, Debug)]
pub(crate) enum Ending {
    // The last line, and nothing behind it.
    Whole,
    // No whole last line, nor one without its line feed.
    Missing,
    // The whole last line, and something behind it.
    Behind,
}

// The numbers and rows of a file.
#[derive(Debug, Drop)]
pub(crate) struct FileRows {
    pub(crate) n: u32,
    pub(crate) r: u32,
    pub(crate) rows: Rows,
}

// The numbers and rows of the file that the bytes are. A few passes over them; rows take memory as
// their lines are read.
pub(crate) fn read_lines(alloc: Global, bytes: &[u8]) -> Result<FileRows, FileFault>
    ensures file { IfOk result (λ file. IsFile bytes.now file.n file.r file.rows) }
    ensures fault { IfErr result (IsLinesFault bytes.now) }
{
    let head = read_head(bytes)?;
    let mut rows = Rows::new(alloc);
    let mut rest = head.rest;
    for i in 0..head.count {
        let Some((row, behind)) = row_front(alloc, rest)? else {
            return Err(FileFault::Form(i as usize + 4));
        };
        rows.push(row)?;
        rest = behind;
    }
    match read_ending(rest) {
        Ending::Whole => Ok(FileRows {
            n: head.n,
            r: head.r,
            rows,
        }),
        Ending::Missing => Err(FileFault::Form(head.count as usize + 4)),
        Ending::Behind => Err(FileFault::Form(head.count as usize + 5)),
    }
}

// The first three lines. One pass over them.
fn read_head(bytes: &[u8]) -> Result<Head<'_>, FileFault>
    ensures head { IfOk result (λ head. IsFileHead bytes.now head.n head.r head.count head.rest.now) }
    ensures fault { IfErr result (IsLinesFault bytes.now) }
{
    let Some(text) = after(bytes, b"ht-element 1\n") else {
        return Err(FileFault::Form(1));
    };
    let Some((n, r, text)) = group_front(text) else {
        return Err(FileFault::Form(2));
    };
    let Some((count, rest)) = count_front(text) else {
        return Err(FileFault::Form(3));
    };
    Ok(Head { n, r, count, rest })
}

// The numbers of a second line, and what is behind it. One pass over the bytes at most.
fn group_front(bytes: &[u8]) -> Option<(u32, u32, &[u8])>
    ensures { MatchOption result ((n r : ℕ) (rest : List ℕ) → ¬ IsGroupFront bytes.now n r rest)
        (λ front. IsGroupFront bytes.now front.0 front.1 front.2.now) }
{
    let Some(text) = after(bytes, b"group ") else {
        return None;
    };
    let Some((first, behind)) = cut(text, b' ') else {
        return None;
    };
    let Some((second, rest)) = cut(behind, b'\n') else {
        return None;
    };
    let Some(n) = read_num(first) else {
        return None;
    };
    let Some(r) = read_num(second) else {
        return None;
    };
    Some((n, r, rest))
}

// The number of a third line, and what is behind it. One pass over the bytes at most.
fn count_front(bytes: &[u8]) -> Option<(u32, &[u8])>
    ensures { MatchOption result ((k : ℕ) (rest : List ℕ) → ¬ IsCountFront bytes.now k rest)
        (λ front. IsCountFront bytes.now front.0 front.1.now) }
{
    let Some(text) = after(bytes, b"rows ") else {
        return None;
    };
    let Some((digits, rest)) = cut(text, b'\n') else {
        return None;
    };
    let Some(count) = read_digits(digits, 6) else {
        return None;
    };
    if count == 0 {
        return None;
    }
    Some((count, rest))
}

// The row of a line, and what is behind it. Four passes over the line.
fn row_front(alloc: Global, bytes: &[u8]) -> Result<Option<(Row, &[u8])>, NoMemory>
    ensures { IfOk result (λ found. MatchOption found ((row : Row) (rest : List ℕ) → ¬ IsRowFront bytes.now row rest)
        (λ front. IsRowFront bytes.now front.0 front.1.now)) }
{
    let Some((line, rest)) = cut(bytes, b'\n') else {
        return Ok(None);
    };
    let Some(row) = read_row(alloc, line)? else {
        return Ok(None);
    };
    Ok(Some((row, rest)))
}

// What stands where the last line is due. Constant time.
fn read_ending(rest: &[u8]) -> Ending
    ensures { IsEnding rest.now result }
{
    let Some(behind) = after(rest, b"end") else {
        return Ending::Missing;
    };
    match behind {
        [] | [b'\n'] => Ending::Whole,
        [b'\n', ..] => Ending::Behind,
        _ => Ending::Missing,
    }
}
