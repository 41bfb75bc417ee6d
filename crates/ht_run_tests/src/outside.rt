//! One run over objects in memory. One function owns them all: where they are let go, the prover goes
//! through all that they keep.
ghost use Rattle.std.specs.Prelude.{◌<◌, ◌^◌, ◌-◌, All, IfOk};

use ht_calc::run;
use ht_out::{FileEntry, Files, MemLibrary, MemSink, MemSource};
use ht_word::List;
use std::alloc::Global;
use std::test::Fail;

pub(crate) const FILE: &[u8] =
    b"ht-element 1\ngroup 2 1\nrows 3\nx1.1>x1.11\nx1.21>x1.12\nx1.22>x1.2\nend\n";

// What a run stands on. Each part that fails does so at one call, which is given by its number from 0.
#[derive(Clone, Copy)]
pub(crate) struct Outside<'a> {
    pub(crate) script: &'a [u8],
    // the bytes of the one file, `b.ht`
    pub(crate) file: &'a [u8],
    // the most bytes of a read, and of a write
    pub(crate) pieces: (usize, usize),
    // the most bytes that the sink holds
    pub(crate) room: usize,
    pub(crate) failing_read: Option<u32>,
    pub(crate) failing_write: Option<u32>,
    pub(crate) failing_fetch: Option<u32>,
}

// A script with the file, where nothing fails.
pub(crate) fn calm(script: &[u8]) -> Outside<'_> {
    Outside {
        script,
        file: FILE,
        pieces: (10, 7),
        room: 1_000_000,
        failing_read: None,
        failing_write: None,
        failing_fetch: None,
    }
}

// The status of a run, and what it wrote.
pub(crate) fn run_over(
    alloc: Global,
    words: &[String],
    outside: Outside<'_>,
) -> Result<(u8, Vec<u8>), Fail> {
    let script = Vec::from_slice(alloc, outside.script)?;
    let reads = calls(alloc, outside.failing_read)?;
    let writes = calls(alloc, outside.failing_write)?;
    let mut source = MemSource::new(script, outside.pieces.0.max(1), reads);
    let mut files = library(alloc, outside.file, outside.failing_fetch)?;
    let mut sink = MemSink::new(alloc, outside.room, outside.pieces.1.max(1), writes)?;
    let status = run(alloc, words, &mut source, &mut files, &mut sink);
    Ok((status.number(), Vec::from_slice(alloc, sink.held())?))
}

// A library of the one file.
pub(crate) fn library(
    alloc: Global,
    file: &[u8],
    failing: Option<u32>,
) -> Result<MemLibrary, Fail> {
    let mut files = Files::new(alloc);
    files.push(FileEntry {
        name: List::from_vec(Vec::from_slice(alloc, b"b.ht")?),
        bytes: List::from_vec(Vec::from_slice(alloc, file)?),
    })?;
    Ok(MemLibrary::new(files, calls(alloc, failing)?))
}

// The list of the one number, or of none.
fn calls(alloc: Global, failing: Option<u32>) -> Result<Vec<u64>, Fail>
    ensures { IfOk result (λ calls. All (λ k. k < 2 ^ 64 - 1) calls.items) }
{
    match failing {
        Some(k) => Ok(vec![in alloc; u64::from(k); 1]?),
        None => Ok(Vec::new(alloc)),
    }
}
