//! A run over a whole script, or the summary of a sample.
ghost use Rattle.std.specs.Prelude.{◌≡◌, ◌≢◌, ◌≤◌, ◌<◌, ◌⊎◌, List, ℕ, length, map, string_bytes, take, OnOk, OnErr, if◌then◌else◌};
ghost use Rattle.std.specs.Io.KnownBytes.{Appends, IsAtEnd};
ghost use Rattle.clap.specs.Words.{Text};
ghost use Rattle.ht_calc.specs.CommandLines.{AreBadWords, IsBudgetOf, IsSampleOf, IsSampled};
ghost use Rattle.ht_calc.specs.Fetches.{Fetched, AreFetches, AreAll, AreAmong};
ghost use Rattle.ht_calc.specs.ScriptLines.{lines_of};
ghost use Rattle.ht_calc.specs.Summaries.{SummaryTable};
ghost use Rattle.ht_calc.specs.Tables.{Took, SourceFails, SinkFails, Table};

use crate::Status;
use crate::lines::{Extent, Reading};
use crate::summary::run_sample;
use crate::words::{WordsFault, read_words};
use ht_out::{Failed, Library, Sink, Source};
use std::alloc::Global;

/// Reads a script piece by piece, and answers its lines: before each further read the answers to
/// all whole lines read so far are written. The words are those after the program's name, and give
/// the budget, in expansions, and maybe the number of a sample: `BadWords` comes where clap's
/// definition of the command has a fault at them, unless no memory is found before. The first event
/// ends the run, and the status says which: nothing that failed is tried again, each `load` of the
/// table of steps makes one fetch, and no other line makes any. What the status says of the bytes
/// taken and written, and of the files fetched, is the clause `table`.
///
/// Where the words give the number of a sample, no script is read and no file fetched: the summary of
/// the sample is written, each line of it before the next is made.
///
/// Reads into a buffer of 4,096 bytes; beside the answers to one buffer it keeps the line that is
/// begun, of at most 65,536 bytes. One pass over the bytes, whatever their pieces, beside the time
/// of each answer (`Session::answer`).
pub fn run<S: Source, L: Library, K: Sink>(
    alloc: Global,
    words: &[String],
    script: &mut S,
    files: &mut L,
    out: &mut K,
) -> Status
    ensures words { result ≡ Status.BadWords → AreBadWords (map string_bytes words.now) }
    ensures refused { AreBadWords (map string_bytes words.now) → (result ≡ Status.BadWords) ⊎ (result ≡ Status.NoMemory) }
    ensures table { (T O : List ℕ) × (fetches : List Fetched)
        × Took (S.left script.old) (S.left script.new) (S.taken script.old) (S.taken script.new) T
        × Appends (K.held out.old) (K.held out.new) O
        × AreFetches (L.files files.old) (L.faults files.old) (L.faults files.new) fetches
        × (¬ IsSampled (map string_bytes words.now) → Table (map string_bytes words.now) (IsAtEnd (S.left script.new)) (SourceFails S.left S.taken S.faults script.old script.new T) (SinkFails K.held K.faults out.old out.new O)
        (AreAll (L.asked files.old) (L.asked files.new) fetches) (AreAmong (L.asked files.old) (L.asked files.new) fetches (length (lines_of T))) T fetches O result)
        × ((number : ℕ) → IsSampleOf (map string_bytes words.now) number → SummaryTable (map string_bytes words.now) number (SinkFails K.held K.faults out.old out.new O) O result) }
    ensures unread { IsSampled (map string_bytes words.now) → (script.new ≡ script.old) × (files.new ≡ files.old) }
    ensures source_kept { result ≢ Status.ReadFault → S.faults script.new ≡ S.faults script.old }
    ensures sink_kept { result ≢ Status.WriteFault → K.faults out.new ≡ K.faults out.old }
    ensures files { L.files files.new ≡ L.files files.old }
{
    match read_words(alloc, words) {
        Ok(settings) => match settings.sample {
            None => run_script(alloc, settings.budget, script, files, out),
            Some(number) => run_sample(alloc, settings.budget, number, out),
        },
        Err(WordsFault::Bad) => Status::BadWords,
        Err(WordsFault::NoMemory) => Status::NoMemory,
    }
}

fn run_script<S: Source, L: Library, K: Sink>(
    alloc: Global,
    budget: u32,
    script: &mut S,
    files: &mut L,
    out: &mut K,
) -> Status
    requires { (1 ≤ budget) × (budget ≤ 65536) }
    ensures ran { result ≢ Status.BadWords }
    ensures table { (words : List Text) → IsBudgetOf words budget → (T O : List ℕ) × (fetches : List Fetched)
        × Took (S.left script.old) (S.left script.new) (S.taken script.old) (S.taken script.new) T
        × Appends (K.held out.old) (K.held out.new) O
        × AreFetches (L.files files.old) (L.faults files.old) (L.faults files.new) fetches
        × Table words (IsAtEnd (S.left script.new)) (SourceFails S.left S.taken S.faults script.old script.new T) (SinkFails K.held K.faults out.old out.new O) (AreAll (L.asked files.old) (L.asked files.new) fetches)
        (AreAmong (L.asked files.old) (L.asked files.new) fetches (length (lines_of T))) T fetches O result }
    ensures source_kept { result ≢ Status.ReadFault → S.faults script.new ≡ S.faults script.old }
    ensures sink_kept { result ≢ Status.WriteFault → K.faults out.new ≡ K.faults out.old }
    ensures files { L.files files.new ≡ L.files files.old }
{
    let mut reading = Reading::new(alloc, budget);
    let mut text = Vec::new(alloc);
    let mut buffer = [0u8; 4096];
    'read: loop {
        let Ok(count) = script.next(&mut buffer) else {
            return Status::ReadFault;
        };
        text.clear();
        let Ok(extent) = reading.take(alloc, &buffer[..count], files, &mut text) else {
            return Status::NoMemory;
        };
        let Ok(()) = write_all(out, &text) else {
            return Status::WriteFault;
        };
        match extent {
            Extent::Within => {}
            Extent::Ended => return ended(reading.some_refused()),
            Extent::TooLong => return Status::TooLong,
        }
    }
}

// The status at the end of a script or a summary.
pub(crate) fn ended(some_refused: bool) -> Status
    ensures { result ≡ (if some_refused then Status.SomeRefused else Status.Done) }
{
    if some_refused {
        Status::SomeRefused
    } else {
        Status::Done
    }
}

// Puts all of the text.
pub(crate) fn write_all<K: Sink>(out: &mut K, text: &[u8]) -> Result<(), Failed>
    ensures written { (k : ℕ) × (k ≤ length text.now) × Appends (K.held out.old) (K.held out.new) (take k text.now) × OnOk result (k ≡ length text.now)
        × OnErr result (SinkFails K.held K.faults out.old out.new (take k text.now)) }
    ensures kept { OnOk result (K.faults out.new ≡ K.faults out.old) }
{
    let mut at = 0;
    'write: while at < text.len() {
        at += out.put(&text[at..])?;
    }
    Ok(())
}
