//! A summary of a sample: six lines about its elements.
ghost use Rattle.std.specs.Prelude.{◌≡◌, ◌≢◌, ◌≤◌, ℕ, List, IfOk};
ghost use Rattle.std.specs.Io.KnownBytes.{Appends};
ghost use Rattle.clap.specs.Words.{Text};
ghost use Rattle.ht_calc.specs.CommandLines.{IsBudgetOf};
ghost use Rattle.ht_calc.specs.Summaries.{asked, IsSummed, HasSummedText, SummaryTable};
ghost use Rattle.ht_calc.specs.Tables.{SinkFails};

use crate::bindings::Bindings;
use crate::script::{ended, write_all};
use crate::summed::{Summed, basis_size, print_summed, shortened};
use crate::{Session, Status};
use ht_ask::Question;
use ht_out::Sink;
use ht_sample::{SampleElements, sample};
use ht_word::{Name, NoMemory};
use std::alloc::Global;

// How many lines a summary has.
const LINES: usize = 6;

/// Makes the sample of the number, and writes the lines of its summary, each before the next is made.
/// The budget is in expansions. What was written, by the status, is the clause `table`. Makes the
/// quasinormal bases anew for each line that takes them.
pub(crate) fn run_sample<K: Sink>(alloc: Global, budget: u32, number: u64, out: &mut K) -> Status
    requires { (1 ≤ budget) × (budget ≤ 65536) }
    ensures ran { (result ≢ Status.BadWords) × (result ≢ Status.ReadFault) }
    ensures table { (words : List Text) → IsBudgetOf words budget → (O : List ℕ) × Appends (K.held out.old) (K.held out.new) O
        × SummaryTable words number (SinkFails K.held K.faults out.old out.new O) O result }
    ensures sink_kept { result ≢ Status.WriteFault → K.faults out.new ≡ K.faults out.old }
{
    let Ok(sample) = sample(alloc, number) else {
        return Status::NoMemory;
    };
    let mut some_refused = false;
    let mut text = Vec::new(alloc);
    for before in 0..LINES {
        let Ok(line) = line_at(alloc, before + 1, budget, number, &sample) else {
            return Status::NoMemory;
        };
        some_refused = line.refuses_too(some_refused);
        text.clear();
        let Ok(()) = print_summed(&line, &mut text) else {
            return Status::NoMemory;
        };
        let Ok(()) = write_all(out, &text) else {
            return Status::WriteFault;
        };
    }
    ended(some_refused)
}

// The line of the place, counted from 1.
fn line_at(
    alloc: Global,
    place: usize,
    budget: u32,
    number: u64,
    sample: &SampleElements,
) -> Result<Summed, NoMemory>
    requires limits { (1 ≤ budget) × (budget ≤ 65536) }
    requires one_shape { sample.now.c.shape ≡ sample.now.a.shape }
    requires place { (1 ≤ place) × (place ≤ 6) }
    ensures line { IfOk result (IsSummed number budget sample.now.a sample.now.h sample.now.c place) }
    ensures text { IfOk result HasSummedText }
{
    match place {
        1 => Ok(Summed::Sample(number)),
        2 => Ok(rows(sample)),
        3 => bases(alloc, budget, sample),
        4 => conjugacy(alloc, budget, sample),
        5 => order(alloc, budget, sample),
        _ => powers(alloc, budget, sample),
    }
}

fn rows(sample: &SampleElements) -> Summed
    ensures line { (number budget : ℕ) → IsSummed number budget sample.now.a sample.now.h sample.now.c 2 result }
    ensures text { HasSummedText result }
{
    Summed::Rows {
        a: sample.a.row_count(),
        h: sample.h.row_count(),
        c: sample.c.row_count(),
    }
}

fn bases(alloc: Global, budget: u32, sample: &SampleElements) -> Result<Summed, NoMemory>
    requires limits { (1 ≤ budget) × (budget ≤ 65536) }
    requires one_shape { sample.now.c.shape ≡ sample.now.a.shape }
    ensures line { (number : ℕ) → IfOk result (IsSummed number budget sample.now.a sample.now.h sample.now.c 3) }
    ensures text { IfOk result HasSummedText }
{
    let session = asked(alloc, budget, sample)?;
    let first = session.ask(alloc, Question::Basis, Name::from_slice(alloc, b"a")?)?;
    let Some(a) = basis_size(&first) else {
        return Ok(Summed::Answer(first));
    };
    let second = session.ask(alloc, Question::Basis, Name::from_slice(alloc, b"c")?)?;
    let Some(c) = basis_size(&second) else {
        return Ok(Summed::Answer(second));
    };
    Ok(Summed::Bases { a, c })
}

fn conjugacy(alloc: Global, budget: u32, sample: &SampleElements) -> Result<Summed, NoMemory>
    requires limits { (1 ≤ budget) × (budget ≤ 65536) }
    requires one_shape { sample.now.c.shape ≡ sample.now.a.shape }
    ensures line { (number : ℕ) → IfOk result (IsSummed number budget sample.now.a sample.now.h sample.now.c 4) }
    ensures text { IfOk result HasSummedText }
{
    let mut session = asked(alloc, budget, sample)?;
    let bound = Name::from_slice(alloc, b"h")?;
    let first = Name::from_slice(alloc, b"a")?;
    let second = Name::from_slice(alloc, b"c")?;
    let answer = session.conjugate(alloc, bound, first, second)?;
    Ok(shortened(answer))
}

fn order(alloc: Global, budget: u32, sample: &SampleElements) -> Result<Summed, NoMemory>
    requires limits { (1 ≤ budget) × (budget ≤ 65536) }
    requires one_shape { sample.now.c.shape ≡ sample.now.a.shape }
    ensures line { (number : ℕ) → IfOk result (IsSummed number budget sample.now.a sample.now.h sample.now.c 5) }
    ensures text { IfOk result HasSummedText }
{
    let session = asked(alloc, budget, sample)?;
    let answer = session.ask(alloc, Question::Order, Name::from_slice(alloc, b"a")?)?;
    Ok(Summed::Answer(answer))
}

fn powers(alloc: Global, budget: u32, sample: &SampleElements) -> Result<Summed, NoMemory>
    requires limits { (1 ≤ budget) × (budget ≤ 65536) }
    requires one_shape { sample.now.c.shape ≡ sample.now.a.shape }
    ensures line { (number : ℕ) → IfOk result (IsSummed number budget sample.now.a sample.now.h sample.now.c 6) }
    ensures text { IfOk result HasSummedText }
{
    let session = asked(alloc, budget, sample)?;
    let first = Name::from_slice(alloc, b"a")?;
    let second = Name::from_slice(alloc, b"c")?;
    let answer = session.power(alloc, first, second)?;
    Ok(shortened(answer))
}

// A session in which the names a and c are bound to copies of these elements.
fn asked(alloc: Global, budget: u32, sample: &SampleElements) -> Result<Session, NoMemory>
    requires limits { (1 ≤ budget) × (budget ≤ 65536) }
    requires one_shape { sample.now.c.shape ≡ sample.now.a.shape }
    ensures { IfOk result (λ session. session ≡ asked budget sample.now.a sample.now.c) }
{
    let mut session = Session {
        shape: Some(sample.a.shape()),
        budget,
        names: Bindings::new(alloc),
    };
    session.bind(Name::from_slice(alloc, b"a")?, sample.a.copy(alloc)?)?;
    session.bind(Name::from_slice(alloc, b"c")?, sample.c.copy(alloc)?)?;
    Ok(session)
}
