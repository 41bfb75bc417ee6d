//! Bytes to lines: a script that comes piece by piece.
ghost use Rattle.std.specs.Prelude.{◌≡◌, ◌≤◌, ◌<◌, ◌+◌, ◌∷◌, ◌++◌, ◌↔◌, [], List, ℕ, Option, length, IsTrue, OnOk, IfOk};
ghost use Rattle.ht_out.specs.Counts.{count_on, next_count};
ghost use Rattle.ht_calc.specs.declared.lines.Extent.TheVariants.{Within};
ghost use Rattle.ht_calc.specs.ScriptLines.{lines_of};
ghost use Rattle.ht_calc.specs.Progress.{IsOneLine, IsReady, Calls, Origin, Stands, IsFurtherOn};

use crate::answering::Answering;
use ht_out::Library;
use ht_text::cut;
use ht_word::NoMemory;
use std::alloc::Global;

const MAX_LINES: usize = 65_536;

// In bytes, without the line feed.
const MAX_LINE: usize = 65_536;

/// How far a script was read.
#[derive(Clone, Copy, Debug, PartialEq, Eq)]
pub enum Extent {
    /// It is within the limits so far.
    Within,
    /// To its end.
    Ended,
    /// To a byte that is beyond the limits.
    TooLong,
}

/// A script of which some bytes were read: its whole lines are answered, and one more is begun.
#[derive(Drop)]
pub struct Reading {
    answering: Answering,
    // has no line feed
    begun: Vec<u8>,
}

impl Reading {
    /// No byte is read yet. The budget is in expansions. Takes no memory.
    pub fn new(alloc: Global, budget: u32) -> Reading
        requires { (1 ≤ budget) × (budget ≤ 65536) }
        ensures stands { (files : Option (List (List ℕ × List ℕ))) (calls : Calls) → Stands Extent.Within [] [] files (record { budget = budget; calls = calls; done = 0; written = [] }) calls result }
        ensures ready { IsReady result }
    {
        Reading {
            answering: Answering::new(alloc, budget),
            begun: Vec::new(alloc),
        }
    }

    /// Whether some answer is a refusal.
    pub fn some_refused(&self) -> bool
        ensures { result ≡ self.now.answering.some_refused }
    {
        self.answering.some_refused()
    }

    /// Answers the lines that end in the next bytes of the script, and appends the texts of the
    /// answers; no bytes are its end. Beyond the limits no line is answered. One pass over the
    /// bytes, beside the answering. After `Within` the next bytes may be taken, and after anything
    /// else none: want of memory too ends the run.
    pub fn take<L: Library>(
        &mut self,
        alloc: Global,
        bytes: &[u8],
        files: &mut L,
        text: &mut Vec<u8>,
    ) -> Result<Extent, NoMemory>
        requires { IsReady self.old }
        ensures stands { (T O : List ℕ) (before : Origin)
            → Stands Extent.Within T (O ++ text.old.items) (L.files files.old) before (record { faults = L.faults files.old; asked = L.asked files.old }) self.old
            → IfOk result (λ extent. Stands extent (T ++ bytes.now) (O ++ text.new.items) (L.files files.old) before (record { faults = L.faults files.new; asked = L.asked files.new }) self.new) }
        ensures ready { IfOk result (λ extent. extent ≡ Extent.Within → IsReady self.new × IsFurtherOn self.old self.new) }
        ensures ended { IfOk result (λ extent. extent ≡ Extent.Ended → bytes.now ≡ []) }
        ensures files { L.files files.new ≡ L.files files.old }
        ensures later { L.faults files.old ≤ L.faults files.new }
        ensures asked { (L.asked files.old ≤ L.asked files.new) × (L.asked files.new ≤ count_on (L.asked files.old) (length (lines_of (self.old.begun.items ++ bytes.now)))) }
    {
        if bytes.is_empty() {
            self.end(alloc, files, text)?;
            return Ok(Extent::Ended);
        }
        let mut rest = bytes;
        'lines: while let Some((end, after)) = cut(rest, b'\n') {
            if !self.has_room(end) {
                return Ok(Extent::TooLong);
            }
            self.end_line(alloc, end, files, text)?;
            rest = after;
        }
        self.begin(rest)
    }

    // Whether the line that is begun may have these bytes too.
    fn has_room(&self, more: &[u8]) -> bool
        requires { length self.now.begun.items ≤ 65536 }
        ensures { IsTrue result ↔ (self.now.answering.lines < 65536) × (length self.now.begun.items + length more.now ≤ 65536) }
    {
        self.answering.lines() < MAX_LINES && more.len() <= MAX_LINE - self.begun.len()
    }

    // Answers the line that is begun and ends with these bytes.
    fn end_line<L: Library>(
        &mut self,
        alloc: Global,
        end: &[u8],
        files: &mut L,
        text: &mut Vec<u8>,
    ) -> Result<(), NoMemory>
        requires begun { IsOneLine self.old.begun.items }
        requires one_line { IsOneLine end.now }
        requires few { self.old.answering.lines < 65536 }
        requires short { length self.old.begun.items + length end.now ≤ 65536 }
        ensures stands { (T O : List ℕ) (before : Origin)
            → Stands Extent.Within T (O ++ text.old.items) (L.files files.old) before (record { faults = L.faults files.old; asked = L.asked files.old }) self.old
            → OnOk result (Stands Extent.Within (T ++ (end.now ++ 10 ∷ [])) (O ++ text.new.items) (L.files files.old) before (record { faults = L.faults files.new; asked = L.asked files.new }) self.new) }
        ensures count { OnOk result (self.new.answering.lines ≡ self.old.answering.lines + 1) }
        ensures begun { OnOk result (self.new.begun.items ≡ []) }
        ensures files { L.files files.new ≡ L.files files.old }
        ensures later { L.faults files.old ≤ L.faults files.new }
        ensures asked { (L.asked files.old ≤ L.asked files.new) × (L.asked files.new ≤ next_count (L.asked files.old)) }
    {
        if self.begun.is_empty() {
            return self.answering.answer(alloc, end, files, text);
        }
        self.begun.extend_from_slice(end)?;
        self.answering.answer(alloc, &self.begun, files, text)?;
        self.begun.clear();
        Ok(())
    }

    // Begins a line with these bytes, or goes on with it.
    fn begin(&mut self, bytes: &[u8]) -> Result<Extent, NoMemory>
        requires ready { IsReady self.old }
        requires one_line { IsOneLine bytes.now }
        ensures stands { (T O : List ℕ) (files : Option (List (List ℕ × List ℕ))) (before : Origin) (now : Calls)
            → Stands Extent.Within T O files before now self.old
            → IfOk result (λ extent. Stands extent (T ++ bytes.now) O files before now self.new) }
        ensures ready { IfOk result (λ extent. extent ≡ Extent.Within → IsReady self.new
            × (self.new.answering.lines ≡ self.old.answering.lines)
            × (self.new.begun.items ≡ self.old.begun.items ++ bytes.now)) }
        ensures ended { IfOk result (λ extent. extent ≡ Extent.Ended → ⊥) }
    {
        if bytes.is_empty() {
            return Ok(Extent::Within);
        }
        if !self.has_room(bytes) {
            return Ok(Extent::TooLong);
        }
        self.begun.extend_from_slice(bytes)?;
        Ok(Extent::Within)
    }

    // Answers the last line, where it has no line feed and isn't empty.
    fn end<L: Library>(
        &mut self,
        alloc: Global,
        files: &mut L,
        text: &mut Vec<u8>,
    ) -> Result<(), NoMemory>
        requires { IsReady self.old }
        ensures stands { (T O : List ℕ) (before : Origin)
            → Stands Extent.Within T (O ++ text.old.items) (L.files files.old) before (record { faults = L.faults files.old; asked = L.asked files.old }) self.old
            → OnOk result (Stands Extent.Ended T (O ++ text.new.items) (L.files files.old) before (record { faults = L.faults files.new; asked = L.asked files.new }) self.new) }
        ensures files { L.files files.new ≡ L.files files.old }
        ensures later { L.faults files.old ≤ L.faults files.new }
        ensures asked { (L.asked files.old ≤ L.asked files.new) × (L.asked files.new ≤ count_on (L.asked files.old) (length (lines_of self.old.begun.items))) }
    {
        if self.begun.is_empty() {
            return Ok(());
        }
        self.answering.answer(alloc, &self.begun, files, text)
    }
}
