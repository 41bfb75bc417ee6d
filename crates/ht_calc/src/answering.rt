//! Lines to answers.
ghost use Rattle.std.specs.Prelude.{◌≡◌, ◌≤◌, ◌<◌, ◌∷◌, ◌++◌, ◌+◌, [], List, ℕ, Option, length, OnOk};
ghost use Rattle.ht_out.specs.Counts.{next_count};
ghost use Rattle.ht_calc.specs.Progress.{IsOneLine, Calls, Origin, Answered};

use crate::Session;
use ht_answer::print;
use ht_out::Library;
use ht_word::NoMemory;
use std::alloc::Global;

/// A session, the number of lines that it answered, and whether one of the answers is a refusal.
#[derive(Drop)]
pub struct Answering {
    session: Session,
    lines: usize,
    some_refused: bool,
}

impl Answering {
    /// No line is answered yet. The budget is in expansions. Takes no memory.
    pub fn new(alloc: Global, budget: u32) -> Answering
        requires { (1 ≤ budget) × (budget ≤ 65536) }
        ensures { (files : Option (List (List ℕ × List ℕ))) (calls : Calls) → Answered files (record { budget = budget; calls = calls; done = 0; written = [] }) calls [] result [] }
    {
        Answering {
            session: Session::new(alloc, budget),
            lines: 0,
            some_refused: false,
        }
    }

    /// The number of lines answered.
    pub fn lines(&self) -> usize
        ensures { result ≡ self.now.lines }
    {
        self.lines
    }

    /// Whether some answer is a refusal.
    pub fn some_refused(&self) -> bool
        ensures { result ≡ self.now.some_refused }
    {
        self.some_refused
    }

    /// Answers one line, without its line feed, and appends the text of its answer. Takes as long
    /// as `Session::answer` and the printing. Want of memory ends the run: what is held then, and
    /// the text, are of no use.
    pub fn answer<L: Library>(
        &mut self,
        alloc: Global,
        line: &[u8],
        files: &mut L,
        text: &mut Vec<u8>,
    ) -> Result<(), NoMemory>
        requires short { length line.now ≤ 65536 }
        requires one_line { IsOneLine line.now }
        requires few { self.old.lines < 65536 }
        ensures answered { (lines : List (List ℕ)) (O : List ℕ) (before : Origin)
            → Answered (L.files files.old) before (record { faults = L.faults files.old; asked = L.asked files.old }) lines self.old (O ++ text.old.items)
            → OnOk result (Answered (L.files files.old) before (record { faults = L.faults files.new; asked = L.asked files.new }) (lines ++ line.now ∷ []) self.new (O ++ text.new.items)) }
        ensures count { OnOk result (self.new.lines ≡ self.old.lines + 1) }
        ensures files { L.files files.new ≡ L.files files.old }
        ensures later { L.faults files.old ≤ L.faults files.new }
        ensures asked { (L.asked files.old ≤ L.asked files.new) × (L.asked files.new ≤ next_count (L.asked files.old)) }
    {
        let answer = self.session.answer(alloc, line, files)?;
        self.some_refused = self.some_refused || answer.is_refusal();
        print(&answer, text)?;
        self.lines += 1;
        Ok(())
    }
}
