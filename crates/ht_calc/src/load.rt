//! Loads: elements from files.
ghost use Rattle.std.specs.Prelude.{◌≡◌, ◌≤◌, ◌∷◌, [], ℕ, List, Option, Some, IfOk, OnErr};
ghost use Rattle.std.specs.Option.{option_map};
ghost use Rattle.ht_out.specs.Counts.{next_count};
ghost use Rattle.ht_script.specs.declared.line.Line.TheVariants as line;
ghost use Rattle.ht_script.specs.Lines.{IsLine};
ghost use Rattle.ht_script.specs.Names.{IsFileName};
ghost use Rattle.ht_answer.specs.Answers.{HasAnswerText};
ghost use Rattle.ht_calc.specs.Fetches.{Fetched, AreFetches, AreAll};
ghost use Rattle.ht_calc.specs.Loads.{IsFileRefusal, Loads};
ghost use Rattle.ht_calc.specs.Names.{HasRoom};
ghost use Rattle.ht_calc.specs.Steps.{Step};

use crate::Session;
use ht_answer::{Answer, Refusal};
use ht_out::{Fetch, Library};
use ht_pair::RowsFault;
use ht_text::{FileFault, read_file};
use ht_word::{Name, NoMemory, Shape};
use std::alloc::Global;
use std::str;

// The most bytes that a file may have; one more is asked for, which tells a longer one.
const MOST_BYTES: usize = 4_194_304;

impl Session {
    // Fetches the file once the group is set and there is room for the name. Binds the name last.
    pub(crate) fn load<L: Library>(
        &mut self,
        alloc: Global,
        name: Name,
        file: &Name,
        files: &mut L,
    ) -> Result<Answer, NoMemory>
        requires { IsFileName file.now }
        ensures step { (bytes : List ℕ) → IsLine bytes (line.Load name file.now) → IfOk result (λ answer. (made : List Fetched) × Step self.old bytes made answer self.new
            × AreFetches (L.files files.old) (L.faults files.old) (L.faults files.new) made × AreAll (L.asked files.old) (L.asked files.new) made) }
        ensures text { IfOk result HasAnswerText }
        ensures err { OnErr result (self.new ≡ self.old) }
        ensures files { L.files files.new ≡ L.files files.old }
        ensures later { L.faults files.old ≤ L.faults files.new }
        ensures asked { (L.asked files.old ≤ L.asked files.new) × (L.asked files.new ≤ next_count (L.asked files.old)) }
    {
        let Some(shape) = self.shape else {
            return Ok(Answer::Refused(Refusal::Group));
        };
        if !self.names.has_room(&name) {
            return Ok(Answer::Refused(Refusal::Names));
        }
        let Some(bytes) = fetch_file(alloc, file, files)? else {
            return Ok(Answer::Refused(Refusal::File));
        };
        self.bind_file(alloc, name, &bytes, shape)
    }

    // Binds the name to the element of the file.
    fn bind_file(
        &mut self,
        alloc: Global,
        name: Name,
        bytes: &[u8],
        shape: Shape,
    ) -> Result<Answer, NoMemory>
        requires shape { self.old.shape ≡ Some shape }
        requires room { HasRoom self.old.names name }
        ensures loads { IfOk result (λ answer. Loads self.old name (Some bytes.now) answer self.new) }
        ensures text { IfOk result HasAnswerText }
        ensures err { OnErr result (self.new ≡ self.old) }
    {
        match read_file(alloc, bytes, shape) {
            Ok(element) => {
                let rows = element.row_count();
                let answer = Answer::Load {
                    name: name.copy(alloc)?,
                    rows,
                };
                self.bind(name, element)?;
                Ok(answer)
            }
            Err(fault) => Ok(Answer::Refused(refusal_of(fault)?)),
        }
    }
}

// The bytes of the file, up to one more than a file may have. None where the library failed or has
// no such file.
fn fetch_file<L: Library>(
    alloc: Global,
    file: &Name,
    files: &mut L,
) -> Result<Option<Vec<u8>>, NoMemory>
    requires { IsFileName file.now }
    ensures fetched { IfOk result (λ given. AreFetches (L.files files.old) (L.faults files.old) (L.faults files.new)
        (record { file = file.now; gives = option_map (λ bytes. bytes.items) given } ∷ [])) }
    ensures files { L.files files.new ≡ L.files files.old }
    ensures later { L.faults files.old ≤ L.faults files.new }
    ensures asked { L.asked files.new ≡ next_count (L.asked files.old) }
{
    let Ok(file) = str::from_utf8(file.as_slice()) else {
        unreachable!()
    };
    match files.fetch(alloc, file, MOST_BYTES) {
        Ok(bytes) => Ok(Some(bytes)),
        Err(Fetch::Failed) => Ok(None),
        Err(Fetch::NoMemory) => Err(NoMemory),
    }
}

// The refusal that says why the bytes of a file give no element.
fn refusal_of(fault: FileFault) -> Result<Refusal, NoMemory>
    ensures { IfOk result (IsFileRefusal fault) }
{
    match fault {
        FileFault::Form(line) => Ok(Refusal::Form(line)),
        FileFault::Shape => Ok(Refusal::Shape),
        FileFault::Rows(RowsFault::Foreign(place)) => Ok(Refusal::RowsForeign(place)),
        FileFault::Rows(RowsFault::FromNotBasis) => Ok(Refusal::RowsFrom),
        FileFault::Rows(RowsFault::ToNotBasis) => Ok(Refusal::RowsTo),
        FileFault::Rows(RowsFault::Large { rows, letters }) => Ok(Refusal::Large { rows, letters }),
        FileFault::Rows(RowsFault::NoMemory) | FileFault::NoMemory => Err(NoMemory),
    }
}
