//! A session: what is remembered from line to line.
ghost use Rattle.std.specs.Prelude.{◌≡◌, ◌≢◌, ◌≤◌, All, List, ℕ, Some, length, IfOk, OnOk, OnErr};
ghost use Rattle.ht_word.specs.declared.shape.Shape.{Shape};
ghost use Rattle.ht_pair.specs.declared.row.Row.{Row};
ghost use Rattle.ht_pair.specs.declared.fault.RowsFault.TheVariants.{Large};
ghost use Rattle.ht_pair.specs.Actions.{IsCanonical};
ghost use Rattle.ht_pair.specs.RowsFaults.{IsRowsFault};
ghost use Rattle.ht_text.specs.Texts.{rows_text};
ghost use Rattle.ht_out.specs.Counts.{next_count};
ghost use Rattle.ht_script.specs.declared.line.Line.TheVariants as line;
ghost use Rattle.ht_script.specs.Lines.{IsLine};
ghost use Rattle.ht_answer.specs.Answers.{IsRefusal, HasAnswerText};
ghost use Rattle.ht_calc.specs.Fetches.{Fetched, AreFetches, AreAll};
ghost use Rattle.ht_calc.specs.LineNames.{asks};
ghost use Rattle.ht_calc.specs.ShortLines.{HasShortRows, NamesFile};
ghost use Rattle.ht_calc.specs.Names.{bind};
ghost use Rattle.ht_calc.specs.States.{start};
ghost use Rattle.ht_calc.specs.Steps.{IsRowsRefusal, Does, Step};

use crate::bindings::Bindings;
use crate::product::{first_unbound, has_wide, product_of};
use ht_answer::{Answer, Refusal};
use ht_ask::{Question, answer_of, image_rows};
use ht_out::Library;
use ht_pair::{Element, OpFault, Rows, RowsFault};
use ht_quasi::QuasiFault;
use ht_script::{Factors, Line, LineFault, read_line};
use ht_word::{Name, NoMemory, Shape, Word};
use std::alloc::Global;
use std::marker::Model;

/// A session of the calculator: the group, once it is set, the budget of expansions, and the names
/// that are bound.
#[derive(Drop)]
pub struct Session {
    pub(crate) shape: Option<Shape>,
    // from 1 to 65,536
    pub(crate) budget: u32,
    // elements of the shape; none without one
    pub(crate) names: Bindings,
}

impl Model for Session {
    ghost use Rattle.ht_calc.specs.Names.{rows_by_name};
    ghost use Rattle.ht_calc.specs.States.{State, IsHeld};

    ghost Value = { State };

    ghost view = { λ session. record { shape = session.shape; budget = session.budget; names = rows_by_name session.names } };

    ghost invariant = { λ session. IsHeld session.shape session.budget session.names };
}

impl Session {
    /// A session with no group and no names. The budget is in expansions. Takes no memory.
    pub fn new(alloc: Global, budget: u32) -> Session
        requires { (1 ≤ budget) × (budget ≤ 65536) }
        ensures { result ≡ start budget }
    {
        Session {
            shape: None,
            budget,
            names: Bindings::new(alloc),
        }
    }

    /// Answers one line, without its line feed. After a refused answer, and after want of memory,
    /// the session is as before. `reduce` and `let` take as long as the sorting of their rows, and
    /// `show` as long as the copying of its rows. `equal` makes one pass over the rows. A `let` with
    /// factors makes one power for each factor, and one product for each factor but the first. An
    /// `image` takes one step of the word's cone (`Image::step`), and `basis` as long as finding the
    /// quasinormal basis (`quasinormal`); `types`, `order` and `profile` take that and a few passes
    /// over its words and their letters, and `parts` the sorting of the rows of both parts besides;
    /// `conj` takes it for both elements, and the sorting of the conjugator's rows; `power` it for both,
    /// and the powers and decisions of `ht_power::power_conjugate`. `ponds` and
    /// `share` take it and the steps of words that they follow (`ht_share::ponds`,
    /// `ht_share::Sharer`). A `load` makes one fetch, once the group is set and there is room for the
    /// name, and no other line makes any; nor is there a second one where no memory is found. It takes
    /// memory for the bytes of the file, at most 4,194,305, and a few passes over them, and as long as
    /// the sorting of the file's rows.
    pub fn answer<L: Library>(
        &mut self,
        alloc: Global,
        line: &[u8],
        files: &mut L,
    ) -> Result<Answer, NoMemory>
        requires length { length line.now ≤ 65536 }
        requires one_line { All (λ b. b ≢ 10) line.now }
        ensures step { IfOk result (λ answer. (made : List Fetched) × Step self.old line.now made answer self.new
            × AreFetches (L.files files.old) (L.faults files.old) (L.faults files.new) made × AreAll (L.asked files.old) (L.asked files.new) made) }
        ensures refused { IfOk result (λ answer. IsRefusal answer → self.new ≡ self.old) }
        ensures text { IfOk result HasAnswerText }
        ensures err { OnErr result (self.new ≡ self.old) }
        ensures files { L.files files.new ≡ L.files files.old }
        ensures later { L.faults files.old ≤ L.faults files.new }
        ensures asked { (L.asked files.old ≤ L.asked files.new) × (L.asked files.new ≤ next_count (L.asked files.old)) }
    {
        match read_line(alloc, line) {
            Ok(line) => self.answer_to(alloc, line, files),
            Err(LineFault::Syntax { column }) => Ok(Answer::Refused(Refusal::Syntax(column))),
            Err(LineFault::NoMemory) => Err(NoMemory),
        }
    }

    // Answers a line of the grammar.
    fn answer_to<L: Library>(
        &mut self,
        alloc: Global,
        line: Line,
        files: &mut L,
    ) -> Result<Answer, NoMemory>
        requires short { HasShortRows line }
        requires file { NamesFile line }
        ensures step { (bytes : List ℕ) → IsLine bytes line → IfOk result (λ answer. (made : List Fetched) × Step self.old bytes made answer self.new
            × AreFetches (L.files files.old) (L.faults files.old) (L.faults files.new) made × AreAll (L.asked files.old) (L.asked files.new) made) }
        ensures text { IfOk result HasAnswerText }
        ensures err { OnErr result (self.new ≡ self.old) }
        ensures files { L.files files.new ≡ L.files files.old }
        ensures later { L.faults files.old ≤ L.faults files.new }
        ensures asked { (L.asked files.old ≤ L.asked files.new) × (L.asked files.new ≤ next_count (L.asked files.old)) }
    {
        match line {
            Line::Blank => Ok(Answer::Blank),
            Line::Group { n, r } => Ok(self.group(n, r)),
            Line::Reduce(rows) => self.reduce(alloc, rows),
            Line::LetRows { name, rows } => self.bind_rows(alloc, name, rows),
            Line::LetProduct { name, factors } => self.bind_product(alloc, name, factors),
            Line::Show(name) => self.ask(alloc, Question::Show, name),
            Line::Equal(first, second) => Ok(self.compare(first, second)),
            Line::Image { name, word } => self.image(alloc, name, word),
            Line::Load { name, file } => self.load(alloc, name, &file, files),
            Line::Basis(name) => self.ask(alloc, Question::Basis, name),
            Line::Order(name) => self.ask(alloc, Question::Order, name),
            Line::Types(name) => self.ask(alloc, Question::Types, name),
            Line::Profile(name) => self.ask(alloc, Question::Profile, name),
            Line::Parts {
                periodic,
                infinite,
                whole,
            } => self.parts(alloc, periodic, infinite, whole),
            Line::Conj {
                bound,
                first,
                second,
            } => self.conjugate(alloc, bound, first, second),
            Line::Ponds(name) => self.ask(alloc, Question::Ponds, name),
            Line::Share {
                name,
                first,
                second,
            } => self.share(alloc, name, first, second),
            Line::Power { first, second } => self.power(alloc, first, second),
        }
    }

    fn group(&mut self, n: u32, r: u32) -> Answer
        ensures step { Does self.old (line.Group n r) result self.new }
        ensures text { HasAnswerText result }
    {
        if self.shape.is_some() {
            return Answer::Refused(Refusal::Group);
        }
        match Shape::new(n, r) {
            Err(_) => Answer::Refused(Refusal::Group),
            Ok(shape) => {
                self.shape = Some(shape);
                Answer::Group { n, r }
            }
        }
    }

    fn reduce(&self, alloc: Global, rows: Rows) -> Result<Answer, NoMemory>
        requires short { length (rows_text rows) ≤ 65536 }
        ensures step { IfOk result (λ answer. Does self.now (line.Reduce rows) answer self.now) }
        ensures text { IfOk result HasAnswerText }
    {
        let Some(shape) = self.shape else {
            return Ok(Answer::Refused(Refusal::Group));
        };
        match Element::of_rows(alloc, shape, rows) {
            Ok(element) => Ok(Answer::Pair(element.rows(alloc)?)),
            Err(fault) => Ok(Answer::Refused(refusal_of(fault)?)),
        }
    }

    fn bind_rows(&mut self, alloc: Global, name: Name, rows: Rows) -> Result<Answer, NoMemory>
        requires short { length (rows_text rows) ≤ 65536 }
        ensures step { IfOk result (λ answer. Does self.old (line.LetRows name rows) answer self.new) }
        ensures text { IfOk result HasAnswerText }
        ensures err { OnErr result (self.new ≡ self.old) }
    {
        let Some(shape) = self.shape else {
            return Ok(Answer::Refused(Refusal::Group));
        };
        if !self.names.has_room(&name) {
            return Ok(Answer::Refused(Refusal::Names));
        }
        match Element::of_rows(alloc, shape, rows) {
            Ok(element) => self.bind_element(alloc, name, element),
            Err(fault) => Ok(Answer::Refused(refusal_of(fault)?)),
        }
    }

    fn bind_product(
        &mut self,
        alloc: Global,
        name: Name,
        factors: Factors,
    ) -> Result<Answer, NoMemory>
        ensures step { IfOk result (λ answer. Does self.old (line.LetProduct name factors) answer self.new) }
        ensures text { IfOk result HasAnswerText }
        ensures err { OnErr result (self.new ≡ self.old) }
    {
        let Some(shape) = self.shape else {
            return Ok(Answer::Refused(Refusal::Group));
        };
        let factors = factors.as_slice();
        if let Some(missing) = first_unbound(&self.names, factors) {
            return Ok(Answer::Refused(Refusal::Name(missing.copy(alloc)?)));
        }
        if !self.names.has_room(&name) {
            return Ok(Answer::Refused(Refusal::Names));
        }
        if has_wide(factors) {
            return Ok(Answer::Refused(Refusal::Wide));
        }
        match product_of(alloc, shape, &self.names, factors) {
            Ok(element) => self.bind_element(alloc, name, element),
            Err(OpFault::Large { rows, letters }) => {
                Ok(Answer::Refused(Refusal::Large { rows, letters }))
            }
            Err(OpFault::NoMemory) => Err(NoMemory),
        }
    }

    // The element is made before the session changes, and bound last.
    fn bind_element(
        &mut self,
        alloc: Global,
        name: Name,
        element: Element,
    ) -> Result<Answer, NoMemory>
        requires of_shape { self.old.shape ≡ Some (element.shape) }
        ensures canonical { IsCanonical element.shape element.rows }
        ensures answer { IfOk result (λ answer. answer ≡ Answer.Let name (length element.rows)) }
        ensures text { IfOk result HasAnswerText }
        ensures bound { OnOk result (self.new ≡ record self.old { names = bind self.old.names name element.rows }) }
        ensures err { OnErr result (self.new ≡ self.old) }
    {
        let rows = element.row_count();
        let answer = Answer::Let {
            name: name.copy(alloc)?,
            rows,
        };
        self.bind(name, element)?;
        Ok(answer)
    }

    // Binds the name to the element. A name that is bound keeps its place.
    pub(crate) fn bind(&mut self, name: Name, element: Element) -> Result<(), NoMemory>
        requires of_shape { self.old.shape ≡ Some (element.shape) }
        ensures bound { OnOk result (self.new ≡ record self.old { names = bind self.old.names name element.rows }) }
        ensures err { OnErr result (self.new ≡ self.old) }
    {
        self.names.bind(name, element)?;
        Ok(())
    }

    // Asks the element that the name is bound to.
    pub(crate) fn ask(
        &self,
        alloc: Global,
        question: Question,
        name: Name,
    ) -> Result<Answer, NoMemory>
        ensures step { IfOk result (λ answer. Does self.now (asks question name) answer self.now) }
        ensures text { IfOk result HasAnswerText }
    {
        if self.shape.is_none() {
            return Ok(Answer::Refused(Refusal::Group));
        }
        let Some(element) = self.names.get(&name) else {
            return Ok(Answer::Refused(Refusal::Name(name)));
        };
        match answer_of(alloc, question, element, self.budget) {
            Ok(answer) => Ok(answer),
            Err(QuasiFault::Budget) => Ok(Answer::Refused(Refusal::Budget(name))),
            Err(QuasiFault::NoMemory) => Err(NoMemory),
        }
    }

    fn compare(&self, first: Name, second: Name) -> Answer
        ensures step { Does self.now (line.Equal first second) result self.now }
        ensures text { HasAnswerText result }
    {
        if self.shape.is_none() {
            return Answer::Refused(Refusal::Group);
        }
        let Some(element) = self.names.get(&first) else {
            return Answer::Refused(Refusal::Name(first));
        };
        let Some(other) = self.names.get(&second) else {
            return Answer::Refused(Refusal::Name(second));
        };
        Answer::Equal(element.same(other))
    }

    fn image(&self, alloc: Global, name: Name, word: Word) -> Result<Answer, NoMemory>
        ensures step { IfOk result (λ answer. Does self.now (line.Image name word) answer self.now) }
        ensures text { IfOk result HasAnswerText }
    {
        let Some(shape) = self.shape else {
            return Ok(Answer::Refused(Refusal::Group));
        };
        let Some(element) = self.names.get(&name) else {
            return Ok(Answer::Refused(Refusal::Name(name)));
        };
        if !shape.holds(&word) {
            return Ok(Answer::Refused(Refusal::Word(1)));
        }
        Ok(Answer::Pair(image_rows(alloc, element, word)?))
    }
}

// The refusal that says why the rows of a line are no element. No line has the rows of a large one.
fn refusal_of(fault: RowsFault) -> Result<Refusal, NoMemory>
    requires not_large { (rows letters : ℕ) → fault ≢ Large rows letters }
    ensures { (shape : Shape) (rows : List Row) → IsRowsFault shape rows fault → IfOk result (IsRowsRefusal shape rows) }
{
    match fault {
        RowsFault::Foreign(place) => Ok(Refusal::RowsForeign(place)),
        RowsFault::FromNotBasis => Ok(Refusal::RowsFrom),
        RowsFault::ToNotBasis => Ok(Refusal::RowsTo),
        RowsFault::Large { .. } => unreachable!(),
        RowsFault::NoMemory => Err(NoMemory),
    }
}
