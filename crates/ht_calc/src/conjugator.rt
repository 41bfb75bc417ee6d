//! Whether two elements are conjugate; what conjugates them is bound to a name.
ghost use Rattle.std.specs.Prelude.{◌≡◌, ℕ, List, Some, length, IfOk, OnErr, IsErrOf};
ghost use Rattle.ht_pair.specs.declared.fault.OpFault.TheVariants as op_fault;
ghost use Rattle.ht_pair.specs.declared.row.Row.{Row};
ghost use Rattle.ht_pair.specs.Actions.{IsCanonical};
ghost use Rattle.ht_pair.specs.Elements.{IsElement};
ghost use Rattle.ht_pair.specs.Sizes.{IsLarge};
ghost use Rattle.ht_pair.specs.declared.verdict.Verdict.TheVariants as verdict;
ghost use Rattle.ht_script.specs.declared.line.Line.TheVariants as line;
ghost use Rattle.ht_answer.specs.Answers.{HasAnswerText};
ghost use Rattle.ht_pair.specs.Decisions.{IsDecided};
ghost use Rattle.ht_calc.specs.Steps.{AreAsked, Does};

use crate::Session;
use crate::decider::BasisDecider;
use ht_answer::{Answer, Refusal};
use ht_pair::{DecideFault, Decider, Element, OpFault, Rows, Verdict, Which, copy_rows};
use ht_word::{Name, NoMemory, Shape};
use std::alloc::Global;

impl Session {
    // Decides before the session changes, and binds the name last.
    pub(crate) fn conjugate(
        &mut self,
        alloc: Global,
        name: Name,
        first: Name,
        second: Name,
    ) -> Result<Answer, NoMemory>
        ensures step { IfOk result (λ answer. Does self.old (line.Conj name first second) answer self.new) }
        ensures text { IfOk result HasAnswerText }
        ensures err { OnErr result (self.new ≡ self.old) }
    {
        let Some(shape) = self.shape else {
            return Ok(Answer::Refused(Refusal::Group));
        };
        let Some(element) = self.names.get(&first) else {
            return Ok(Answer::Refused(Refusal::Name(first)));
        };
        let Some(other) = self.names.get(&second) else {
            return Ok(Answer::Refused(Refusal::Name(second)));
        };
        if !self.names.has_room(&name) {
            return Ok(Answer::Refused(Refusal::Names));
        }
        let decider = BasisDecider {
            budget: self.budget,
        };
        match decider.decide(alloc, element, other) {
            Ok(Verdict::Conjugate(rows)) => self.keep(alloc, name, shape, rows),
            Ok(Verdict::NotConjugate) => Ok(Answer::NotConjugate),
            Err(DecideFault::Budget(Which::First)) => Ok(Answer::Refused(Refusal::Budget(first))),
            Err(DecideFault::Budget(Which::Second)) => {
                Ok(Answer::Refused(Refusal::Budget(second)))
            }
            Err(DecideFault::NoMemory) => Err(NoMemory),
        }
    }

    // Binds the name to the conjugator, unless that is large.
    fn keep(
        &mut self,
        alloc: Global,
        name: Name,
        shape: Shape,
        rows: Rows,
    ) -> Result<Answer, NoMemory>
        requires shape { self.old.shape ≡ Some shape }
        requires canonical { IsCanonical shape rows }
        ensures step { (first second : List ℕ) (p q : List Row) → AreAsked self.old name first second shape p q → IsDecided shape self.old.budget p q (verdict.Conjugate rows)
            → IfOk result (λ answer. Does self.old (line.Conj name first second) answer self.new) }
        ensures text { IfOk result HasAnswerText }
        ensures err { OnErr result (self.new ≡ self.old) }
    {
        match element_of(alloc, shape, &rows) {
            Ok(element) => {
                self.bind(name, element)?;
                Ok(Answer::Conjugate { rows })
            }
            Err(OpFault::Large { letters, .. }) => Ok(Answer::NotKept { letters, rows }),
            Err(OpFault::NoMemory) => Err(NoMemory),
        }
    }
}

// The element of the rows of a canonical pair.
fn element_of(alloc: Global, shape: Shape, rows: &Rows) -> Result<Element, OpFault>
    requires { IsCanonical shape rows.now }
    ensures element { IfOk result (λ element. (element.shape ≡ shape) × (element.rows ≡ rows.now) × IsElement shape rows.now) }
    ensures large { (count letters : ℕ) → IsErrOf result (op_fault.Large count letters) → IsLarge shape rows.now (length rows.now) letters }
{
    let copy = copy_rows(alloc, rows.as_slice())?;
    match Element::of_pair(alloc, shape, copy) {
        Ok(element) => {
            element.keeps_limits();
            Ok(element)
        }
        Err(fault) => Err(fault),
    }
}
