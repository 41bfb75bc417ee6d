//! The two parts of an element, bound to two names.
ghost use Rattle.std.specs.Prelude.{◌≡◌, Some, length, IfOk, OnOk, OnErr};
ghost use Rattle.ht_script.specs.declared.line.Line.TheVariants as line;
ghost use Rattle.ht_answer.specs.Answers.{HasAnswerText};
ghost use Rattle.ht_calc.specs.Names.{bind};
ghost use Rattle.ht_calc.specs.Steps.{Does};

use crate::Session;
use ht_answer::{Answer, Refusal};
use ht_ask::{PartsFault, parts_of};
use ht_pair::Element;
use ht_word::{Name, NoMemory};
use std::alloc::Global;

impl Session {
    // Makes both parts before the session changes, and binds both names last.
    pub(crate) fn parts(
        &mut self,
        alloc: Global,
        periodic: Name,
        infinite: Name,
        whole: Name,
    ) -> Result<Answer, NoMemory>
        ensures step { IfOk result (λ answer. Does self.old (line.Parts periodic infinite whole) answer self.new) }
        ensures text { IfOk result HasAnswerText }
        ensures err { OnErr result (self.new ≡ self.old) }
    {
        if self.shape.is_none() {
            return Ok(Answer::Refused(Refusal::Group));
        }
        let Some(element) = self.names.get(&whole) else {
            return Ok(Answer::Refused(Refusal::Name(whole)));
        };
        if !self.names.has_room_for_both(&periodic, &infinite) {
            return Ok(Answer::Refused(Refusal::Names));
        }
        match parts_of(alloc, element, self.budget) {
            Ok((first, second)) => self.bind_parts(periodic, first, infinite, second),
            Err(PartsFault::Budget) => Ok(Answer::Refused(Refusal::Budget(whole))),
            Err(PartsFault::Large { rows, letters }) => {
                Ok(Answer::Refused(Refusal::Large { rows, letters }))
            }
            Err(PartsFault::NoMemory) => Err(NoMemory),
        }
    }

    // Binds both names, the first one first.
    fn bind_parts(
        &mut self,
        periodic: Name,
        first: Element,
        infinite: Name,
        second: Element,
    ) -> Result<Answer, NoMemory>
        requires first_shape { self.old.shape ≡ Some (first.shape) }
        requires second_shape { self.old.shape ≡ Some (second.shape) }
        ensures answer { IfOk result (λ answer. answer ≡ Answer.Parts (length first.rows) (length second.rows)) }
        ensures text { IfOk result HasAnswerText }
        ensures bound { OnOk result (self.new ≡ record self.old { names = bind (bind self.old.names periodic first.rows) infinite second.rows }) }
        ensures err { OnErr result (self.new ≡ self.old) }
    {
        let answer = Answer::Parts {
            periodic: first.row_count(),
            infinite: second.row_count(),
        };
        self.names.bind_both(periodic, first, infinite, second)?;
        Ok(answer)
    }
}
