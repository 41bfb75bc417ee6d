//! Whether two words share an orbit of a bound element.
ghost use Rattle.std.specs.Prelude.{IfOk};
ghost use Rattle.ht_script.specs.declared.line.Line.TheVariants as line;
ghost use Rattle.ht_answer.specs.Answers.{HasAnswerText};
ghost use Rattle.ht_calc.specs.Steps.{Does};

use crate::Session;
use ht_answer::{Answer, Refusal};
use ht_ask::share_of;
use ht_quasi::QuasiFault;
use ht_word::{Name, NoMemory, Word};
use std::alloc::Global;

impl Session {
    // Looks at both words' letters before the element's quasinormal basis is found.
    pub(crate) fn share(
        &self,
        alloc: Global,
        name: Name,
        first: Word,
        second: Word,
    ) -> Result<Answer, NoMemory>
        ensures step { IfOk result (λ answer. Does self.now (line.Share name first second) answer self.now) }
        ensures text { IfOk result HasAnswerText }
    {
        let Some(shape) = self.shape else {
            return Ok(Answer::Refused(Refusal::Group));
        };
        let Some(element) = self.names.get(&name) else {
            return Ok(Answer::Refused(Refusal::Name(name)));
        };
        if !shape.holds(&first) {
            return Ok(Answer::Refused(Refusal::Word(1)));
        }
        if !shape.holds(&second) {
            return Ok(Answer::Refused(Refusal::Word(2)));
        }
        match share_of(alloc, element, self.budget, &first, &second) {
            Ok(answer) => Ok(answer),
            Err(QuasiFault::Budget) => Ok(Answer::Refused(Refusal::Budget(name))),
            Err(QuasiFault::NoMemory) => Err(NoMemory),
        }
    }
}
