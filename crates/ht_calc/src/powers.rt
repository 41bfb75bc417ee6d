//! Whether two bound elements have conjugate powers.
ghost use Rattle.std.specs.Prelude.{◌≡◌, IfOk};
ghost use Rattle.ht_script.specs.declared.line.Line.TheVariants as line;
ghost use Rattle.ht_answer.specs.Answers.{HasAnswerText};
ghost use Rattle.ht_calc.specs.Steps.{power_answer, Does};

use crate::Session;
use crate::decider::BasisDecider;
use ht_answer::{Answer, Refusal};
use ht_pair::{PowerVerdict, Which};
use ht_power::{PowerFault, power_conjugate};
use ht_word::{Name, NoMemory};
use std::alloc::Global;

impl Session {
    // Binds no name.
    pub(crate) fn power(&self, alloc: Global, first: Name, second: Name) -> Result<Answer, NoMemory>
        ensures step { IfOk result (λ answer. Does self.now (line.Power first second) answer self.now) }
        ensures text { IfOk result HasAnswerText }
    {
        if self.shape.is_none() {
            return Ok(Answer::Refused(Refusal::Group));
        }
        let Some(element) = self.names.get(&first) else {
            return Ok(Answer::Refused(Refusal::Name(first)));
        };
        let Some(other) = self.names.get(&second) else {
            return Ok(Answer::Refused(Refusal::Name(second)));
        };
        let decider = BasisDecider {
            budget: self.budget,
        };
        match power_conjugate(alloc, element, other, &decider) {
            Ok(verdict) => Ok(powers_answer(verdict)),
            Err(PowerFault::Budget(Which::First)) => Ok(Answer::Refused(Refusal::Budget(first))),
            Err(PowerFault::Budget(Which::Second)) => Ok(Answer::Refused(Refusal::Budget(second))),
            Err(PowerFault::Large { rows, letters }) => {
                Ok(Answer::Refused(Refusal::Large { rows, letters }))
            }
            Err(PowerFault::Wide) => Ok(Answer::Refused(Refusal::Wide)),
            Err(PowerFault::NoMemory) => Err(NoMemory),
        }
    }
}

// The answer that tells the verdict.
fn powers_answer(verdict: PowerVerdict) -> Answer
    ensures { result ≡ power_answer verdict }
{
    match verdict {
        PowerVerdict::Powers { i, j, by } => Answer::Powers { i, j, by },
        PowerVerdict::None => Answer::NoPowers,
    }
}
