//! Questions that take the kinds of the words of an element's quasinormal basis.
ghost use Rattle.std.specs.Prelude.{◌≡◌, ◌≤◌, IfOk, IsErrOf};
ghost use Rattle.ht_pair.specs.Bases.{TakesAtMost};
ghost use Rattle.ht_types.specs.declared.order.Order.TheVariants as order;
ghost use Rattle.ht_types.specs.TypedElements.{IsTyped};
ghost use Rattle.ht_answer.specs.Answers.{HasAnswerText};
ghost use Rattle.ht_pair.specs.Budgets.{IsOverBudget};
ghost use Rattle.ht_ask.specs.Questions.{Tells, order_answer};
ghost use Rattle.ht_ask.specs.declared.question.Question.TheVariants as question;

use crate::question::copy_words;
use ht_answer::{Answer, Refusal};
use ht_cycles::profile;
use ht_pair::Element;
use ht_parts::order;
use ht_quasi::QuasiFault;
use ht_share::ponds;
use ht_types::{Order, Typed, typed_within};
use std::alloc::Global;

// The order of the element.
pub(crate) fn told_order(
    alloc: Global,
    element: &Element,
    budget: u32,
) -> Result<Answer, QuasiFault>
    requires { budget ≤ 65536 }
    ensures answer { IfOk result (Tells element.now.shape budget element.now.rows question.Order) }
    ensures text { IfOk result HasAnswerText }
    ensures over { IsErrOf result QuasiFault.Budget → IsOverBudget element.now.shape budget element.now.rows }
{
    let typed = typed_within(alloc, element, budget)?;
    Ok(answer_to_order(order(&typed)))
}

// The answer that tells an order; a wide one is refused.
fn answer_to_order(order: Order) -> Answer
    ensures answer { result ≡ order_answer order }
    ensures text { HasAnswerText result }
{
    match order {
        Order::Wide => Answer::Refused(Refusal::Wide),
        Order::Finite(_) | Order::Infinite => Answer::Order(order),
    }
}

// The words of the element's quasinormal basis with their kinds.
pub(crate) fn told_types(
    alloc: Global,
    element: &Element,
    budget: u32,
) -> Result<Answer, QuasiFault>
    requires { budget ≤ 65536 }
    ensures answer { IfOk result (Tells element.now.shape budget element.now.rows question.Types) }
    ensures text { IfOk result HasAnswerText }
    ensures over { IsErrOf result QuasiFault.Budget → IsOverBudget element.now.shape budget element.now.rows }
{
    let typed = typed_within(alloc, element, budget)?;
    let words = copy_words(alloc, typed.quasi().basis.words().as_slice())?;
    let kinds = typed.into_kinds();
    Ok(Answer::Types { words, kinds })
}

// The profile of the element.
pub(crate) fn told_profile(
    alloc: Global,
    element: &Element,
    budget: u32,
) -> Result<Answer, QuasiFault>
    requires { budget ≤ 65536 }
    ensures answer { IfOk result (Tells element.now.shape budget element.now.rows question.Profile) }
    ensures text { IfOk result HasAnswerText }
    ensures over { IsErrOf result QuasiFault.Budget → IsOverBudget element.now.shape budget element.now.rows }
{
    let typed = typed_within(alloc, element, budget)?;
    let profile = profile(alloc, &typed)?;
    Ok(Answer::Profile(profile))
}

// All ponds of the element.
pub(crate) fn told_ponds(
    alloc: Global,
    element: &Element,
    budget: u32,
) -> Result<Answer, QuasiFault>
    requires { budget ≤ 65536 }
    ensures answer { IfOk result (Tells element.now.shape budget element.now.rows question.Ponds) }
    ensures text { IfOk result HasAnswerText }
    ensures over { IsErrOf result QuasiFault.Budget → IsOverBudget element.now.shape budget element.now.rows }
{
    let typed = typed_within(alloc, element, budget)?;
    let ponds = ponds(alloc, &typed)?;
    Ok(Answer::Ponds(ponds))
}
