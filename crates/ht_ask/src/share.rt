//! Whether two words share an orbit of an element.
ghost use Rattle.std.specs.Prelude.{◌≤◌, ◌↔◌, IfOk, IsTrue, IsErrOf};
ghost use Rattle.ht_word.specs.Words.{IsWordOf, IsUnderSome};
ghost use Rattle.ht_answer.specs.Answers.{HasAnswerText};
ghost use Rattle.ht_pair.specs.Budgets.{IsOverBudget};
ghost use Rattle.ht_ask.specs.ShareAnswers.{TellsShare};

use ht_answer::{Answer, Refusal};
use ht_pair::{Basis, Element};
use ht_quasi::QuasiFault;
use ht_share::Sharer;
use ht_types::{Sharing, Typed, typed_within};
use ht_word::Word;
use std::alloc::Global;

/// What the element answers to two words of its shape: a number of steps that lead from the first to
/// the second, or that none does. A word that isn't under its quasinormal basis is refused. The budget
/// is in expansions of the roots: `Budget` comes exactly where the basis takes more. Takes as long as
/// finding the basis (`quasinormal`) and the kinds of its words (`types`), and the steps of both words
/// that are followed (`Sharer`).
pub fn share_of(
    alloc: Global,
    element: &Element,
    budget: u32,
    first: &Word,
    second: &Word,
) -> Result<Answer, QuasiFault>
    requires budget { budget ≤ 65536 }
    requires first { IsWordOf element.now.shape first.now }
    requires second { IsWordOf element.now.shape second.now }
    ensures answer { IfOk result (TellsShare element.now.shape budget element.now.rows first.now second.now) }
    ensures text { IfOk result HasAnswerText }
    ensures over { IsErrOf result QuasiFault.Budget → IsOverBudget element.now.shape budget element.now.rows }
{
    let typed = typed_within(alloc, element, budget)?;
    if !is_under(&typed, first) {
        return Ok(Answer::Refused(Refusal::Above(1)));
    }
    if !is_under(&typed, second) {
        return Ok(Answer::Refused(Refusal::Above(2)));
    }
    Ok(Answer::Share(Sharer::new(&typed).share(alloc, first, second)?))
}

// Whether the word is under the quasinormal basis. A binary search.
fn is_under(typed: &Typed, word: &Word) -> bool
    ensures { IsTrue result ↔ IsUnderSome word.now typed.now.quasi.basis.words }
{
    is_under_basis(&typed.quasi().basis, word)
}

// The same of a basis.
fn is_under_basis(basis: &Basis, word: &Word) -> bool
    ensures { IsTrue result ↔ IsUnderSome word.now basis.now.words }
{
    basis.find(word).is_some()
}
