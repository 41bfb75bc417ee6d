//! What an element is asked.
ghost use Rattle.std.specs.Prelude.{◌≡◌, ◌≤◌, ℕ, List, pos, IfOk, IsErrOf};
ghost use Rattle.ht_word.specs.Words.{IsWordOf};
ghost use Rattle.ht_pair.specs.Images.{Entry, IsImage};
ghost use Rattle.ht_text.specs.Texts.{HasRowsText};
ghost use Rattle.ht_answer.specs.Answers.{HasAnswerText};
ghost use Rattle.ht_pair.specs.Budgets.{IsOverBudget};
ghost use Rattle.ht_ask.specs.Questions.{TakesBasis, Tells};
ghost use Rattle.ht_ask.specs.ShownImages.{rows_from};

use crate::typed::{told_order, told_ponds, told_profile, told_types};
use ht_answer::Answer;
use ht_ops::Image;
use ht_pair::{Element, Rows};
use ht_quasi::{QuasiFault, quasinormal};
use ht_word::{NoMemory, Word, Words};
use std::alloc::Global;

/// What an element may be asked without a further word.
#[derive(Clone, Copy, Debug, PartialEq, Eq)]
pub enum Question {
    /// Its canonical pair.
    Show,
    /// The words of its quasinormal basis.
    Basis,
    /// Its order.
    Order,
    /// The words of its quasinormal basis with their kinds.
    Types,
    /// Its profile.
    Profile,
    /// All its ponds.
    Ponds,
}

/// Where the element sends the words under a word of its shape: a row for each of its parts. One
/// step, which takes O(log N) comparisons of words for N rows, and a pass over those made.
pub fn image_rows(alloc: Global, element: &Element, word: Word) -> Result<Rows, NoMemory>
    requires { IsWordOf element.now.shape word }
    ensures image { IfOk result (λ rows. (L : List Entry) × IsImage element.now.shape element.now.rows (pos 1) word L × (rows ≡ rows_from word L)) }
    ensures text { IfOk result HasRowsText }
{
    let cone = Image::cone(alloc, word.copy(alloc)?)?;
    let image = cone.step(alloc, element)?;
    image.rows_under(alloc, &word)
}

/// The answer of the element to the question; a wide order is refused. The budget is in expansions
/// of the roots: `Budget` comes exactly where the question takes the quasinormal basis, and that takes
/// more. Takes as long as copying the rows (`Show`), or finding the basis (`quasinormal`); all but
/// `Basis` take a few passes over its words and their letters besides, and `Ponds` the steps of words
/// that it follows (`ponds`).
pub fn answer_of(
    alloc: Global,
    question: Question,
    element: &Element,
    budget: u32,
) -> Result<Answer, QuasiFault>
    requires { budget ≤ 65536 }
    ensures answer { IfOk result (Tells element.now.shape budget element.now.rows question) }
    ensures text { IfOk result HasAnswerText }
    ensures over { IsErrOf result QuasiFault.Budget → TakesBasis question × IsOverBudget element.now.shape budget element.now.rows }
{
    match question {
        Question::Show => Ok(shown_rows(alloc, element)?),
        Question::Basis => basis_words(alloc, element, budget),
        Question::Order => told_order(alloc, element, budget),
        Question::Types => told_types(alloc, element, budget),
        Question::Profile => told_profile(alloc, element, budget),
        Question::Ponds => told_ponds(alloc, element, budget),
    }
}

// The canonical pair of the element.
fn shown_rows(alloc: Global, element: &Element) -> Result<Answer, NoMemory>
    ensures answer { (budget : ℕ) → IfOk result (Tells element.now.shape budget element.now.rows Question.Show) }
    ensures text { IfOk result HasAnswerText }
{
    Ok(Answer::Pair(element.rows(alloc)?))
}

// The words of the element's quasinormal basis, in order; `Budget` exactly where the basis takes
// more expansions. Takes as long as finding the basis.
fn basis_words(alloc: Global, element: &Element, budget: u32) -> Result<Answer, QuasiFault>
    requires { budget ≤ 65536 }
    ensures answer { IfOk result (Tells element.now.shape budget element.now.rows Question.Basis) }
    ensures text { IfOk result HasAnswerText }
    ensures over { IsErrOf result QuasiFault.Budget → IsOverBudget element.now.shape budget element.now.rows }
{
    let quasi = quasinormal(alloc, element, budget)?;
    let words = copy_words(alloc, quasi.basis.words().as_slice())?;
    Ok(Answer::Basis(words))
}

// Equal words.
pub(crate) fn copy_words(alloc: Global, words: &[Word]) -> Result<Words, NoMemory>
    ensures { IfOk result (λ copy. copy ≡ words.now) }
{
    let mut copy = Words::new(alloc);
    for word in words {
        copy.push(word.copy(alloc)?)?;
    }
    Ok(copy)
}
