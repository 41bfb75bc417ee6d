//! Laws of answers, each as the contract of a function that does nothing.
ghost use Rattle.std.specs.Prelude.{◌≡◌, ◌++◌, ◌↔◌, ℕ, List, codes};
ghost use Rattle.ht_answer.specs.declared.answer.Answer.{Answer};
ghost use Rattle.ht_answer.specs.Answers.{IsRefusal, answer_text};

/// An answer is a refusal exactly where its text begins with `refused: `.
pub fn refusals_are_told_by_their_texts()
    ensures { (answer : Answer) → IsRefusal answer ↔ ((rest : List ℕ) × (answer_text answer ≡ codes "refused: " ++ rest)) }
{}
