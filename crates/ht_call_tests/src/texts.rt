//! Elements and words from texts, and texts of what calls give.
ghost use Rattle.std.specs.Prelude.{◌≡◌, IfOk};
ghost use Rattle.ht_word.specs.Words.{IsWordOf};

use ht_pair::Element;
use ht_text::{read_rows, read_word};
use ht_word::{Shape, Word};
use std::alloc::Global;
use std::process::Abort;
use std::test::Fail;

// The element of rows in a text.
pub(crate) fn element_of(alloc: Global, shape: Shape, text: &str) -> Result<Element, Fail>
    ensures { IfOk result (λ element. element.shape ≡ shape) }
{
    let rows = read_rows(alloc, text.as_bytes())?.ok_or("no rows")?;
    Ok(Element::of_rows(alloc, shape, rows)?)
}

// The word of a text, which is of the shape.
pub(crate) fn word_in(
    rt: &impl Abort,
    alloc: Global,
    shape: Shape,
    text: &str,
) -> Result<Word, Fail>
    ensures { IfOk result (IsWordOf shape) }
{
    let word = read_word(alloc, text.as_bytes())?.ok_or("no word")?;
    if !shape.holds(&word) {
        panic!(rt; "{text} is a word of another shape")
    }
    Ok(word)
}

// Appends the root, a point and the letters as digits, and a space.
pub(crate) fn add_word(alloc: Global, word: &Word, text: &mut String) -> Result<(), Fail> {
    text.push_str(&format!(in alloc; "x{}.", word.root)?)?;
    for letter in word.letters.as_slice() {
        text.push(char::from(b'0'.saturating_add(*letter)))?;
    }
    text.push(' ')?;
    Ok(())
}
