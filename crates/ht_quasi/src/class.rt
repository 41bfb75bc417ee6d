//! The classes of the words of a basis.
ghost use Rattle.std.specs.Prelude.{◌≡◌, ◌++◌, [], ◌∷◌, List, length, IfOk};
ghost use Rattle.ht_word.specs.declared.word.Word.{Word};
ghost use Rattle.ht_pair.specs.declared.row.Row.{Row};
ghost use Rattle.ht_pair.specs.HeldBases.{IsHeldBasis};
ghost use Rattle.ht_pair.specs.Pairs.{IsPair};
ghost use Rattle.ht_pair.specs.Sides.{words_on};
ghost use Rattle.ht_quasi.specs.Quasis.{IsYOf, AreClasses};
ghost use Rattle.ht_quasi.specs.Marks.{AreMarks, AreClassesBy, told};

use crate::quasi::{Class, Classes};
use ht_pair::{Basis, Row, Side};
use ht_word::{NoMemory, Word};
use std::alloc::Global;

// Marks the word where it is in the basis. O(log N) comparisons of words.
fn mark(marks: &mut Vec<bool>, basis: &Basis, word: &Word)
    requires { length marks.old.items ≡ length basis.now.words }
    ensures { (W : List Word) → AreMarks W basis.now.words marks.old.items → AreMarks (W ++ word.now ∷ []) basis.now.words marks.new.items }
{
    if let Some(place) = basis.find(word) {
        if basis.words().at(place).letters.len() == word.letters.len() {
            marks[place] = true;
        }
    }
}

// Which words of the basis are words on that side of the rows. O(M log N) comparisons of words for M
// rows and N words.
fn marks_of(alloc: Global, basis: &Basis, side: Side, rows: &[Row]) -> Result<Vec<bool>, NoMemory>
    ensures marks { IfOk result (λ marks. AreMarks (words_on side rows.now) basis.now.words marks.items) }
    ensures held { IsHeldBasis basis.now.shape basis.now.words }
{
    let mut marks = vec![in alloc; false; basis.words().len()]?;
    for row in rows {
        mark(&mut marks, basis, side.word(row));
    }
    Ok(marks)
}

// The class of a word of the basis, by whether it is a `from` word and whether it is a `to` word.
fn class_of(stays: bool, comes: bool) -> Class
    ensures { result ≡ told stays comes }
{
    if !stays {
        Class::Splits
    } else if !comes {
        Class::Joined
    } else {
        Class::Plain
    }
}

// The classes that the marks tell. One pass.
fn told_classes(alloc: Global, stays: &[bool], comes: &[bool]) -> Result<Classes, NoMemory>
    requires { length stays.now ≡ length comes.now }
    ensures { IfOk result (λ classes. (length classes ≡ length stays.now) × AreClassesBy stays.now comes.now classes) }
{
    let mut classes = Classes::new(alloc);
    for (place, stay) in stays.iter().enumerate() {
        classes.push(class_of(*stay, comes[place]))?;
    }
    Ok(classes)
}

// The classes of the words of the basis, from the rows of what one step carries under it: a word
// that both splits and is joined is told to split. O(M log N) comparisons of words for M rows and N
// words.
pub(crate) fn classes_of(alloc: Global, basis: &Basis, rows: &[Row]) -> Result<Classes, NoMemory>
    ensures { IfOk result (λ classes. (p : List Row) → IsPair basis.now.shape p → IsYOf basis.now.shape p basis.now.words rows.now → AreClasses basis.now.shape p basis.now.words classes) }
{
    let stays = marks_of(alloc, basis, Side::From, rows)?;
    let comes = marks_of(alloc, basis, Side::To, rows)?;
    told_classes(alloc, &stays, &comes)
}
