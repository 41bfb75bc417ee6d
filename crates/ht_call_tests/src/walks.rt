//! Walks and exits behind, between a repeller and an attractor.
ghost use Rattle.std.specs.Prelude.{◌≡◌, IfOk};
ghost use Rattle.ht_word.specs.Words.{IsWordOf};
ghost use Rattle.ht_types.specs.Flows.{IsUnderInfinite};

use crate::told::{Asked, told_of};
use ht_text::read_word;
use ht_types::{Direction, Kind, Typed, exit_of, walk_of};
use ht_word::Word;
use std::alloc::Global;
use std::process::Abort;
use std::test::Fail;

// The rows of an element that carries words from the repeller x1 to the attractor x4. One step carries x1.2 to no
// word under the basis, and x1.21 to the passing word x2.
const PASSAGE: &str = "x1.1>x1;x1.21>x2;x1.22>x3;x2>x4.21;x3>x4.22;x4>x4.1";

// The word of a text. It is under a word of the basis that is no cycle word.
fn infinite_word(rt: &impl Abort, alloc: Global, typed: &Typed, text: &str) -> Result<Word, Fail>
    ensures word { IfOk result (IsWordOf typed.now.element.shape) }
    ensures infinite { IfOk result (IsUnderInfinite typed.now.element.shape typed.now.element.rows typed.now.quasi.basis.words) }
{
    typed.keeps_kinds();
    let word = read_word(alloc, text.as_bytes())?.ok_or("no word")?;
    assert!(rt; typed.element().shape().holds(&word));
    let Some(place) = typed.quasi().basis.find(&word) else {
        panic!(rt; "{text} is above the basis")
    };
    match typed.kind(place) {
        Kind::Cycle { .. } => panic!(rt; "{text} is under a cycle word"),
        _ => Ok(word),
    }
}

// The walk of the word behind: its steps, and the place and the letters where it ends; then the letters
// of its exit behind.
fn told_behind(rt: &impl Abort, alloc: Global, typed: &Typed, text: &str) -> Result<String, Fail> {
    let word = infinite_word(rt, alloc, typed, text)?;
    let walk = walk_of(alloc, typed, Direction::Behind, &word)?;
    let exit = exit_of(alloc, typed, Direction::Behind, &word)?;
    let rest = walk.rest.as_slice();
    let letters = exit.letters.as_slice();
    Ok(format!(in alloc; "{} {}{rest:?} {letters:?};", walk.steps, walk.to)?)
}

// Of four words, one after another.
pub(crate) fn all_behind(rt: &impl Abort, alloc: Global, typed: &Typed) -> Result<String, Fail> {
    let mut text = String::new(alloc);
    for word in ["x4.121", "x2", "x4", "x4.22"] {
        text.push_str(&told_behind(rt, alloc, typed, word)?)?;
    }
    Ok(text)
}

#[test]
fn walks_and_exits_lead_back(rt: HostRuntime) -> Result<(), Fail> {
    let text = told_of(&rt, rt.alloc(), 2, 4, PASSAGE, Asked::Behind)?;
    let wanted = "3 0[2, 1] [];1 0[2, 1] [];0 3[] [2, 1];2 0[2, 2] [];";
    assert_eq!(rt; text.as_str(), wanted);
    Ok(())
}
