//! Images under many steps, and behind letters.
ghost use Rattle.std.specs.Prelude.{◌≡◌, IfOk};
ghost use Rattle.ht_pair.specs.ValueLists.{IsValueList};

use crate::texts::{add_word, element_of, word_in};
use ht_ops::Image;
use ht_word::{Shape, Word};
use std::alloc::Global;
use std::process::Abort;
use std::test::Fail;

// The words under the word of a text.
fn cone_in(rt: &impl Abort, alloc: Global, shape: Shape, text: &str) -> Result<Image, Fail>
    ensures { IfOk result (IsValueList shape) }
{
    let word = word_in(rt, alloc, shape, text)?;
    Ok(Image::cone(alloc, word)?)
}

// The words to which the k-th power of the element of the rows sends the cone of the word, in order.
fn image_text(
    rt: &impl Abort,
    alloc: Global,
    rows: &str,
    word: &str,
    k: i128,
) -> Result<String, Fail> {
    let shape = Shape::new(2, 1)?;
    let cone = cone_in(rt, alloc, shape, word)?;
    let image = cone.steps(alloc, &element_of(alloc, shape, rows)?, k)?;
    let mut text = String::new(alloc);
    for row in image.rows_under(alloc, &Word::new(alloc, 1))?.as_slice() {
        add_word(alloc, &row.to, &mut text)?;
    }
    Ok(text)
}

// What the image of x1 under one step of the element of the rows is behind the letters of the word:
// the entries as words behind x1 and the words that they lead to, and whether that is the image.
fn behind_text(rt: &impl Abort, alloc: Global, rows: &str, word: &str) -> Result<String, Fail> {
    let shape = Shape::new(2, 1)?;
    let cone = cone_in(rt, alloc, shape, "x1")?;
    let image = cone.step(alloc, &element_of(alloc, shape, rows)?)?;
    let word = word_in(rt, alloc, shape, word)?;
    let behind = image.behind(alloc, shape, word.letters.as_slice())?;
    let mut text = String::new(alloc);
    for row in behind.rows_under(alloc, &Word::new(alloc, 1))?.as_slice() {
        add_word(alloc, &row.from, &mut text)?;
        add_word(alloc, &row.to, &mut text)?;
    }
    text.push_str(if behind.same(&image) { "same" } else { "other" })?;
    Ok(text)
}

// The word of so many equal letters.
fn long_text(alloc: Global, letter: char, count: u32) -> Result<String, Fail> {
    let mut text = String::from_str(alloc, "x1.")?;
    for _ in 0..count {
        text.push(letter)?;
    }
    text.push(' ')?;
    Ok(text)
}

const THIRD: &str = "x1.1>x1.21;x1.21>x1.22;x1.22>x1.1";

const SHIFT: &str = "x1.1>x1.11;x1.21>x1.12;x1.22>x1.2";

// An element of order 3, and one that puts a letter before its attractor's words at each step, and
// whose powers are soon too large to be elements.
#[test]
fn images_follow_many_steps(rt: HostRuntime) -> Result<(), Fail> {
    let alloc = rt.alloc();
    let many = 100_000_000_000_000_000_000;
    let once = image_text(&rt, alloc, THIRD, "x1", many)?;
    assert_eq!(rt; once.as_str(), "x1.21 x1.22 x1.1 ");
    let back = image_text(&rt, alloc, THIRD, "x1", -many)?;
    assert_eq!(rt; back.as_str(), "x1.22 x1.1 x1.21 ");
    let ahead = image_text(&rt, alloc, SHIFT, "x1.1", 1_100)?;
    assert_eq!(rt; ahead.as_str(), long_text(alloc, '1', 1_101)?.as_str());
    let behind = image_text(&rt, alloc, SHIFT, "x1.2", -1_100)?;
    assert_eq!(rt; behind.as_str(), long_text(alloc, '2', 1_101)?.as_str());
    Ok(())
}

// Behind no letters, behind letters that an entry has, and below and above those of entries.
#[test]
fn images_are_told_behind_letters(rt: HostRuntime) -> Result<(), Fail> {
    for (word, wanted) in [
        ("x1", "x1.1 x1.21 x1.21 x1.22 x1.22 x1.1 same"),
        ("x1.1", "x1. x1.21 other"),
        ("x1.12", "x1. x1.212 other"),
        ("x1.2", "x1.1 x1.22 x1.2 x1.1 other"),
        ("x1.2212", "x1. x1.112 other"),
    ] {
        let told = behind_text(&rt, rt.alloc(), THIRD, word)?;
        assert_eq!(rt; told.as_str(), wanted);
    }
    Ok(())
}
