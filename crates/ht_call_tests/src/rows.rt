//! Places in the rows of an element.
use crate::texts::element_of;
use ht_pair::{Element, first_under};
use ht_text::read_word;
use ht_word::Shape;
use std::alloc::Global;
use std::test::Fail;

// How many rows have their `from` words before the word of the text.
fn before_in(alloc: Global, element: &Element, text: &str) -> Result<usize, Fail> {
    let word = read_word(alloc, text.as_bytes())?.ok_or("no word")?;
    element.keeps_limits();
    Ok(first_under(element.as_rows(), &word))
}

// The same for the rows of a text and each of the words.
fn all_before(alloc: Global, rows: &str, words: &[&str]) -> Result<String, Fail> {
    let element = element_of(alloc, Shape::new(2, 1)?, rows)?;
    let mut text = String::new(alloc);
    for word in words {
        let before = before_in(alloc, &element, word)?;
        text.push_str(&format!(in alloc; "{before} ")?)?;
    }
    Ok(text)
}

// Words above rows, of rows, between rows, and behind all.
#[test]
fn the_first_row_under_a_word_is_found(rt: HostRuntime) -> Result<(), Fail> {
    let words = ["x1", "x1.1", "x1.2", "x1.21", "x1.212", "x1.22", "x1.221"];
    let text = all_before(rt.alloc(), "x1.22>x1.2;x1.1>x1.11;x1.21>x1.12", &words)?;
    assert_eq!(rt; text.as_str(), "0 0 1 1 2 2 3 ");
    Ok(())
}
