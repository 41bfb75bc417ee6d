//! Expansions of bases, and which words are a basis.
ghost use Rattle.std.specs.Prelude.{All, IfOk};
ghost use Rattle.ht_word.specs.Words.{IsWordOf};

use crate::texts::{add_word, word_in};
use ht_pair::{Basis, is_basis};
use ht_word::{Shape, Words};
use std::alloc::Global;
use std::process::Abort;
use std::test::Fail;

// The words of a basis of two roots and three letters, of which the second root is expanded.
fn expanded_text(alloc: Global) -> Result<String, Fail> {
    let mut basis = Basis::roots(alloc, Shape::new(3, 2)?)?;
    basis.expand(alloc, 1)?;
    let mut text = String::new(alloc);
    for word in basis.words().as_slice() {
        add_word(alloc, word, &mut text)?;
    }
    Ok(text)
}

// The words of the texts.
fn words_in(rt: &impl Abort, alloc: Global, shape: Shape, texts: &[&str]) -> Result<Words, Fail>
    ensures { IfOk result (All (IsWordOf shape)) }
{
    let mut words = Words::new(alloc);
    for text in texts {
        words.push(word_in(rt, alloc, shape, text)?)?;
    }
    Ok(words)
}

// Whether the words of the texts are a basis of one root and two letters.
fn are_basis(rt: &impl Abort, alloc: Global, texts: &[&str]) -> Result<bool, Fail> {
    let shape = Shape::new(2, 1)?;
    Ok(is_basis(shape, words_in(rt, alloc, shape, texts)?)?)
}

#[test]
fn a_word_gives_way_to_its_children(rt: HostRuntime) -> Result<(), Fail> {
    let text = expanded_text(rt.alloc())?;
    assert_eq!(rt; text.as_str(), "x1. x2.1 x2.2 x2.3 ");
    Ok(())
}

// In order or not; with a word left out, one too many, one twice, and no word.
#[test]
fn words_are_told_to_be_a_basis(rt: HostRuntime) -> Result<(), Fail> {
    let alloc = rt.alloc();
    assert!(rt; are_basis(&rt, alloc, &["x1"])?);
    assert!(rt; are_basis(&rt, alloc, &["x1.22", "x1.1", "x1.21"])?);
    assert!(rt; !are_basis(&rt, alloc, &["x1.22", "x1.1"])?);
    assert!(rt; !are_basis(&rt, alloc, &["x1.2", "x1.1", "x1.21"])?);
    assert!(rt; !are_basis(&rt, alloc, &["x1.2", "x1.1", "x1.2"])?);
    assert!(rt; !are_basis(&rt, alloc, &[])?);
    Ok(())
}
