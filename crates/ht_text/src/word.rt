//! Texts of words.
ghost use Rattle.std.specs.Prelude.{◌≡◌, ◌++◌, ◌<◌, ℕ, List, All, length, map, IfOk, OnOk, OnErr, MatchOption};
ghost use Rattle.ht_word.specs.declared.word.Word.{Word};
ghost use Rattle.ht_word.specs.Words.{◌·◌};
ghost use Rattle.ht_text.specs.Texts.{IsDigitLetter, HasText, letter_code, letters_text, word_text, IsRoot, AreLetters, IsWord};
ghost use Rattle.ht_text.specs.Writes.{AddsFront};

use crate::bytes::{after, cut};
use crate::number::{read_num, write_num};
use ht_word::{Letters, NoMemory, Word};
use std::alloc::Global;

/// Appends the text of a word. One pass over its letters. After a refusal `out` holds what it held
/// and a front of the text.
pub fn write_word(w: &Word, out: &mut Vec<u8>) -> Result<(), NoMemory>
    requires { HasText w.now }
    ensures ok { OnOk result (out.new.items ≡ out.old.items ++ word_text w.now) }
    ensures err { OnErr result (AddsFront out.old.items out.new.items (word_text w.now)) }
{
    write_joined(w, b"", out)
}

/// Appends the text of the word with more letters behind it. One pass over all letters. After a
/// refusal `out` holds what it held and a front of the text.
pub fn write_joined(w: &Word, more: &[u8], out: &mut Vec<u8>) -> Result<(), NoMemory>
    requires { HasText (w.now · more.now) }
    ensures ok { OnOk result (out.new.items ≡ out.old.items ++ word_text (w.now · more.now)) }
    ensures err { OnErr result (AddsFront out.old.items out.new.items (word_text (w.now · more.now))) }
{
    out.push(b'x')?;
    write_num(w.root as u32, out)?;
    write_parts(w.letters.as_slice(), more, out)
}

// Appends the text of letters in two parts. One pass over them.
fn write_parts(letters: &[u8], more: &[u8], out: &mut Vec<u8>) -> Result<(), NoMemory>
    requires { All IsDigitLetter (letters.now ++ more.now) }
    ensures ok { OnOk result (out.new.items ≡ out.old.items ++ letters_text (letters.now ++ more.now)) }
    ensures err { OnErr result (AddsFront out.old.items out.new.items (letters_text (letters.now ++ more.now))) }
{
    if letters.is_empty() && more.is_empty() {
        return Ok(());
    }
    write_dotted(letters, more, out)
}

// Appends the text of letters in two parts, of which there are some. One pass over them.
fn write_dotted(letters: &[u8], more: &[u8], out: &mut Vec<u8>) -> Result<(), NoMemory>
    requires some { 0 < length (letters.now ++ more.now) }
    requires digits { All IsDigitLetter (letters.now ++ more.now) }
    ensures ok { OnOk result (out.new.items ≡ out.old.items ++ letters_text (letters.now ++ more.now)) }
    ensures err { OnErr result (AddsFront out.old.items out.new.items (letters_text (letters.now ++ more.now))) }
{
    out.push(b'.')?;
    write_letters(letters, out)?;
    write_letters(more, out)
}

/// Appends the digits of letters. One pass over them. After a refusal `out` holds what it held and
/// a front of the digits.
pub fn write_letters(letters: &[u8], out: &mut Vec<u8>) -> Result<(), NoMemory>
    requires { All IsDigitLetter letters.now }
    ensures ok { OnOk result (out.new.items ≡ out.old.items ++ map letter_code letters.now) }
    ensures err { OnErr result (AddsFront out.old.items out.new.items (map letter_code letters.now)) }
{
    for letter in letters {
        out.push(b'0' + *letter)?;
    }
    Ok(())
}

/// The word that the bytes are the text of; `None` exactly where they are the text of none. Two
/// passes over them. Takes memory beyond 24 letters.
pub fn read_word(alloc: Global, bytes: &[u8]) -> Result<Option<Word>, NoMemory>
    ensures { IfOk result (λ found. MatchOption found ((w : Word) → ¬ IsWord bytes.now w) (IsWord bytes.now)) }
{
    let Some(text) = after(bytes, b"x") else {
        return Ok(None);
    };
    let Some((front, digits)) = cut(text, b'.') else {
        let Some(root) = read_root(text) else {
            return Ok(None);
        };
        return Ok(Some(Word::new(alloc, root)));
    };
    let Some(root) = read_root(front) else {
        return Ok(None);
    };
    let Some(letters) = read_letters(alloc, digits)? else {
        return Ok(None);
    };
    Ok(Some(Word { root, letters }))
}

// The root that the bytes are the text of. Constant time.
fn read_root(bytes: &[u8]) -> Option<u16>
    ensures { MatchOption result ((n : ℕ) → ¬ IsRoot bytes.now n) (IsRoot bytes.now) }
{
    let Some(root) = read_num(bytes) else {
        return None;
    };
    if root == 0 {
        return None;
    }
    Some(root as u16)
}

// The letters that the bytes are the digits of. One pass over them.
fn read_letters(alloc: Global, bytes: &[u8]) -> Result<Option<Letters>, NoMemory>
    ensures { IfOk result (λ found. MatchOption found ((z : List ℕ) → ¬ AreLetters bytes.now z) (AreLetters bytes.now)) }
{
    if bytes.is_empty() {
        return Ok(None);
    }
    let mut letters = Letters::new(alloc);
    for digit in bytes {
        if *digit < b'1' || *digit > b'9' {
            return Ok(None);
        }
        letters.push(*digit - b'0')?;
    }
    Ok(Some(letters))
}
