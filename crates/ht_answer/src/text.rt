//! The texts of answers.
ghost use Rattle.std.specs.Prelude.{◌≡◌, ◌++◌, OnOk, OnErr, codes, decimal};
ghost use Rattle.std.specs.Fmt.{signed_decimal};
ghost use Rattle.std.specs.List.{flat_map};
ghost use Rattle.ht_text.specs.Texts.{HasText, HasRowsText};
ghost use Rattle.ht_text.specs.Writes.{AddsFront};
ghost use Rattle.ht_answer.specs.Answers.{HasWordsText, HasAnswerText, number_line, name_line, rows_line, spaced_text, words_text, refusal_text, answer_text};
ghost use Rattle.ht_answer.specs.OrderTexts.{order_line};

use crate::answer::{Answer, Refusal};
use crate::orbit::{print_ponds, print_share, write_integer};
use crate::profile::print_profile;
use crate::types::print_types;
use ht_pair::Rows;
use ht_text::{write_natural, write_num, write_rows, write_size, write_word};
use ht_types::Order;
use ht_word::{Name, NoMemory, Word, Words};

/// Appends the text of an answer, with its line feed. One pass over its rows, words or entries. After a
/// refusal `out` holds what it held and a front of the text.
pub fn print(answer: &Answer, out: &mut Vec<u8>) -> Result<(), NoMemory>
    requires { HasAnswerText answer.now }
    ensures ok { OnOk result (out.new.items ≡ out.old.items ++ answer_text answer.now) }
    ensures err { OnErr result (AddsFront out.old.items out.new.items (answer_text answer.now)) }
{
    match answer {
        Answer::Blank => Ok(()),
        Answer::Group { n, r } => write_numbers(b"group ", *n as usize, *r as usize, out),
        Answer::Pair(rows) => print_rows(b"", rows, out),
        Answer::Let { name, rows } => print_bound(b"let ", name, *rows, out),
        Answer::Load { name, rows } => print_bound(b"load ", name, *rows, out),
        Answer::Equal(alike) => print_equal(*alike, out),
        Answer::Basis(words) => print_basis(words, out),
        Answer::Order(order) => print_order(*order, out),
        Answer::Types { words, kinds } => print_types(words, kinds, out),
        Answer::Profile(profile) => print_profile(profile, out),
        Answer::Parts { periodic, infinite } => write_numbers(b"parts ", *periodic, *infinite, out),
        Answer::Conjugate { rows } => print_rows(b"conjugate ", rows, out),
        Answer::NotKept { letters, rows } => print_not_kept(*letters, rows, out),
        Answer::NotConjugate => write_text(b"not conjugate\n", out),
        Answer::Ponds(ponds) => print_ponds(ponds, out),
        Answer::Share(shared) => print_share(*shared, out),
        Answer::Powers { i, j, by } => print_powers(*i, *j, by, out),
        Answer::NoPowers => write_text(b"power none\n", out),
        Answer::Refused(why) => print_refusal(why, out),
    }
}

// Appends a line: a text and rows.
fn print_rows(text: &[u8], rows: &Rows, out: &mut Vec<u8>) -> Result<(), NoMemory>
    requires { HasRowsText rows.now }
    ensures ok { OnOk result (out.new.items ≡ out.old.items ++ rows_line text.now rows.now) }
    ensures err { OnErr result (AddsFront out.old.items out.new.items (rows_line text.now rows.now)) }
{
    out.extend_from_slice(text)?;
    write_rows(rows, out)?;
    out.push(b'\n')?;
    Ok(())
}

// Appends the answer to `let` or `load`: the command, the name and the number of its rows.
fn print_bound(command: &[u8], name: &Name, rows: usize, out: &mut Vec<u8>) -> Result<(), NoMemory>
    ensures ok { OnOk result (out.new.items ≡ out.old.items ++ (command.now ++ name.now ++ number_line (codes " ") rows)) }
    ensures err { OnErr result (AddsFront out.old.items out.new.items (command.now ++ name.now ++ number_line (codes " ") rows)) }
{
    out.extend_from_slice(command)?;
    out.extend_from_slice(name.as_slice())?;
    write_line(b" ", rows, out)
}

// Appends the answer to `equal`.
fn print_equal(alike: bool, out: &mut Vec<u8>) -> Result<(), NoMemory>
    ensures ok { OnOk result (out.new.items ≡ out.old.items ++ answer_text (Answer.Equal alike)) }
    ensures err { OnErr result (AddsFront out.old.items out.new.items (answer_text (Answer.Equal alike))) }
{
    if alike {
        write_text(b"yes\n", out)
    } else {
        write_text(b"no\n", out)
    }
}

// Appends words as an answer.
fn print_basis(words: &Words, out: &mut Vec<u8>) -> Result<(), NoMemory>
    requires { HasWordsText words.now }
    ensures ok { OnOk result (out.new.items ≡ out.old.items ++ answer_text (Answer.Basis words.now)) }
    ensures err { OnErr result (AddsFront out.old.items out.new.items (answer_text (Answer.Basis words.now))) }
{
    write_words(words.as_slice(), out)?;
    out.push(b'\n')?;
    Ok(())
}

// Appends the texts of words, with a space between any two.
fn write_words(words: &[Word], out: &mut Vec<u8>) -> Result<(), NoMemory>
    requires { HasWordsText words.now }
    ensures ok { OnOk result (out.new.items ≡ out.old.items ++ words_text words.now) }
    ensures err { OnErr result (AddsFront out.old.items out.new.items (words_text words.now)) }
{
    let Some((first, others)) = words.split_first() else {
        return Ok(());
    };
    write_word(first, out)?;
    write_others(others, out)
}

// Appends the texts of words, each behind a space.
fn write_others(words: &[Word], out: &mut Vec<u8>) -> Result<(), NoMemory>
    requires { HasWordsText words.now }
    ensures ok { OnOk result (out.new.items ≡ out.old.items ++ flat_map spaced_text words.now) }
    ensures err { OnErr result (AddsFront out.old.items out.new.items (flat_map spaced_text words.now)) }
{
    for word in words {
        write_spaced(word, out)?;
    }
    Ok(())
}

// Appends the text of a word behind a space.
fn write_spaced(word: &Word, out: &mut Vec<u8>) -> Result<(), NoMemory>
    requires { HasText word.now }
    ensures ok { OnOk result (out.new.items ≡ out.old.items ++ spaced_text word.now) }
    ensures err { OnErr result (AddsFront out.old.items out.new.items (spaced_text word.now)) }
{
    out.push(b' ')?;
    write_word(word, out)
}

// Appends the answer to `order`; nothing for a wide one.
fn print_order(order: Order, out: &mut Vec<u8>) -> Result<(), NoMemory>
    ensures ok { OnOk result (out.new.items ≡ out.old.items ++ order_line order) }
    ensures err { OnErr result (AddsFront out.old.items out.new.items (order_line order)) }
{
    match order {
        Order::Finite(k) => print_finite(k, out),
        Order::Infinite => write_text(b"order infinite\n", out),
        Order::Wide => Ok(()),
    }
}

// Appends a finite order as an answer.
fn print_finite(k: u128, out: &mut Vec<u8>) -> Result<(), NoMemory>
    ensures ok { OnOk result (out.new.items ≡ out.old.items ++ number_line (codes "order ") k) }
    ensures err { OnErr result (AddsFront out.old.items out.new.items (number_line (codes "order ") k)) }
{
    out.extend_from_slice(b"order ")?;
    write_natural(k, out)?;
    out.push(b'\n')?;
    Ok(())
}

// Appends the answer of a conjugator that isn't kept.
fn print_not_kept(letters: usize, rows: &Rows, out: &mut Vec<u8>) -> Result<(), NoMemory>
    requires { HasRowsText rows.now }
    ensures ok { OnOk result (out.new.items ≡ out.old.items ++ answer_text (Answer.NotKept letters rows.now)) }
    ensures err { OnErr result (AddsFront out.old.items out.new.items (answer_text (Answer.NotKept letters rows.now))) }
{
    write_number(b"conjugate not kept ", rows.len(), out)?;
    write_number(b" ", letters, out)?;
    print_rows(b" ", rows, out)
}

// Appends the answer of two powers that are conjugate.
fn print_powers(i: i128, j: i128, by: &Rows, out: &mut Vec<u8>) -> Result<(), NoMemory>
    requires { HasRowsText by.now }
    ensures ok { OnOk result (out.new.items ≡ out.old.items ++ answer_text (Answer.Powers i j by.now)) }
    ensures err { OnErr result (AddsFront out.old.items out.new.items (answer_text (Answer.Powers i j by.now))) }
{
    write_exponents(i, j, out)?;
    print_rows(b" ", by, out)
}

// Appends the beginning of this answer: `power` and the two exponents.
fn write_exponents(i: i128, j: i128, out: &mut Vec<u8>) -> Result<(), NoMemory>
    ensures ok { OnOk result (out.new.items ≡ out.old.items ++ (codes "power " ++ signed_decimal i ++ codes " " ++ signed_decimal j)) }
    ensures err { OnErr result (AddsFront out.old.items out.new.items (codes "power " ++ signed_decimal i ++ codes " " ++ signed_decimal j)) }
{
    out.extend_from_slice(b"power ")?;
    write_integer(i, out)?;
    out.push(b' ')?;
    write_integer(j, out)
}

// Appends the text of a refusal.
fn print_refusal(why: &Refusal, out: &mut Vec<u8>) -> Result<(), NoMemory>
    ensures ok { OnOk result (out.new.items ≡ out.old.items ++ refusal_text why.now) }
    ensures err { OnErr result (AddsFront out.old.items out.new.items (refusal_text why.now)) }
{
    match why {
        Refusal::Syntax(column) => write_line(b"refused: syntax ", *column, out),
        Refusal::Group => write_text(b"refused: group\n", out),
        Refusal::Name(name) => write_named(b"refused: name ", name, out),
        Refusal::Names => write_text(b"refused: names\n", out),
        Refusal::File => write_text(b"refused: file\n", out),
        Refusal::Form(line) => write_line(b"refused: file form ", *line, out),
        Refusal::Shape => write_text(b"refused: file shape\n", out),
        Refusal::RowsForeign(place) => write_line(b"refused: rows foreign ", *place, out),
        Refusal::RowsFrom => write_text(b"refused: rows from\n", out),
        Refusal::RowsTo => write_text(b"refused: rows to\n", out),
        Refusal::Wide => write_text(b"refused: wide\n", out),
        Refusal::Large { rows, letters } => write_numbers(b"refused: large ", *rows, *letters, out),
        Refusal::Word(place) => write_line(b"refused: word ", *place as usize, out),
        Refusal::Budget(name) => write_named(b"refused: budget ", name, out),
        Refusal::Above(place) => write_line(b"refused: above ", *place as usize, out),
    }
}

// Appends a line: a text and a name.
fn write_named(text: &[u8], name: &Name, out: &mut Vec<u8>) -> Result<(), NoMemory>
    ensures ok { OnOk result (out.new.items ≡ out.old.items ++ name_line text.now name.now) }
    ensures err { OnErr result (AddsFront out.old.items out.new.items (name_line text.now name.now)) }
{
    out.extend_from_slice(text)?;
    out.extend_from_slice(name.as_slice())?;
    out.push(b'\n')?;
    Ok(())
}

// Appends a line: a text and two numbers.
fn write_numbers(
    text: &[u8],
    first: usize,
    second: usize,
    out: &mut Vec<u8>,
) -> Result<(), NoMemory>
    ensures ok { OnOk result (out.new.items ≡ out.old.items ++ (text.now ++ decimal first ++ number_line (codes " ") second)) }
    ensures err { OnErr result (AddsFront out.old.items out.new.items (text.now ++ decimal first ++ number_line (codes " ") second)) }
{
    write_number(text, first, out)?;
    write_line(b" ", second, out)
}

// Appends the end of a line: a text and a number.
fn write_line(text: &[u8], n: usize, out: &mut Vec<u8>) -> Result<(), NoMemory>
    ensures ok { OnOk result (out.new.items ≡ out.old.items ++ number_line text.now n) }
    ensures err { OnErr result (AddsFront out.old.items out.new.items (number_line text.now n)) }
{
    write_number(text, n, out)?;
    out.push(b'\n')?;
    Ok(())
}

// Appends a text and a number.
fn write_number(text: &[u8], n: usize, out: &mut Vec<u8>) -> Result<(), NoMemory>
    ensures ok { OnOk result (out.new.items ≡ out.old.items ++ (text.now ++ decimal n)) }
    ensures err { OnErr result (AddsFront out.old.items out.new.items (text.now ++ decimal n)) }
{
    out.extend_from_slice(text)?;
    write_size(n, out)
}

// Appends a text, whole or not at all.
fn write_text(text: &[u8], out: &mut Vec<u8>) -> Result<(), NoMemory>
    ensures ok { OnOk result (out.new.items ≡ out.old.items ++ text.now) }
    ensures err { OnErr result (AddsFront out.old.items out.new.items text.now) }
{
    out.extend_from_slice(text)?;
    Ok(())
}
