//! The texts of the answers to `share` and `ponds`.
ghost use Rattle.std.specs.Prelude.{◌≡◌, ◌++◌, All, OnOk, OnErr, codes};
ghost use Rattle.std.specs.Fmt.{signed_decimal};
ghost use Rattle.std.specs.List.{flat_map};
ghost use Rattle.ht_text.specs.Writes.{AddsFront};
ghost use Rattle.ht_answer.specs.declared.answer.Answer.{Answer};
ghost use Rattle.ht_answer.specs.Answers.{answer_text};
ghost use Rattle.ht_answer.specs.OrbitTexts.{HasPondText, leap_text, pond_text, later_pond_text, ponds_text};

use ht_text::{write_natural, write_word};
use ht_types::{Pond, Ponds};
use ht_word::NoMemory;
use itoa::Buffer;

// Appends the answer to `share`.
pub(crate) fn print_share(shared: Option<i128>, out: &mut Vec<u8>) -> Result<(), NoMemory>
    ensures ok { OnOk result (out.new.items ≡ out.old.items ++ answer_text (Answer.Share shared)) }
    ensures err { OnErr result (AddsFront out.old.items out.new.items (answer_text (Answer.Share shared))) }
{
    let Some(k) = shared else {
        out.extend_from_slice(b"share none\n")?;
        return Ok(());
    };
    write_shared(k, out)
}

// Appends the answer of a number that words share their orbit by.
fn write_shared(k: i128, out: &mut Vec<u8>) -> Result<(), NoMemory>
    ensures ok { OnOk result (out.new.items ≡ out.old.items ++ answer_text (Answer.Share (Some k))) }
    ensures err { OnErr result (AddsFront out.old.items out.new.items (answer_text (Answer.Share (Some k)))) }
{
    out.extend_from_slice(b"share ")?;
    write_integer(k, out)?;
    out.push(b'\n')?;
    Ok(())
}

// Appends the decimal digits of a number, behind a `-` where it is negative.
pub(crate) fn write_integer(n: i128, out: &mut Vec<u8>) -> Result<(), NoMemory>
    ensures ok { OnOk result (out.new.items ≡ out.old.items ++ signed_decimal n) }
    ensures err { OnErr result (AddsFront out.old.items out.new.items (signed_decimal n)) }
{
    out.extend_from_slice(Buffer::new().format(n).as_bytes())?;
    Ok(())
}

// Appends the answer to `ponds`.
pub(crate) fn print_ponds(ponds: &Ponds, out: &mut Vec<u8>) -> Result<(), NoMemory>
    requires { All HasPondText ponds.now }
    ensures ok { OnOk result (out.new.items ≡ out.old.items ++ answer_text (Answer.Ponds ponds.now)) }
    ensures err { OnErr result (AddsFront out.old.items out.new.items (answer_text (Answer.Ponds ponds.now))) }
{
    write_ponds(ponds.as_slice(), out)?;
    out.push(b'\n')?;
    Ok(())
}

// Appends ponds, with a `;` between any two, or `none`.
fn write_ponds(ponds: &[Pond], out: &mut Vec<u8>) -> Result<(), NoMemory>
    requires { All HasPondText ponds.now }
    ensures ok { OnOk result (out.new.items ≡ out.old.items ++ ponds_text ponds.now) }
    ensures err { OnErr result (AddsFront out.old.items out.new.items (ponds_text ponds.now)) }
{
    let Some((first, others)) = ponds.split_first() else {
        out.extend_from_slice(b"none")?;
        return Ok(());
    };
    write_pond(first, out)?;
    write_others(others, out)
}

// Appends ponds, each behind a `;`.
fn write_others(ponds: &[Pond], out: &mut Vec<u8>) -> Result<(), NoMemory>
    requires { All HasPondText ponds.now }
    ensures ok { OnOk result (out.new.items ≡ out.old.items ++ flat_map later_pond_text ponds.now) }
    ensures err { OnErr result (AddsFront out.old.items out.new.items (flat_map later_pond_text ponds.now)) }
{
    for pond in ponds {
        write_later(pond, out)?;
    }
    Ok(())
}

// Appends a pond behind a `;`.
fn write_later(pond: &Pond, out: &mut Vec<u8>) -> Result<(), NoMemory>
    requires { HasPondText pond.now }
    ensures ok { OnOk result (out.new.items ≡ out.old.items ++ later_pond_text pond.now) }
    ensures err { OnErr result (AddsFront out.old.items out.new.items (later_pond_text pond.now)) }
{
    out.push(b';')?;
    write_pond(pond, out)
}

// Appends a pond: its first word, its steps and the word that they lead to.
fn write_pond(pond: &Pond, out: &mut Vec<u8>) -> Result<(), NoMemory>
    requires { HasPondText pond.now }
    ensures ok { OnOk result (out.new.items ≡ out.old.items ++ pond_text pond.now) }
    ensures err { OnErr result (AddsFront out.old.items out.new.items (pond_text pond.now)) }
{
    write_leap(pond, out)?;
    out.push(b' ')?;
    write_word(&pond.to, out)
}

// Appends the first word of a pond and its steps.
fn write_leap(pond: &Pond, out: &mut Vec<u8>) -> Result<(), NoMemory>
    requires { HasPondText pond.now }
    ensures ok { OnOk result (out.new.items ≡ out.old.items ++ leap_text pond.now) }
    ensures err { OnErr result (AddsFront out.old.items out.new.items (leap_text pond.now)) }
{
    write_word(&pond.from, out)?;
    out.push(b' ')?;
    write_natural(pond.steps, out)
}
